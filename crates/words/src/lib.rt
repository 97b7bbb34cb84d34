// The texts of numbers, neighbours, marks and messages (document 01, "The printed listing"), each put into the room at an index. A writer
// answers the index right behind what it put.
#![tactic(auto)]

ghost use Rattle.std.specs.Prelude.{◌≡◌, [], ◌∷◌, ◌++◌, ◌+◌, ◌≤◌, ◌<◌, length};
ghost use Rattle.words.specs.Words.{digit, decimal, neighbour_text, mark_text, message_text};
ghost use Rattle.words.specs.Writing.{Wrote};

use line::{Content, Marks, Message, Neighbour};

// One byte.
pub fn put(out: &mut [u8], at: usize, byte: u8) -> usize
    requires { at < length out.old }
    ensures { Wrote out.old at (byte ∷ []) result out.new }
{
    out[at] = byte;
    at + 1
}

// The bytes of a word.
pub fn put_word(out: &mut [u8], at: usize, word: &[u8]) -> usize
    requires { at + length word.now ≤ length out.old }
    ensures { Wrote out.old at word.now result out.new }
{
    out[at..at + word.len()].copy_from_slice(word);
    at + word.len()
}

// The ASCII digit of a number below 10.
fn digit_of(d: u32) -> u8
    requires { d < 10 }
    ensures { result ≡ digit d }
{
    48 + d as u8
}

// The digits of a tenth of the number, where there is one, and then its last digit.
fn put_digits(out: &mut [u8], at: usize, n: u32) -> usize
    requires { at + length (decimal n) ≤ length out.old }
    ensures { Wrote out.old at (decimal n) result out.new }
{
    if n < 10 {
        return put(out, at, digit_of(n));
    }
    let end = put_digits(out, at, n / 10);
    put(out, end, digit_of(n % 10))
}

// A number of 32 bits has at most ten digits.
pub fn put_number(out: &mut [u8], at: usize, n: u32) -> usize
    requires { at + 10 ≤ length out.old }
    ensures { Wrote out.old at (decimal n) result out.new × (result ≤ at + 10) }
{
    put_digits(out, at, n)
}

// A word and a number right behind it.
pub fn put_named(out: &mut [u8], at: usize, word: &[u8], n: u32) -> usize
    requires { at + length word.now + 10 ≤ length out.old }
    ensures { Wrote out.old at (word.now ++ decimal n) result out.new × (result ≤ at + length word.now + 10) }
{
    let next = put_word(out, at, word);
    put_number(out, next, n)
}

// "left, right (`-` for none)"
pub fn put_neighbour(out: &mut [u8], at: usize, neighbour: Neighbour) -> usize
    requires { at + 10 ≤ length out.old }
    ensures { Wrote out.old at (neighbour_text neighbour) result out.new × (result ≤ at + 10) }
{
    match neighbour {
        None => put(out, at, b'-'),
        Some(n) => put_number(out, at, n),
    }
}

// "`stay` or `leave`"
pub fn put_mark(out: &mut [u8], at: usize, marks: Marks) -> usize
    requires { at + 5 ≤ length out.old }
    ensures { Wrote out.old at (mark_text marks) result out.new × (result ≤ at + 5) }
{
    if marks.leaving {
        return put_word(out, at, b"leave");
    }
    put_word(out, at, b"stay")
}

// "messages as `i` with the number, `l` or `r`"
pub fn put_message(out: &mut [u8], at: usize, m: Message) -> usize
    requires { at + 11 ≤ length out.old }
    ensures { Wrote out.old at (message_text m) result out.new × (result ≤ at + 11) }
{
    match m.content {
        Content::Introduction(n) => put_named(out, at, b"i", n),
        Content::RemoveLeft => put(out, at, b'l'),
        Content::RemoveRight => put(out, at, b'r'),
    }
}
