// The bytes of a block: little-endian integers, the sum of the words, zero bytes, and writing in place (document 01, "The block").
#![tactic(auto)]

ghost use Rattle.std.specs.Prelude.{◌≡◌, ◌+◌, ◌*◌, ◌%◌, ◌≤◌, length, replicate};
ghost use Rattle.octets.specs.Bytes.{word, quad, le16, le32, sum_words, part, all_zero, overwrite};

// "Integers are little-endian": 16 and 32 bits at an index.
pub fn word_at(b: &[u8], i: usize) -> u16
    requires { i + 2 ≤ length b.now }
    ensures { result ≡ word b.now i }
{
    u16::from_le_bytes([b[i], b[i + 1]])
}

pub fn quad_at(b: &[u8], i: usize) -> u32
    requires { i + 4 ≤ length b.now }
    ensures { result ≡ quad b.now i }
{
    u32::from_le_bytes([b[i], b[i + 1], b[i + 2], b[i + 3]])
}

// "The 256 words of 16 bits, added with wrap at 65,536".
pub fn check_sum(b: &[u8; 512]) -> u16
    ensures { result ≡ sum_words b.now % 65536 }
{
    let mut sum: u16 = 0;
    for k in 0..256 {
        sum = sum.wrapping_add(word_at(b, 2 * k));
    }
    sum
}

// Whether all bytes from one index up to another are 0, which they are where the first lies above the second: there is no such slice. There is no
// early return, so that the bytes are tested together, many at a time.
pub fn zero_between(b: &[u8], from: usize, to: usize) -> bool
    requires { to ≤ length b.now }
    ensures { result ≡ all_zero (part b.now from to) }
{
    let mut clear = true;
    for i in from..to {
        clear &= b[i] == 0;
    }
    clear
}

// The same written.
pub fn write_word(room: &mut [u8], at: usize, x: u16)
    requires { at + 2 ≤ length room.old }
    ensures { room.new ≡ overwrite at (le16 x) room.old }
{
    room[at..at + 2].copy_from_slice(&x.to_le_bytes());
}

pub fn write_quad(room: &mut [u8], at: usize, x: u32)
    requires { at + 4 ≤ length room.old }
    ensures { room.new ≡ overwrite at (le32 x) room.old }
{
    room[at..at + 4].copy_from_slice(&x.to_le_bytes());
}

pub fn clear(room: &mut [u8])
    ensures { room.new ≡ replicate (length room.old) 0 }
{
    room.fill(0);
}
