// The printed listing as bytes (document 01, "The printed listing"; document 02, T-02 and T-05).
#![tactic(auto)]

mod stations;

ghost use Rattle.std.specs.Prelude.{◌≡◌, true, [], ◌∷◌, ◌++◌, ◌+◌, ◌*◌, ◌/◌, ◌≤◌, length, take, drop};
ghost use Rattle.line.specs.Answer.{answer_number};
ghost use Rattle.table.specs.Blocks.{nodes};
ghost use Rattle.table.specs.Fault.{fault_of};
ghost use Rattle.words.specs.Words.{ascii, decimal, spaced, parted};
ghost use Rattle.words.specs.Writing.{Wrote};
ghost use Rattle.text.specs.Listing.{reason_words, carried_words, head_text, stations_text, prints_stations, listing_text};

use line::{Answered, Reason, answer_number, answer_reason};
use stations::put_line;
use table::block_at;
use words::{put, put_named, put_word};

// "the printed first line then ends in `bag`, or `held-by` and the station number" (document 02, T-02), with a space before each word.
fn put_reason(out: &mut [u8], at: usize, why: Reason) -> usize
    requires { at + 19 ≤ length out.old }
    ensures { Wrote out.old at (spaced (reason_words why)) result out.new × (result ≤ at + 19) }
{
    match why {
        Reason::OwnBag => put_word(out, at, b" bag"),
        Reason::HeldBy(q) => put_named(out, at, b" held-by ", q),
    }
}

// The reason, where the answer carries one.
fn put_carried(out: &mut [u8], at: usize, carried: Option<Reason>) -> usize
    requires { at + 19 ≤ length out.old }
    ensures { Wrote out.old at (spaced (carried_words carried)) result out.new × (result ≤ at + 19) }
{
    match carried {
        None => at,
        Some(why) => put_reason(out, at, why),
    }
}

// "First line: `answer`, the number, `done`, steps done, `stations`, stations."
fn put_counts(out: &mut [u8], number: u32, done: u32, stations: u32) -> usize
    requires { 53 ≤ length out.old }
    ensures { Wrote out.old 0 (parted (ascii "answer" ∷ decimal number ∷ ascii "done" ∷ decimal done ∷ ascii "stations" ∷ decimal stations ∷ [])) result out.new × (result ≤ 53) }
{
    let first = put_named(out, 0, b"answer ", number);
    let second = put_named(out, first, b" done ", done);
    put_named(out, second, b" stations ", stations)
}

// The first line: up to 53 bytes for its numbers, 19 for the reason and the line feed.
fn put_head(out: &mut [u8], answer: Answered, done: u32, stations: u32) -> usize
    requires { 73 ≤ length out.old }
    ensures { Wrote out.old 0 (head_text answer done stations) result out.new × (result ≤ 73) }
{
    let counted = put_counts(out, answer_number(answer), done, stations);
    let end = put_carried(out, counted, answer_reason(answer));
    put(out, end, b'\n')
}

// "For answers 0 and 10 to 15 there follows a line per station"
#[tactic(auto, unfolding(crate::specs::Listing::prints_stations))]
fn prints_stations(answer: u32) -> bool
    ensures { result ≡ prints_stations answer }
{
    matches!(answer, 0 | 10..=15)
}

// A line for each block of a table without a fault, in stored order.
fn put_lines(out: &mut [u8], at: usize, table: &[u8]) -> usize
    requires { (fault_of table.now ≡ 0) × (at + 435 * (length table.now / 512) ≤ length out.old) }
    ensures { Wrote out.old at (stations_text (nodes table.now)) result out.new × (result ≤ at + 435 * (length table.now / 512)) }
{
    let mut end = at;
    for k in 0..table.len() / 512 {
        end = put_line(out, end, block_at(table, k));
    }
    end
}

// The first line, and the lines of the stations where the answer prints them.
fn put_listing(out: &mut [u8], answer: Answered, done: u32, stations: u32, table: &[u8]) -> usize
    requires in_bounds { 40000 ≤ length out.old }
    requires table_value { prints_stations (answer_number answer) ≡ true → fault_of table.now ≡ 0 }
    ensures { Wrote out.old 0 (listing_text answer done stations (nodes table.now)) result out.new }
{
    let end = put_head(out, answer, done, stations);
    if prints_stations(answer_number(answer)) {
        return put_lines(out, end, table);
    }
    end
}

// The listing of a run's answer, its two counts and the table that it left. Where the stations are printed that table has no fault, and
// so at most 64 blocks; else it plays no part. The amount filled is returned; room past it is not touched.
pub fn write_listing(
    out: &mut [u8],
    answer: Answered,
    done: u32,
    stations: u32,
    table: &[u8],
) -> usize
    requires in_bounds { 40000 ≤ length out.old }
    requires table_value { prints_stations (answer_number answer) ≡ true → fault_of table.now ≡ 0 }
    ensures value { (result ≡ length (listing_text answer done stations (nodes table.now))) × (out.new ≡ listing_text answer done stations (nodes table.now) ++ drop result out.old) }
    ensures upper_bound { (result ≤ length out.new) × (result ≡ length (take result out.new)) }
{
    put_listing(out, answer, done, stations, table)
}
