// What a question answers in numbers, and the question whether a table is in line (document 01, "What the engine holds" and "The numbers a crew may
// see"; document 02, T-04): "A question checks the table first (1 to 7)", and "At 0 a question returns yes or no as well".
#![tactic(auto)]

mod settled;

ghost use Rattle.std.specs.Prelude.{◌≡◌, ◌&&◌, drop};
ghost use Rattle.line.specs.Answer.{fault_number, numbered};
ghost use Rattle.line.specs.InLine.{is_same, first, neighbours_in_line, in_line};
ghost use Rattle.table.specs.Blocks.{line_of};
ghost use Rattle.table.specs.Fault.{fault_of};
ghost use Rattle.table.specs.Index.{index_of};
ghost use Rattle.questions.specs.Told.{told_number, told_yes, is_in_line};

use block::station_of;
use line::{Fault, Neighbour, Station};
use settled::all_settled;
use table::{block_at, inspect, number_at};

// What a question answers in numbers: that of a refusal, any number that a caller has, or at 0 yes or no.
pub type Told = Result<bool, u32>;

// The number a crew sees of a question's answer: 0 beside yes and no.
pub fn told_number(told: Told) -> u32
    ensures { result ≡ told_number told }
{
    match told {
        Ok(_) => 0,
        Err(number) => number,
    }
}

// The value a crew sees: 1 for yes, 0 for no and beside a refusal.
pub fn told_yes(told: Told) -> u32
    ensures { result ≡ told_yes told }
{
    match told {
        Ok(true) => 1,
        Ok(false) => 0,
        Err(_) => 0,
    }
}

// "each station's left is the next smaller station present, none for the smallest, and likewise its right."
#[tactic(auto, unfolding(line::specs::InLine::is_same))]
fn stands(s: Station, before: Neighbour, after: Neighbour) -> bool
    ensures { result ≡ (is_same s.left before && is_same s.right after) }
{
    s.left == before && s.right == after
}

// The station at place i of the index as a neighbour; none behind the last place.
fn present(table: &[u8], index: &[u64], i: usize) -> Neighbour
    requires table_value { fault_of table.now ≡ 0 }
    requires index_value { index.now ≡ index_of table.now }
    ensures { result ≡ first (drop i (line_of table.now)) }
{
    match index.get(i) {
        Some(entry) => Some(number_at(table, (*entry % 64) as usize)),
        None => None,
    }
}

// Of an accepted table and its index: whether each station stands between the station before it and the station after it.
fn all_stand(table: &[u8], index: &[u64]) -> bool
    requires table_value { fault_of table.now ≡ 0 }
    requires index_value { index.now ≡ index_of table.now }
    ensures { result ≡ neighbours_in_line (line_of table.now) }
{
    let mut before = None;
    for (i, entry) in index.iter().enumerate() {
        let k = (*entry % 64) as usize;
        let s = station_of(block_at(table, k));
        if !stands(s, before, present(table, index, i + 1)) {
            return false;
        }
        before = Some(s.number);
    }
    true
}

// Of an accepted table and its index: whether it is in line. "the neighbours are as before, no bag holds a remove-left or remove-right, and no
// station is leaving."
#[tactic(auto, unfolding(line::specs::InLine::in_line))]
fn lasts(table: &[u8], index: &[u64]) -> bool
    requires table_value { fault_of table.now ≡ 0 }
    requires index_value { index.now ≡ index_of table.now }
    ensures { result ≡ in_line (line_of table.now) }
{
    all_stand(table, index) && all_settled(table, index)
}

// Whether the table is in line.
pub fn in_line(table: &[u8]) -> Result<bool, Fault>
    ensures { numbered fault_number result ≡ is_in_line table.now }
{
    let index = inspect(table)?;
    let n = table.len() / 512;
    Ok(lasts(table, &index[..n]))
}
