// The question whether a station may leave, and what holds it (document 01, "What the engine holds" and "The numbers a crew may see"; document
// 02, T-02).
#![tactic(auto)]

pub mod holders;
pub mod records;

ghost use Rattle.std.specs.Prelude.{◌≡◌, ◌<◌, length, get_or};
ghost use Rattle.line.specs.Answer.{refusal_number, refused_number, numbered};
ghost use Rattle.line.specs.Node.{nobody};
ghost use Rattle.line.specs.Leave.{leave_of};
ghost use Rattle.line.specs.Step.{find};
ghost use Rattle.table.specs.Blocks.{line_of};
ghost use Rattle.table.specs.Fault.{fault_of};
ghost use Rattle.table.specs.Index.{index_of};
ghost use Rattle.leave.specs.Leave.{leave_at, may_leave};

use holders::first_holder;
use index::lookup;
use line::{Leave, Reason, Refusal, Refused};
use moves::holders::leave_from;
use octets::word_at;
use table::{block_at, inspect, number_at};

// What the question answers in numbers: that of a refusal, any number that a caller has, or at 0 whether the station may leave, and what holds it.
pub type LeaveTold = Result<Leave, u32>;

// Of an accepted table and its index: whether the station at place i may leave. "The bag is looked at first"; then who holds it is sought by
// rising station number.
pub fn leave_at(table: &[u8], index: &[u64], i: usize) -> Leave
    requires { (fault_of table.now ≡ 0) × (index.now ≡ index_of table.now) × (i < length index.now) }
    ensures { result ≡ leave_of (line_of table.now) (get_or (line_of table.now) i nobody) }
{
    let own = (index[i] % 64) as usize;
    let count = word_at(block_at(table, own), 16) as usize;
    if count != 0 {
        return Err(Reason::OwnBag);
    }
    let j = first_holder(table, index, number_at(table, own));
    leave_from(index, count, j)
}

// "the leave question then looks for the station (11)", "leaving mark or not".
fn leave_of(table: &[u8], index: &[u64], station: u32) -> Result<Leave, Refusal>
    requires { (fault_of table.now ≡ 0) × (index.now ≡ index_of table.now) }
    ensures { numbered refusal_number result ≡ leave_at (line_of table.now) (find station (line_of table.now)) }
{
    let i = lookup(index, station);
    if index.len() <= i {
        return Err(Refusal::Absent);
    }
    Ok(leave_at(table, index, i))
}

// Whether a station may leave, and what holds it.
pub fn may_leave(table: &[u8], station: u32) -> Result<Leave, Refused>
    ensures { numbered refused_number result ≡ may_leave table.now station }
{
    let index = inspect(table)?;
    let n = table.len() / 512;
    Ok(leave_of(table, &index[..n], station)?)
}
