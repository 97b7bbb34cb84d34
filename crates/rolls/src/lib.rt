// A roll: what a table says of its stations in arrays, and a lent list of records filled from it, one for each question (document 02, T-03;
// document 01, "The form each place needs": a slice of small answer structs).
#![tactic(auto)]

ghost use Rattle.std.specs.Prelude.{◌≡◌, ◌++◌, map, ◌<◌, ◌≤◌, length, get_or, drop};
ghost use Rattle.line.specs.Answer.{refused_number, numbered};
ghost use Rattle.rolls.specs.Roll.{Kept, leave_counted, told_in, record_in};

use index::lookup;
use leave::records::{LeaveRecord, leave_as};
use line::{Leave, Reason, Refusal, Refused};

// Of an accepted table the index of its `count` stations by rising number; how many messages the station of each slot has; and by place in the
// index how often others mention a station, and the smallest that does.
#[derive(Clone, Copy)]
pub struct Roll {
    pub count: usize,
    pub index: [u64; 64],
    pub messages: [usize; 64],
    pub mentions: [u32; 64],
    pub smallest: [u32; 64],
}

// Whether a station with so many messages may leave, and what holds it: so many mentions by others, of whom this one is the smallest. "The bag
// is looked at first" (document 02, T-02).
fn leave_counted(messages: usize, mentions: u32, smallest: u32) -> Leave
    ensures { result ≡ leave_counted messages mentions smallest }
{
    if messages != 0 {
        return Err(Reason::OwnBag);
    }
    if mentions == 0 {
        return Ok(());
    }
    Err(Reason::HeldBy(smallest))
}

// "An unknown number gets 11 in its own record only."
#[tactic(auto, unfolding(crate::specs::Roll::told_at, crate::specs::Roll::leave_in))]
fn ask(roll: &Roll, station: u32) -> Result<Leave, Refused>
    requires { Kept roll.now }
    ensures { numbered refused_number result ≡ told_in roll.now station }
{
    let i = lookup(&roll.index[..roll.count], station);
    if roll.count <= i {
        return Err(Refused::Step(Refusal::Absent));
    }
    let slot = (roll.index[i] % 64) as usize;
    Ok(leave_counted(roll.messages[slot], roll.mentions[i], roll.smallest[i]))
}

// The record of one question.
fn record(roll: &Roll, station: u32) -> LeaveRecord
    requires { Kept roll.now }
    ensures { result ≡ record_in roll.now station }
{
    leave_as(ask(roll, station).map_err(Refused::number))
}

// "one record per question", in the order of the questions; the records past them stay.
pub fn fill(roll: Roll, stations: &[u32], records: &mut [LeaveRecord])
    requires { Kept roll × (length stations.now ≤ length records.old) }
    ensures { records.new ≡ map (record_in roll) stations.now ++ drop (length stations.now) records.old }
{
    for (i, station) in stations.iter().enumerate() {
        records[i] = record(&roll, *station);
    }
}
