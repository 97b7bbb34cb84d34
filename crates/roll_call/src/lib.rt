// The roll call: the leave question about up to 64 stations at once, a record for each (document 02, T-03).
#![tactic(auto)]

ghost use Rattle.std.specs.Prelude.{◌≡◌, ◌≤◌, length, take};
ghost use Rattle.filling.specs.Filled.{filled_as};
ghost use Rattle.rolls.specs.Roll.{Kept, record_in};
ghost use Rattle.roll_call.specs.RollCall.{Rolls, gate_of, called, roll_call};

use arrays::read_counts;
use filling::Filled;
use leave::records::LeaveRecord;
use line::Fault;
use mentions::count_mentions;
use rolls::{Roll, fill};
use table::inspect;

// What an accepted table says of its stations, for all questions at once.
fn read_roll(table: &[u8]) -> Result<Roll, Fault>
    ensures { Rolls table.now result }
{
    let index = inspect(table)?;
    let count = table.len() / 512;
    let messages = read_counts(table);
    let mut mentions = [0u32; 64];
    let mut smallest = [u32::MAX; 64];
    count_mentions(
        table,
        &index[..count],
        &mut mentions[..count],
        &mut smallest[..count],
    );
    Ok(Roll {
        count,
        index,
        messages,
        mentions,
        smallest,
    })
}

// Of an accepted table: "then 17 for more than 64 questions, then 9 for a list shorter than the questions."
#[tactic(auto, unfolding(crate::specs::RollCall::gate_of))]
fn gate(stations: usize, records: usize) -> Filled
    ensures { result ≡ gate_of 0 stations records }
{
    if 64 < stations {
        return Filled::refused(Fault::TooMuch);
    }
    if records < stations {
        return Filled::refused(Fault::ShortRoom);
    }
    Filled {
        answer: 0,
        filled: stations as u32,
    }
}

// The questions that are answered: all of them, or none beside a refusal.
fn answered(stations: &[u32], filled: Filled) -> &[u32]
    requires { filled.filled ≤ length stations.now }
    ensures { result.now ≡ take filled.filled stations.now }
{
    &stations[..filled.filled as usize]
}

// The roll call over the roll of an accepted table. There is no branch here: beside a refusal no question is answered, and so nothing is filled.
fn call(roll: Roll, stations: &[u32], records: &mut [LeaveRecord]) -> Filled
    requires { Kept roll }
    ensures { filled_as result records.new ≡ called (record_in roll) stations.now records.old }
{
    let filled = gate(stations.len(), records.len());
    let asked = answered(stations, filled);
    fill(roll, asked, records);
    filled
}

// The roll call: "It refuses with 1 to 7", then as the roll says.
pub fn roll_call(table: &[u8], stations: &[u32], records: &mut [LeaveRecord]) -> Filled
    ensures { filled_as result records.new ≡ roll_call table.now stations.now records.old }
{
    match read_roll(table) {
        Ok(roll) => call(roll, stations, records),
        Err(fault) => Filled::refused(fault),
    }
}
