// The run over any bytes (document 01, "The numbers a crew may see" and "The whole run").
#![tactic(auto)]

ghost use Rattle.std.specs.Prelude.{◌≡◌};
ghost use Rattle.finishing.specs.Ended.{said};
ghost use Rattle.engine.specs.Ran.{Begins, outcome};

use finishing::Ran;
use line::{Fault, Refused};
use running::run_accepted;
use table::inspect;

// What is refused before the first step, in the order of the numbers; of what is not, the index of the table.
fn begin(table: &[u8], steps: &[u8], room: &[u8]) -> Result<[u64; 64], Fault>
    ensures { Begins table.now steps.now room.now result }
{
    let index = inspect(table)?;
    if steps.len() % 12 != 0 {
        return Err(Fault::BadList);
    }
    if 4096 < steps.len() / 12 {
        return Err(Fault::BadList);
    }
    if room.len() < table.len() {
        return Err(Fault::ShortRoom);
    }
    Ok(index)
}

// Any bytes at all: the checks in the order of the numbers, then the steps.
pub fn run(table: &[u8], steps: &[u8], room: &mut [u8]) -> Ran
    ensures { said result room.new ≡ outcome table.now steps.now room.old }
{
    match begin(table, steps, room) {
        Ok(index) => run_accepted(table, index, steps, room),
        Err(fault) => Ran {
            answer: Err(Refused::Before(fault)),
            done: 0,
            stations: 0,
        },
    }
}
