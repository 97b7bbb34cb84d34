// How a run over an accepted table ends (document 01, "The whole run" and "The numbers a crew may see", 0 and 10 to 15).
#![tactic(auto)]

ghost use Rattle.std.specs.Prelude.{◌≡◌, ◌*◌, ◌≤◌, length};
ghost use Rattle.arrays.specs.Arrays.{line_in};
ghost use Rattle.finishing.specs.Ended.{ended_with, said};

use arrays::Arrays;
use line::{Ending, Refused};

// What a run returns: its answer, the steps done and the stations now.
#[derive(Clone, Copy)]
pub struct Ran {
    pub answer: Result<(), Refused>,
    pub done: u32,
    pub stations: u32,
}

// How the run ended, after k steps, and the line that they left, written to the room.
pub fn finish(room: &mut [u8], arrays: &Arrays, k: usize, ending: Ending) -> Ran
    requires n_bound { (arrays.now.n ≤ 64) × (512 * arrays.now.n ≤ length room.old) × (k ≤ 4096) }
    requires counts_len { length (line_in arrays.now) ≡ arrays.now.n }
    ensures { said result room.new ≡ ended_with (record { ending = ending; steps = k; line = line_in arrays.now }) room.old }
{
    arrays.write_line(room);
    Ran {
        answer: ending.map_err(Refused::Step),
        done: k as u32,
        stations: arrays.n as u32,
    }
}
