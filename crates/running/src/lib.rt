// The loop of a run over an accepted table (document 01, "The whole run").
#![tactic(auto)]

ghost use Rattle.std.specs.Prelude.{◌≡◌, ◌/◌, ◌<◌, ◌≤◌, ◌&&◌, length, get_or};
ghost use Rattle.line.specs.Leave.{is_holder};
ghost use Rattle.index.specs.Index.{slot_in};
ghost use Rattle.table.specs.Fault.{fault_of};
ghost use Rattle.table.specs.Index.{index_array};
ghost use Rattle.arrays.specs.Arrays.{node_at};
ghost use Rattle.moves.specs.Holders.{may_hold};
ghost use Rattle.finishing.specs.Ended.{run_of, ended_with, said};

use arrays::Arrays;
use bag::Bag;
use finishing::{Ran, finish};
use index::{drop_entry, lookup};
use line::Refusal;
use moves::holders::{asked_of, is_holder, leave_from, may_hold};
use moves::sends::{bag_after, plan, put_in};
use steps::read_step;

// Whether the station at place j holds the one with this number. A bag is copied out only where it has to be looked at.
fn holds(arrays: &Arrays, j: usize, number: u32) -> bool
    requires { j < 64 }
    ensures { let slot = slot_in (get_or arrays.now.index j 0) in
        let other = node_at arrays.now slot in
        result ≡ (may_hold number other.station (get_or arrays.now.counts slot 0) && is_holder number other) }
{
    let slot = (arrays.index[j] % 64) as usize;
    let other = arrays.stations[slot];
    let count = arrays.counts[slot];
    may_hold(number, other, count)
        && is_holder(
            number,
            other,
            Bag {
                messages: arrays.bags[slot],
                count,
            },
        )
}

// The run over an accepted table, whose index the check has made. The arrays stay where they were read; the index says where the station of
// each place stands in them. What refuses a step is known before anything is stored, and a refused step ends the run.
pub fn run_accepted(table: &[u8], sorted: [u64; 64], steps: &[u8], room: &mut [u8]) -> Ran
    requires { (fault_of table.now ≡ 0) × (sorted ≡ index_array table.now) × (length steps.now / 12 ≤ 4096) × (length table.now ≤ length room.old) }
    ensures { said result room.new ≡ ended_with (run_of table.now steps.now) room.old }
{
    let mut arrays = Arrays::read(table, sorted);
    let total = steps.len() / 12;
    for k in 0..total {
        let Ok(step) = read_step(steps, k) else {
            return finish(room, &arrays, k, Err(Refusal::Malformed));
        };
        let i = lookup(&arrays.index[..arrays.n], step.station);
        if arrays.n <= i {
            return finish(room, &arrays, k, Err(Refusal::Absent));
        }
        let action = step.action;
        let own = (arrays.index[i] % 64) as usize;
        let station = arrays.stations[own];
        let count = arrays.counts[own];
        // NIDEC: an exit asks the stations by rising number, until one holds this one.
        let asked = asked_of(action, arrays.n);
        let j = (0..asked)
            .find(|j| holds(&arrays, *j, station.number))
            .unwrap_or(asked);
        let leave = leave_from(&arrays.index[..arrays.n], count, j);
        // The station's own bag, where a message is taken out of it; what the station does and who receives, or what refuses the step.
        let taken = bag_after(
            action,
            Bag {
                messages: arrays.bags[own],
                count,
            },
        );
        let plan = match plan(
            &arrays.index[..arrays.n],
            &arrays.counts,
            i,
            leave,
            taken.is_some(),
            station,
            action,
        ) {
            Ok(plan) => plan,
            Err(why) => return finish(room, &arrays, k, Err(why)),
        };
        // The station is stored, its own bag where a message was taken out of it, then each message where one is sent.
        let decision = plan.decision;
        arrays.stations[own] = decision.station;
        if let Some(bag) = taken {
            let row = bag.messages;
            arrays.bags[own] = row;
            arrays.counts[own] = bag.count;
        }
        if let Some(sending) = decision.sendings.first {
            let a = plan.first;
            let row = put_in(arrays.bags[a], &mut arrays.counts, a, sending.message);
            arrays.bags[a] = row;
        }
        if let Some(sending) = decision.sendings.second {
            let b = plan.second;
            let row = put_in(arrays.bags[b], &mut arrays.counts, b, sending.message);
            arrays.bags[b] = row;
        }
        // A station that goes leaves its place; no bag is moved.
        if decision.gone {
            let index = drop_entry(arrays.index, arrays.n, i);
            arrays.index = index;
            arrays.n -= 1;
        }
    }
    finish(room, &arrays, total, Ok(()))
}
