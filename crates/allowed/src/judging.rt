// Whether a run would accept a step as its first: asked by the functions that the run asks (document 01, "What a step does at station p").
ghost use Rattle.std.specs.Prelude.{◌≡◌};
ghost use Rattle.table.specs.Blocks.{line_of};
ghost use Rattle.next_steps.specs.Allowed.{step_by, is_allowed};
ghost use Rattle.allowed.specs.Parts.{node_at, Asked};

use block::station_of;
use line::{Action, Leave};
use moves::sends::plan;
use table::block_at;

// A step of the station at place i: what it decides, and whether those who receive have room. leave says whether it may leave, and found
// whether its bag holds the message of a delivery.
pub(crate) fn is_allowed(
    table: &[u8],
    index: &[u64],
    counts: &[usize; 64],
    i: usize,
    leave: Leave,
    found: bool,
    action: Action,
) -> bool
    requires { Asked table.now index.now counts.now i leave found action }
    ensures { result ≡ is_allowed (line_of table.now) (step_by (node_at table.now i) action) }
{
    let own = (index[i] % 64) as usize;
    let station = station_of(block_at(table, own));
    plan(index, counts, i, leave, found, station, action).is_ok()
}
