// The list of every step that may happen next (document 02, T-01).
#![tactic(auto)]

mod bags;
mod judging;
mod stations;

ghost use Rattle.std.specs.Prelude.{◌≡◌, ◌≤◌, length};
ghost use Rattle.steps.specs.Steps.{list_bytes};
ghost use Rattle.table.specs.Fault.{fault_of};
ghost use Rattle.table.specs.Index.{index_of};
ghost use Rattle.words.specs.Writing.{Wrote};
ghost use Rattle.filling.specs.Filled.{filled_as};
ghost use Rattle.next_steps.specs.Allowed.{allowed_steps, allowed_in};

use arrays::read_counts;
use filling::{Filled, fill};
use stations::put_station;
use table::inspect;

// The records of all stations, by rising number: at most 2,112 of 12 bytes.
fn put_list(out: &mut [u8], table: &[u8], index: &[u64]) -> usize
    requires { (fault_of table.now ≡ 0) × (index.now ≡ index_of table.now) × (25344 ≤ length out.old) }
    ensures { Wrote out.old 0 (list_bytes (allowed_steps table.now)) result out.new }
{
    let counts = read_counts(table);
    let mut end = 0;
    for i in 0..index.len() {
        end = put_station(out, end, table, index, &counts, i);
    }
    end
}

// Any bytes at all: the checks in the order of the numbers, then the list. It is made beside the room, which is written only where the whole
// of it fits.
pub fn allowed(table: &[u8], room: &mut [u8]) -> Filled
    ensures { filled_as result room.new ≡ allowed_in table.now room.old }
{
    let index = match inspect(table) {
        Ok(index) => index,
        Err(fault) => return Filled::refused(fault),
    };
    let n = table.len() / 512;
    let mut list = [0u8; 25344];
    let end = put_list(&mut list, table, &index[..n]);
    fill(room, &list[..end], (end / 12) as u32)
}
