// The C interface of the functions that fill a lent room or list (document 01, "The form each place needs": extern "C" on byte slices and
// numbers). They are compiled apart from the run: a function that both call would no longer be made part of the run's loop. Each function
// hands its call on and repeats the equality of what it calls. `station_line_filled_c` exports them.
#![tactic(auto)]

ghost use Rattle.std.specs.Prelude.{◌≡◌};
ghost use Rattle.filling.specs.Filled.{filled_as};
ghost use Rattle.next_steps.specs.Allowed.{allowed_in};
ghost use Rattle.roll_call.specs.RollCall.{roll_call};

use filling::Filled;
use leave::records::LeaveRecord;

pub fn station_line_allowed(table: &[u8], room: &mut [u8]) -> Filled
    ensures { filled_as result room.new ≡ allowed_in table.now room.old }
{
    allowed::allowed(table, room)
}

pub fn station_line_roll_call(table: &[u8], stations: &[u32], records: &mut [LeaveRecord]) -> Filled
    ensures { filled_as result records.new ≡ roll_call table.now stations.now records.old }
{
    roll_call::roll_call(table, stations, records)
}
