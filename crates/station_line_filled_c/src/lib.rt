// Exports the functions of `station_line_filled` to C, each under its name and with its clauses.
#![tactic(auto)]

ghost use Rattle.std.specs.Prelude.{◌≡◌};
ghost use Rattle.filling.specs.Filled.{filled_as};
ghost use Rattle.next_steps.specs.Allowed.{allowed_in};
ghost use Rattle.roll_call.specs.RollCall.{roll_call};

use filling::Filled;
use leave::records::LeaveRecord;

#[unsafe(no_mangle)]
pub extern "C" fn station_line_allowed(table: &[u8], room: &mut [u8]) -> Filled
    ensures { filled_as result room.new ≡ allowed_in table.now room.old }
{
    station_line_filled::station_line_allowed(table, room)
}

#[unsafe(no_mangle)]
pub extern "C" fn station_line_roll_call(
    table: &[u8],
    stations: &[u32],
    records: &mut [LeaveRecord],
) -> Filled
    ensures { filled_as result records.new ≡ roll_call table.now stations.now records.old }
{
    station_line_filled::station_line_roll_call(table, stations, records)
}
