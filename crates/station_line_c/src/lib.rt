// Exports the functions of `station_line` to C, each under its name and with its clauses.
#![tactic(auto)]

ghost use Rattle.std.specs.Prelude.{◌≡◌};
ghost use Rattle.table.specs.Fault.{fault_of};
ghost use Rattle.engine.specs.Ran.{outcome};
ghost use Rattle.leave.specs.Leave.{leave_as, may_leave};
ghost use Rattle.questions.specs.Told.{is_in_line};
ghost use Rattle.view.specs.View.{viewed};
ghost use Rattle.station_line.specs.Interface.{ran_as, told_as, viewed_as};

use leave::records::LeaveRecord;
use station_line::{StationLineRan, StationLineTold, StationLineViewed};

#[unsafe(no_mangle)]
pub extern "C" fn station_line_check(table: &[u8]) -> u32
    ensures { result ≡ fault_of table.now }
{
    station_line::station_line_check(table)
}

#[unsafe(no_mangle)]
pub extern "C" fn station_line_run(table: &[u8], steps: &[u8], room: &mut [u8]) -> StationLineRan
    ensures { (result ≡ ran_as (outcome table.now steps.now room.old)) × (room.new ≡ (outcome table.now steps.now room.old).room) }
{
    station_line::station_line_run(table, steps, room)
}

#[unsafe(no_mangle)]
pub extern "C" fn station_line_may_leave(table: &[u8], station: u32) -> LeaveRecord
    ensures { result ≡ leave_as (may_leave table.now station) }
{
    station_line::station_line_may_leave(table, station)
}

#[unsafe(no_mangle)]
pub extern "C" fn station_line_in_line(table: &[u8]) -> StationLineTold
    ensures { result ≡ told_as (is_in_line table.now) }
{
    station_line::station_line_in_line(table)
}

#[unsafe(no_mangle)]
pub extern "C" fn station_line_view(table: &[u8], position: usize) -> StationLineViewed
    ensures { result ≡ viewed_as (viewed table.now position) }
{
    station_line::station_line_view(table, position)
}
