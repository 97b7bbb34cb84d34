// The C interface (document 01, "The form each place needs": extern "C" run, leave question and line question on byte slices and
// numbers), with the check and the view beside them. Each function hands its call on and repeats the equality of what it calls. A slice
// is a pointer and a length in C; the view has offsets in the place of references. `station_line_c` exports them.
#![tactic(auto)]

ghost use Rattle.std.specs.Prelude.{◌≡◌};
ghost use Rattle.table.specs.Fault.{fault_of};
ghost use Rattle.engine.specs.Ran.{outcome};
ghost use Rattle.leave.specs.Leave.{leave_as, may_leave};
ghost use Rattle.questions.specs.Told.{is_in_line};
ghost use Rattle.view.specs.View.{viewed};
ghost use Rattle.station_line.specs.Interface.{ran_as, told_as, viewed_as};

use engine::run;
use leave::may_leave;
use leave::records::{LeaveRecord, leave_as};
use line::{
    Fault, Refused, answer_number, answer_reason, carried_holder, carried_number, checked_number,
    told,
};
use questions::{Told, in_line, told_number, told_yes};
use table::check;
use view::{Looked, look};

// The number of a run, the steps done and the stations now, and at 14 what holds the station: 2 its own bag, 3 the station `holder`; beside
// any other number both are 0.
#[repr(C)]
#[derive(Clone, Copy)]
pub struct StationLineRan {
    pub answer: u32,
    pub done: u32,
    pub stations: u32,
    pub reason: u32,
    pub holder: u32,
}

// The number of a question, and 1 for yes; beside any number but 0 yes is 0.
#[repr(C)]
#[derive(Clone, Copy)]
pub struct StationLineTold {
    pub answer: u32,
    pub yes: u32,
}

// What a view of the table gives at a position: the check's number, 1 where there is a block, its offset in the table, and the next
// position.
#[repr(C)]
#[derive(Clone, Copy)]
pub struct StationLineViewed {
    pub answer: u32,
    pub has_block: u32,
    pub offset: usize,
    pub next: usize,
}

pub fn station_line_check(table: &[u8]) -> u32
    ensures { result ≡ fault_of table.now }
{
    checked_number(check(table))
}

#[tactic(auto, unfolding(crate::specs::Interface::ran_as))]
pub fn station_line_run(table: &[u8], steps: &[u8], room: &mut [u8]) -> StationLineRan
    ensures { (result ≡ ran_as (outcome table.now steps.now room.old)) × (room.new ≡ (outcome table.now steps.now room.old).room) }
{
    let ran = run(table, steps, room);
    let answer = told(ran.answer);
    let reason = answer_reason(answer);
    StationLineRan {
        answer: answer_number(answer),
        done: ran.done,
        stations: ran.stations,
        reason: carried_number(reason),
        holder: carried_holder(reason),
    }
}

// The number and the value of an answer.
fn told_as(told: Told) -> StationLineTold
    ensures { result ≡ told_as told }
{
    StationLineTold {
        answer: told_number(told),
        yes: told_yes(told),
    }
}

pub fn station_line_may_leave(table: &[u8], station: u32) -> LeaveRecord
    ensures { result ≡ leave_as (may_leave table.now station) }
{
    leave_as(may_leave(table, station).map_err(Refused::number))
}

pub fn station_line_in_line(table: &[u8]) -> StationLineTold
    ensures { result ≡ told_as (is_in_line table.now) }
{
    told_as(in_line(table).map_err(Fault::number))
}

// What is seen, with 1 for a block.
fn viewed_as(looked: Looked) -> StationLineViewed
    ensures { result ≡ viewed_as looked }
{
    StationLineViewed {
        answer: looked.answer,
        has_block: looked.found as u32,
        offset: looked.offset,
        next: looked.next,
    }
}

pub fn station_line_view(table: &[u8], position: usize) -> StationLineViewed
    ensures { result ≡ viewed_as (viewed table.now position) }
{
    viewed_as(look(table, position))
}
