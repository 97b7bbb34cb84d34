// The answer of the leave question as a record of numbers: so it is handed over in C, alone or in a list (document 02, T-02 and T-03).
ghost use Rattle.std.specs.Prelude.{◌≡◌};
ghost use Rattle.leave.specs.Leave.{leave_as};

use crate::LeaveTold;

// The number of the leave question, and at 0 whether the station may leave: 1 yes, 2 its own bag, 3 the station `holder`; beside any other
// number both are 0.
#[repr(C)]
#[derive(Clone, Copy)]
pub struct LeaveRecord {
    pub answer: u32,
    pub reason: u32,
    pub holder: u32,
}

// The number, the reason and the holder of an answer.
#[tactic(auto, unfolding(crate::specs::Leave::leave_as))]
pub fn leave_as(told: LeaveTold) -> LeaveRecord
    ensures { result ≡ leave_as told }
{
    match told {
        Err(number) => LeaveRecord {
            answer: number,
            reason: 0,
            holder: 0,
        },
        Ok(Ok(())) => LeaveRecord {
            answer: 0,
            reason: 1,
            holder: 0,
        },
        Ok(Err(why)) => LeaveRecord {
            answer: 0,
            reason: why.number(),
            holder: why.holder(),
        },
    }
}
