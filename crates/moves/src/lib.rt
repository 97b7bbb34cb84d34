// The parts of a step over the arrays of a run (document 01, "What a step does at station p").
#![tactic(auto)]

pub mod holders;
pub mod sends;

use rules::Decision;

// A step that is not refused, worked out before anything is stored: what the station decides, and the slots of those who receive.
#[derive(Clone, Copy)]
pub struct Plan {
    pub decision: Decision,
    pub first: usize,
    pub second: usize,
}
