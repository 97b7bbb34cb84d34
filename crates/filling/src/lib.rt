// A lent room that is filled: the answer of every function that does so, and the last part of its work where the room is one of bytes
// (document 01, "The numbers a crew may see").
#![tactic(auto)]

ghost use Rattle.std.specs.Prelude.{◌≡◌};
ghost use Rattle.filling.specs.Filled.{refused, filled_with, filled_as};

use line::Fault;
use words::put_word;

// The number, and the amount filled; beside any number but 0 it is 0. So it is handed over in C.
#[repr(C)]
#[derive(Clone, Copy)]
pub struct Filled {
    pub answer: u32,
    pub filled: u32,
}

impl Filled {
    // What is refused: nothing is filled.
    pub fn refused(fault: Fault) -> Filled
        ensures { result ≡ refused fault }
    {
        Filled {
            answer: fault.number(),
            filled: 0,
        }
    }
}

// The bytes of an amount n begin the room, where they fit; the room is written only where all of them do.
pub fn fill(room: &mut [u8], bytes: &[u8], n: u32) -> Filled
    ensures { filled_as result room.new ≡ filled_with n bytes.now room.old }
{
    if room.len() < bytes.len() {
        return Filled::refused(Fault::ShortRoom);
    }
    put_word(room, 0, bytes);
    Filled {
        answer: 0,
        filled: n,
    }
}
