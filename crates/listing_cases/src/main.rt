// What the listing program prints of many pairs of files (tests/listings.py makes them). The arguments name the files two by two, a table
// and a step list; their names are printed before each listing.
#![tactic(auto)]

ghost use Rattle.std.specs.Prelude.{◌≤◌, length, IfSome};

use std::env::{Env, FillError};
use std::io;
use std::rt::Files;

// The argument at a place, put at the front of the room: its length, 0 where the room is too short for it, and nothing where the arguments
// end before it.
fn name_at(rt: &impl Env, place: usize, room: &mut [u8]) -> Option<usize>
    ensures { IfSome result (λ n. n ≤ length room.new) }
{
    match rt.arg(place, room) {
        Ok(n) => Some(n),
        Err(FillError::TooLong) => Some(0),
        Err(FillError::NotPresent) => None,
    }
}

// The pair that stands at two places among the arguments; the answer is whether there was one.
fn print_case(rt: &(impl Env + Files + Print), first: usize, second: usize) -> io::Result<bool> {
    let mut table = [0u8; 64];
    let mut steps = [0u8; 64];
    let Some(t) = name_at(rt, first, &mut table) else {
        return Ok(false);
    };
    let s = name_at(rt, second, &mut steps).unwrap_or(0);
    print!(rt; "case ")?;
    rt.write_all(&table[..t])?;
    print!(rt; " ")?;
    rt.write_all(&steps[..s])?;
    println!(rt)?;
    printing::print_listing(rt, &table[..t], &steps[..s])?;
    Ok(true)
}

// The first argument is the program's own name, so that the pairs begin at the second.
fn main(rt: HostRuntime) -> io::Result<()> {
    for k in 0..usize::MAX / 2 {
        if !print_case(&rt, 2 * k + 1, 2 * k + 2)? {
            break;
        }
    }
    Ok(())
}
