// What may happen next, listed over tables (tests/first_steps.py makes them). The file cases.bin holds cases: the lengths of a table and of
// a room in four bytes each, then the table. For each case its place in the file is printed, the answer and the amount filled, a line for
// each step with its four numbers as they stand in the bytes (action, kind, station, number), and whether the room past the list is as
// it was.
#![tactic(auto)]

ghost use Rattle.std.specs.Prelude.{◌≡◌, ◌+◌, ◌≤◌, length, IfOk};

use allowed::allowed;
use cases::{fill, print_place, print_rest, read_lengths, read_part};
use octets::{quad_at, word_at};
use std::fs::File;
use std::io;
use std::io::Read;

// The line with the answer and the amount filled.
fn print_answer(rt: &impl Print, answer: u32, filled: u32) -> io::Result<()> {
    println!(rt; "answer {answer} filled {filled}")
}

// The line of a step.
fn print_step(rt: &impl Print, step: &[u8]) -> io::Result<()>
    requires { 12 ≤ length step.now }
{
    let action = word_at(step, 0);
    let kind = word_at(step, 2);
    let station = quad_at(step, 4);
    let number = quad_at(step, 8);
    println!(rt; "{action} {kind} {station} {number}")
}

// The lines of all steps.
fn print_steps(rt: &impl Print, list: &[u8]) -> io::Result<()> {
    for step in list.chunks_exact(12) {
        print_step(rt, step)?;
    }
    Ok(())
}

// Lists what may happen next and prints it; how much of the room the list takes is returned.
fn print_allowed(rt: &impl Print, table: &[u8], room: &mut [u8]) -> io::Result<usize>
    ensures at_most { IfOk result (λ n. n ≤ length room.new) }
    ensures size { length room.new ≡ length room.old }
{
    let listed = allowed(table, room);
    let size = 12 * (listed.filled as usize);
    print_answer(rt, listed.answer, listed.filled)?;
    print_steps(rt, &room[..size])?;
    Ok(size)
}

// One case, in a room of n bytes that the list gets. What lies behind them is compared as well.
fn print_case(rt: &impl Print, table: &[u8], room: &mut [u8], n: usize) -> io::Result<()>
    requires { n ≤ length room.old }
{
    fill(room);
    let size = print_allowed(rt, table, &mut room[..n])?;
    print_rest(rt, &room[size..])
}

// Reads the next case and prints it; the answer is whether there was one.
fn next_case(
    rt: &impl Print,
    file: &mut impl Read,
    table: &mut [u8],
    room: &mut [u8],
    place: u64,
) -> io::Result<bool> {
    let Some(lengths) = read_lengths::<2>(file)? else {
        return Ok(false);
    };
    let [table_length, room_length] = lengths;
    if room.len() < room_length {
        return Ok(false);
    }
    let n = read_part(file, table, table_length)?;
    if n != table_length {
        return Ok(false);
    }
    print_place(rt, place)?;
    print_case(rt, &table[..n], room, room_length)?;
    Ok(true)
}

fn main(rt: HostRuntime) -> io::Result<()> {
    let mut file = File::open(&rt, "cases.bin")?;
    let mut table = [0u8; 33280];
    let mut room = [0u8; 40000];
    for place in 1..=1000 {
        if !next_case(&rt, &mut file, &mut table, &mut room, place)? {
            break;
        }
    }
    Ok(())
}
