// Step lists run over tables, the thirteen situations of document 01 among them (tests/situations.py makes them). The file cases.bin
// holds cases: the lengths of a table, of a step list and of a room in four bytes each, then the table and the step list. For each case
// its place in the file is printed, the listing of its run, and whether the room past the table written is as it was.
#![tactic(auto)]

ghost use Rattle.std.specs.Prelude.{◌≡◌, ◌≤◌, length, IfOk};

use cases::{fill, print_place, print_rest, read_lengths, read_part};
use engine::run;
use line::told;
use std::fs::File;
use std::io;
use std::io::Read;
use text::write_listing;

// Runs the list and prints the listing; how much of the room the table written takes is returned.
fn print_run(
    rt: &impl Print,
    table: &[u8],
    steps: &[u8],
    room: &mut [u8],
    out: &mut [u8],
) -> io::Result<usize>
    requires { 40000 ≤ length out.old }
    ensures at_most { IfOk result (λ n. n ≤ length room.new) }
    ensures size { length room.new ≡ length room.old }
{
    let ran = run(table, steps, room);
    let size = 512 * (ran.stations as usize);
    let answer = told(ran.answer);
    let end = write_listing(out, answer, ran.done, ran.stations, &room[..size]);
    rt.write_all(&out[..end])?;
    Ok(size)
}

// One case, in a room of n bytes that the run gets. What lies behind them is compared as well.
fn print_case(
    rt: &impl Print,
    table: &[u8],
    steps: &[u8],
    room: &mut [u8],
    n: usize,
    out: &mut [u8],
) -> io::Result<()>
    requires { (n ≤ length room.old) × (40000 ≤ length out.old) }
{
    fill(room);
    let size = print_run(rt, table, steps, &mut room[..n], out)?;
    print_rest(rt, &room[size..])
}

// Reads the next case and prints it; the answer is whether there was one.
fn next_case(
    rt: &impl Print,
    file: &mut impl Read,
    table: &mut [u8],
    steps: &mut [u8],
    room: &mut [u8],
    out: &mut [u8],
    place: u64,
) -> io::Result<bool>
    requires { 40000 ≤ length out.old }
{
    let Some(lengths) = read_lengths::<3>(file)? else {
        return Ok(false);
    };
    let [table_length, steps_length, room_length] = lengths;
    if room.len() < room_length {
        return Ok(false);
    }
    let a = read_part(file, table, table_length)?;
    if a != table_length {
        return Ok(false);
    }
    let b = read_part(file, steps, steps_length)?;
    if b != steps_length {
        return Ok(false);
    }
    print_place(rt, place)?;
    print_case(rt, &table[..a], &steps[..b], room, room_length, out)?;
    Ok(true)
}

fn main(rt: HostRuntime) -> io::Result<()> {
    let mut file = File::open(&rt, "cases.bin")?;
    let mut table = [0u8; 33280];
    let mut steps = [0u8; 49164];
    let mut room = [0u8; 40000];
    let mut out = [0u8; 40000];
    for place in 1..=1000 {
        if !next_case(
            &rt, &mut file, &mut table, &mut steps, &mut room, &mut out, place,
        )? {
            break;
        }
    }
    Ok(())
}
