// The view over stored tables, one accepted, with its blocks out of order, one that isn't, and the empty one (document 01, "The block"):
// prints the check's number, the station numbers of the blocks in stored order, and the end as often as it is asked.
#![tactic(auto)]

use cases::read_full;
use std::rt::Files;
use std::{fs, io};
use view::{advance, current, open_view};

// A number on a line of its own.
fn print_number(rt: &impl Print, number: u32) -> io::Result<()> {
    println!(rt; "{number}")
}

// The station number of a block, which stands in bytes 4 to 7; no bytes are the end.
fn print_block(rt: &impl Print, block: &[u8]) -> io::Result<()> {
    if block.len() < 8 {
        return println!(rt; "end");
    }
    print_number(rt, octets::quad_at(block, 4))
}

// The check's number, which the view has beside what it shows.
fn print_answer(rt: &impl Print, answer: u32) -> io::Result<()> {
    println!(rt; "number {answer}")
}

// Opens a view of a table, asks it so many times, and moves it on each time.
fn walk(rt: &impl Print, table: &[u8], times: u32) -> io::Result<()> {
    let mut view = open_view(table);
    print_answer(rt, view.answer)?;
    for _ in 0..times {
        print_block(rt, current(view))?;
        view = advance(view);
    }
    Ok(())
}

fn walk_file(rt: &(impl Files + Print), path: &str, times: u32) -> io::Result<()> {
    let mut file = fs::open(rt, path)?;
    let mut room = [0u8; 4096];
    let n = read_full(&mut file, &mut room)?;
    walk(rt, &room[..n], times)
}

fn main(rt: HostRuntime) -> io::Result<()> {
    walk_file(&rt, "accepted.bin", 7)?;
    walk_file(&rt, "refused.bin", 5)?;
    walk_file(&rt, "empty.bin", 2)
}
