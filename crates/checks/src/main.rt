// The check over tables that are damaged in every way: the file cases.bin holds tables, each after its length in four bytes, and a
// line is printed for each, its place in the file and the number that the check gives it.
#![tactic(auto)]

use cases::{read_full, read_lengths};
use std::fs::File;
use std::io;
use std::io::Read;

// Checks the next table, which is read into the room, and answers whether there was one.
fn check_next(
    rt: &impl Print,
    file: &mut impl Read,
    room: &mut [u8],
    place: u64,
) -> io::Result<bool> {
    let Some(lengths) = read_lengths::<1>(file)? else {
        return Ok(false);
    };
    let [n] = lengths;
    if room.len() < n {
        return Ok(false);
    }
    let got = read_full(file, &mut room[..n])?;
    let number = line::checked_number(table::check(&room[..n]));
    println!(rt; "{place} {number}")?;
    Ok(got == n)
}

fn main(rt: HostRuntime) -> io::Result<()> {
    let mut file = File::open(&rt, "cases.bin")?;
    let mut room = [0u8; 40960];
    for place in 1..=1000 {
        if !check_next(&rt, &mut file, &mut room, place)? {
            break;
        }
    }
    Ok(())
}
