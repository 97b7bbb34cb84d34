// What the programs over files of cases share: a file is read part by part, each part after its length, a room is filled with one byte, and
// it is told whether it still holds nothing else.
#![tactic(auto)]

ghost use Rattle.std.specs.Prelude.{◌≡◌, ◌^◌, ◌<◌, length, All, IfOk, IfSome};
ghost use Rattle.std.specs.Io.{ReadsAtMost};

use std::io;
use std::io::Read;

// Every byte becomes 165.
pub fn fill(room: &mut [u8]) {
    room.fill(165);
}

// Whether every byte of a part is 165. There is no early return, so that the bytes are tested together, many at a time.
fn part_is_kept(part: &[u8]) -> bool {
    let mut kept = true;
    for byte in part {
        kept &= *byte == 165;
    }
    kept
}

// Whether every byte is 165; the first part that is not ends it.
fn is_kept(rest: &[u8]) -> bool {
    rest.chunks(256).all(part_is_kept)
}

// Reads until the room is full or the file ends, and returns how many bytes were put at the front of the room. No index is counted here: each
// turn moves on by what the read gave, so the loop stays a `while`.
pub fn read_full<R: Read>(file: &mut R, room: &mut [u8]) -> io::Result<usize>
    ensures at_most { ReadsAtMost result room.new }
    ensures size { length room.new ≡ length room.old }
{
    let mut done = 0;
    while done < room.len() {
        let n = file.read(&mut room[done..])?;
        if n == 0 {
            break;
        }
        done += n;
    }
    Ok(done)
}

// Reads n bytes into the front of the room; how many there were is returned, 0 where n is more than the room has.
pub fn read_part<R: Read>(file: &mut R, room: &mut [u8], n: usize) -> io::Result<usize>
    ensures at_most { ReadsAtMost result room.new }
    ensures size { length room.new ≡ length room.old }
{
    if room.len() < n {
        return Ok(0);
    }
    read_full(file, &mut room[..n])
}

// The next N lengths, of four bytes each; none where the file ends before.
pub fn read_lengths<const N: usize>(file: &mut impl Read) -> io::Result<Option<[usize; N]>>
    ensures { IfOk result (λ found. IfSome found (λ lengths. All (λ n. n < 2 ^ 32) lengths)) }
{
    let mut lengths = [0; N];
    for length in &mut lengths {
        let mut bytes = [0u8; 4];
        if read_full(file, &mut bytes)? != 4 {
            return Ok(None);
        }
        *length = u32::from_le_bytes(bytes) as usize;
    }
    Ok(Some(lengths))
}

// The line with a case's place in the file.
pub fn print_place(rt: &impl Print, place: u64) -> io::Result<()> {
    println!(rt; "case {place}")
}

// Whether the bytes past what was written are as they were.
pub fn print_rest(rt: &impl Print, rest: &[u8]) -> io::Result<()> {
    if is_kept(rest) {
        return println!(rt; "rest kept");
    }
    println!(rt; "rest changed")
}
