// A file read into a buffer. No contract can say which bytes a file has; these say how much of the buffer was filled.
ghost use Rattle.std.specs.Prelude.{IfSome};
ghost use Rattle.printing.specs.Counts.{IsPrefixLen};

use std::io::Read;
use std::rt::Files;
use std::{fs, str};

// Reads until the buffer is full or the file ends, and returns how many bytes were read; none where a read fails. No index is counted here:
// each turn moves on by what the read gave, so the loop stays a `while`.
fn read_whole<R: Read>(file: &mut R, buf: &mut [u8]) -> Option<usize>
    ensures { IfSome result (λ n. IsPrefixLen n buf.new) }
{
    let mut done: usize = 0;
    while done < buf.len() {
        let n = file.read(&mut buf[done..]).ok()?;
        if n == 0 {
            break;
        }
        done += n;
    }
    Some(done)
}

// How many bytes were read of a file: all, or as many as the buffer holds. None where it cannot be opened, as where its path is no text, or
// cannot be read, as a directory, which opens.
pub fn read_file(rt: &impl Files, path: &[u8], buf: &mut [u8]) -> Option<usize>
    ensures { IfSome result (λ n. IsPrefixLen n buf.new) }
{
    let path = str::from_utf8(path).ok()?;
    let mut file = fs::open(rt, path).ok()?;
    read_whole(&mut file, buf)
}
