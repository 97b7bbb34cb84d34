// The program that runs a list (document 01, "The printed listing" and 16 of "The numbers a crew may see"). What it prints of two files is
// `list_files`, which is proved; around it `print_listing` reads and writes.
#![tactic(auto)]

mod files;

ghost use Rattle.std.specs.Prelude.{◌≡◌, ◌≤◌, length};
ghost use Rattle.engine.specs.Ran.{outcome};
ghost use Rattle.printing.specs.Counts.{IsPrefixLen};
ghost use Rattle.printing.specs.Printed.{printed, Prints};
ghost use Rattle.printing.specs.Program.{files_hold, program_room, program_text};

use engine::run;
use files::read_file;
use line::{Fault, told};
use std::io;
use std::rt::Files;
use text::write_listing;

// "over 32,768 (table) or 49,152 (steps) bytes"
const TABLE_LIMIT: usize = 32768;

const STEPS_LIMIT: usize = 49152;

// Whether both files can be read and neither is over its limit.
fn files_hold(table_read: bool, table: &[u8], steps_read: bool, steps: &[u8]) -> bool
    ensures { result ≡ files_hold (record { is_read = table_read; bytes = table.now }) (record { is_read = steps_read; bytes = steps.now }) }
{
    (table_read & (table.len() <= TABLE_LIMIT)) & (steps_read & (steps.len() <= STEPS_LIMIT))
}

// The listing of a run in a room that no table let in is too long for.
fn list_run(table: &[u8], steps: &[u8], out: &mut [u8]) -> usize
    requires { 40000 ≤ length out.old }
    ensures prints { Prints (printed (outcome table.now steps.now program_room)) out.old result out.new }
    ensures prefix_len { IsPrefixLen result out.new }
{
    let mut room = [0u8; TABLE_LIMIT];
    let ran = run(table, steps, &mut room);
    let end = 512 * (ran.stations as usize);
    let answer = told(ran.answer);
    write_listing(out, answer, ran.done, ran.stations, &room[..end])
}

// All that the program prints of its two files, from the start of `out`: of each, whether it could be read and the bytes that were read,
// one more than its limit where it has more. How many bytes are printed is returned; those past them are not touched.
pub fn list_files(
    table_read: bool,
    table: &[u8],
    steps_read: bool,
    steps: &[u8],
    out: &mut [u8; 40000],
) -> usize
    ensures prints { Prints (program_text (record { is_read = table_read; bytes = table.now }) (record { is_read = steps_read; bytes = steps.now })) out.old result out.new }
    ensures prefix_len { IsPrefixLen result out.new }
{
    if files_hold(table_read, table, steps_read, steps) {
        return list_run(table, steps, out);
    }
    write_listing(out, Err(Fault::BadFile.number()), 0, 0, table)
}

// Reads the two files, each up to one byte over its limit, and prints their listing. A listing that cannot be written is an error; a file
// that cannot be read is none, since the listing tells of it.
pub fn print_listing(
    rt: &(impl Files + Print),
    table_path: &[u8],
    steps_path: &[u8],
) -> io::Result<()> {
    let mut table = [0u8; TABLE_LIMIT + 1];
    let mut steps = [0u8; STEPS_LIMIT + 1];
    let t = read_file(rt, table_path, &mut table);
    let s = read_file(rt, steps_path, &mut steps);
    let mut out = [0u8; 40000];
    let n = list_files(
        t.is_some(),
        &table[..t.unwrap_or(0)],
        s.is_some(),
        &steps[..s.unwrap_or(0)],
        &mut out,
    );
    rt.write_all(&out[..n])
}
