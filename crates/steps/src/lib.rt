// A step of 12 bytes, read and written (document 01, "The step list").
#![tactic(auto)]

ghost use Rattle.std.specs.Prelude.{◌≡◌, ◌++◌, ◌+◌, ◌*◌, ◌≤◌, length};
ghost use Rattle.fields.specs.Fields.{place_of};
ghost use Rattle.octets.specs.Bytes.{le16, le32, overwrite};
ghost use Rattle.steps.specs.Steps as spec;

use bag::{carried, kind};
use fields::{in_range, place_of};
use line::{Action, Refusal, Step};
use octets::{quad_at, word_at, write_quad, write_word};

fn malformed() -> Result<Step, Refusal>
    ensures { result ≡ spec.malformed }
{
    Err(Refusal::Malformed)
}

// A timeout or an exit, which carry no message.
fn plain(kind: u16, station: u32, number: u32, action: Action) -> Result<Step, Refusal>
    ensures { result ≡ spec.plain kind station number action }
{
    if kind != 0 || number != 0 {
        return malformed();
    }
    Ok(Step { station, action })
}

// A delivery: kind and number follow the rule of a message place.
fn delivery(kind: u16, station: u32, number: u32) -> Result<Step, Refusal>
    ensures { result ≡ spec.delivery station (place_of kind 0 number) }
{
    match place_of(kind, 0, number) {
        Some(message) => Ok(Step {
            station,
            action: Action::Deliver(message),
        }),
        None => malformed(),
    }
}

// A step of its four fields.
fn step_of(action: u16, kind: u16, station: u32, number: u32) -> Result<Step, Refusal>
    ensures { result ≡ spec.step_of action kind station number }
{
    if !in_range(station) {
        return malformed();
    }
    match action {
        1 => plain(kind, station, number, Action::Timeout),
        2 => delivery(kind, station, number),
        3 => plain(kind, station, number, Action::Exit),
        _ => malformed(),
    }
}

// Step k of a list: "either the step or its refusal".
pub fn read_step(steps: &[u8], k: usize) -> Result<Step, Refusal>
    requires { 12 * k + 12 ≤ length steps.now }
    ensures { result ≡ spec.step_at steps.now k }
{
    let at = 12 * k;
    step_of(
        word_at(steps, at),
        word_at(steps, at + 2),
        quad_at(steps, at + 4),
        quad_at(steps, at + 8),
    )
}

// The four fields of a step, one behind the other.
fn write_fields(room: &mut [u8], at: usize, action: u16, kind: u16, station: u32, number: u32)
    requires { at + 12 ≤ length room.old }
    ensures { room.new ≡ overwrite at (le16 action ++ (le16 kind ++ (le32 station ++ le32 number))) room.old }
{
    write_word(room, at, action);
    write_word(room, at + 2, kind);
    write_quad(room, at + 4, station);
    write_quad(room, at + 8, number);
}

// A step at an index of a room.
pub fn write_step(room: &mut [u8], at: usize, step: Step)
    requires { at + 12 ≤ length room.old }
    ensures { room.new ≡ overwrite at (spec.step_bytes step) room.old }
{
    let station = step.station;
    match step.action {
        Action::Timeout => write_fields(room, at, 1, 0, station, 0),
        Action::Deliver(message) => {
            let content = message.content;
            write_fields(room, at, 2, kind(content), station, carried(content));
        }
        Action::Exit => write_fields(room, at, 3, 0, station, 0),
    }
}
