// The fields of a block and the rule of each (document 01, "The block"), as functions of the numbers that the bytes say: one function
// for each rule, so that a rule is changed in one place. The rule of a message place is that of a delivery too ("The step list").
#![tactic(auto)]

ghost use Rattle.std.specs.Prelude.{◌≡◌};
ghost use Rattle.line.specs.Accepted.{in_range};
ghost use Rattle.line.specs.Marks.{flags_hold, site_holds};
ghost use Rattle.fields.specs.Fields.{layout_holds, neighbour_holds, count_holds, place_of, is_good, message_of, neighbour_of};

use line::{Content, Message, Neighbour};

// bytes 0-1: "layout number, 1"
pub fn layout_holds(n: u16) -> bool
    ensures { result ≡ layout_holds n }
{
    n == 1
}

// bytes 2-3: "bit 0 leaving; all other bits 0"
pub fn flags_hold(n: u16) -> bool
    ensures { result ≡ flags_hold n }
{
    n <= 1
}

// "1 to 999,999": the station number, and the number of an introduction
pub fn in_range(n: u32) -> bool
    ensures { result ≡ in_range n }
{
    (1 <= n) & (n <= 999999)
}

// bytes 8-11: "left neighbour, 0 for none, else 1 to 999,999"; bytes 12-15: right likewise
pub fn neighbour_holds(n: u32) -> bool
    ensures { result ≡ neighbour_holds n }
{
    n <= 999999
}

// bytes 16-17: "count of messages, 0 to 32"
pub fn count_holds(n: u16) -> bool
    ensures { result ≡ count_holds n }
{
    n <= 32
}

// bytes 18-19: "a site code, 0 to 9,999, with 0 for none" (document 02, T-05)
pub fn site_holds(code: u16) -> bool
    ensures { result ≡ site_holds code }
{
    code <= 9999
}

// "0 for none"
pub fn neighbour_of(n: u32) -> Neighbour
    ensures { result ≡ neighbour_of n }
{
    if n == 0 { None } else { Some(n) }
}

// The message of a place, of its kind, its two zero bytes and its number; none where the place is bad.
pub fn place_of(kind: u16, gap: u16, number: u32) -> Option<Message>
    ensures { result ≡ place_of kind gap number }
{
    if gap != 0 {
        return None;
    }
    if kind == 1 {
        if in_range(number) {
            return Some(Message {
                content: Content::Introduction(number),
            });
        }
        return None;
    }
    if number != 0 {
        return None;
    }
    if kind == 2 {
        return Some(Message {
            content: Content::RemoveLeft,
        });
    }
    if kind == 3 {
        return Some(Message {
            content: Content::RemoveRight,
        });
    }
    None
}

pub fn is_good(place: Option<Message>) -> bool
    ensures { result ≡ is_good place }
{
    match place {
        Some(_) => true,
        None => false,
    }
}

// The message of a place; a bad place, which no accepted block has, stands for remove-left.
pub fn message_of(place: Option<Message>) -> Message
    ensures { result ≡ message_of place }
{
    match place {
        Some(message) => message,
        None => Message {
            content: Content::RemoveLeft,
        },
    }
}
