// One block of 512 bytes, read and checked (document 01, "The block").
#![tactic(auto)]

pub mod layout;
pub mod messages;
pub mod places;
pub mod stations;

ghost use Rattle.std.specs.Prelude.{◌≡◌, ◌≤◌};
ghost use Rattle.line.specs.Answer.{number_of};
ghost use Rattle.octets.specs.Bytes.{word};
ghost use Rattle.block.specs.Layout.{check_holds, row_of, first_fault, fault_of};

use bag::Bag;
use fields::message_of;
use layout::fields_hold;
use line::{Content, Fault, Message};
use octets::{check_sum, word_at};
use places::place_at;
use stations::has_sides;
pub use stations::station_of;

// "The 256 words of 16 bits, added with wrap at 65,536, give 65,535."
fn check_holds(b: &[u8; 512]) -> bool
    ensures { result ≡ check_holds b.now }
{
    check_sum(b) == 65535
}

// The smallest of 3, 4 and 5 whose rule does not hold.
fn first_fault(check: bool, fields: bool, sides: bool) -> Option<Fault>
    ensures { number_of result ≡ first_fault check fields sides }
{
    if !check {
        return Some(Fault::BadCheck);
    }
    if !fields {
        return Some(Fault::BadField);
    }
    if !sides {
        return Some(Fault::BadSide);
    }
    None
}

pub fn fault_of(b: &[u8; 512]) -> Option<Fault>
    ensures { number_of result ≡ fault_of b.now }
{
    let check = check_holds(b);
    let fields = fields_hold(b);
    let sides = has_sides(station_of(b));
    first_fault(check, fields, sides)
}

// The messages of the counted places, as they are stored.
pub fn bag_of(b: &[u8; 512]) -> Bag
    requires { word b.now 16 ≤ 32 }
    ensures { (result.messages ≡ row_of b.now) × (result.count ≡ word b.now 16) }
{
    let n = word_at(b, 16) as usize;
    let blank = Message {
        content: Content::RemoveLeft,
    };
    let mut messages = [blank; 32];
    for i in 0..n {
        messages[i] = message_of(place_at(b, i));
    }
    Bag { messages, count: n }
}
