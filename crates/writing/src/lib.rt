// Writing a block: every byte of it, the check word last (document 01, "The block").
#![tactic(auto)]

ghost use Rattle.std.specs.Prelude.{◌≡◌, ◌++◌, ◌+◌, ◌-◌, ◌%◌, ◌≤◌, length};
ghost use Rattle.bag.specs.Held.{held};
ghost use Rattle.octets.specs.Bytes.{le16, le32, sum_words, overwrite};
ghost use Rattle.writing.specs.Encoding.{neighbour_number, place_bytes, places_bytes, header, encode};

use bag::{Bag, carried, kind};
use line::{Message, Neighbour, Station};
use octets::{check_sum, clear, write_quad, write_word};

// "0 for none"
fn neighbour_number(neighbour: Neighbour) -> u32
    ensures { result ≡ neighbour_number neighbour }
{
    match neighbour {
        None => 0,
        Some(n) => n,
    }
}

// One message place.
fn write_place(room: &mut [u8], at: usize, m: Message)
    requires { at + 8 ≤ length room.old }
    ensures { room.new ≡ overwrite at (place_bytes m) room.old }
{
    let content = m.content;
    write_word(room, at, kind(content));
    write_word(room, at + 2, 0);
    write_quad(room, at + 4, carried(content));
}

// The places of a bag, in its order.
fn write_places(room: &mut [u8; 512], bag: Bag)
    ensures { room.new ≡ overwrite 20 (places_bytes (held bag)) room.old }
{
    let n = bag.size();
    for (i, message) in bag.messages[..n].iter().enumerate() {
        write_place(room, 20 + 8 * i, *message);
    }
}

// Bytes 0 to 19 of their values.
fn write_fields(
    room: &mut [u8; 512],
    flags: u16,
    number: u32,
    left: u32,
    right: u32,
    count: u16,
    site: u16,
)
    ensures { room.new ≡ overwrite 0 (le16 1 ++ (le16 flags ++ (le32 number ++ (le32 left ++ (le32 right ++ (le16 count ++ le16 site)))))) room.old }
{
    write_word(room, 0, 1);
    write_word(room, 2, flags);
    write_quad(room, 4, number);
    write_quad(room, 8, left);
    write_quad(room, 12, right);
    write_word(room, 16, count);
    write_word(room, 18, site);
}

// Bytes 0 to 19 of a station and its bag.
fn write_header(room: &mut [u8; 512], station: Station, bag: Bag)
    ensures { room.new ≡ overwrite 0 (header (record { station = station; bag = held bag })) room.old }
{
    let left = station.left;
    let right = station.right;
    let marks = station.marks;
    let count = bag.size() as u16;
    write_fields(
        room,
        marks.flags(),
        station.number,
        neighbour_number(left),
        neighbour_number(right),
        count,
        marks.site,
    );
}

// The check word makes the sum of the words 65,535; until then its two bytes are 0.
fn seal(room: &mut [u8; 512])
    ensures { room.new ≡ overwrite 510 (le16 (65535 - sum_words room.old % 65536)) room.old }
{
    let sum = check_sum(room);
    write_word(room, 510, 65535 - sum);
}

// The block of a station and its bag, whatever the room held.
pub fn write_block(room: &mut [u8; 512], station: Station, bag: Bag)
    ensures { room.new ≡ encode (record { station = station; bag = held bag }) }
{
    clear(room);
    write_header(room, station, bag);
    write_places(room, bag);
    seal(room);
}
