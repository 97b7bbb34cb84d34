// The line of one station (document 01, "The printed listing"; document 02, T-05): "Words are parted by one space and each line ends with LF."
ghost use Rattle.std.specs.Prelude.{◌∷◌, [], map, ◌+◌, ◌≤◌, length};
ghost use Rattle.octets.specs.Bytes.{word};
ghost use Rattle.block.specs.Layout.{messages, node_of};
ghost use Rattle.words.specs.Words.{neighbour_text, message_text, space, spaced, parted};
ghost use Rattle.words.specs.Writing.{Wrote};
ghost use Rattle.text.specs.Listing.{station_words, site_words, station_text};

use block::places::place_at;
use block::station_of;
use fields::message_of;
use line::{Message, Neighbour, Station};
use octets::word_at;
use words::{put, put_mark, put_message, put_named, put_neighbour, put_number};

// "left, right", with a space before each.
fn put_neighbours(out: &mut [u8], at: usize, left: Neighbour, right: Neighbour) -> usize
    requires { at + 22 ≤ length out.old }
    ensures { Wrote out.old at (spaced (neighbour_text left ∷ neighbour_text right ∷ [])) result out.new × (result ≤ at + 22) }
{
    let first = put(out, at, b' ');
    let second = put_neighbour(out, first, left);
    let third = put(out, second, b' ');
    put_neighbour(out, third, right)
}

// "number, left, right (`-` for none), `stay` or `leave`"
fn put_station(out: &mut [u8], at: usize, s: Station) -> usize
    requires { at + 38 ≤ length out.old }
    ensures { Wrote out.old at (parted (station_words s)) result out.new × (result ≤ at + 38) }
{
    let first = put_number(out, at, s.number);
    let second = put_neighbours(out, first, s.left, s.right);
    let third = put(out, second, b' ');
    put_mark(out, third, s.marks)
}

// A message behind a space.
fn put_further(out: &mut [u8], at: usize, m: Message) -> usize
    requires { at + 12 ≤ length out.old }
    ensures { Wrote out.old at (space ∷ message_text m) result out.new × (result ≤ at + 12) }
{
    let next = put(out, at, b' ');
    put_message(out, next, m)
}

// The messages of a block, in its order: up to 12 bytes for each of 32.
fn put_messages(out: &mut [u8], at: usize, b: &[u8; 512]) -> usize
    requires { (word b.now 16 ≤ 32) × (at + 384 ≤ length out.old) }
    ensures { Wrote out.old at (spaced (map message_text (messages b.now (word b.now 16)))) result out.new × (result ≤ at + 384) }
{
    let n = word_at(b, 16) as usize;
    let mut end = at;
    for i in 0..n {
        end = put_further(out, end, message_of(place_at(b, i)));
    }
    end
}

// "its code at the end as one word, `@` with the number, or nothing for 0" (document 02, T-05), behind a space.
fn put_site(out: &mut [u8], at: usize, site: u16) -> usize
    requires { at + 12 ≤ length out.old }
    ensures { Wrote out.old at (spaced (site_words site)) result out.new × (result ≤ at + 12) }
{
    if site == 0 {
        return at;
    }
    put_named(out, at, b" @", site as u32)
}

// The line of the station in a block: up to 38 bytes for the station, 384 for its messages, 12 for its site code and the line feed.
pub(crate) fn put_line(out: &mut [u8], at: usize, b: &[u8; 512]) -> usize
    requires { (word b.now 16 ≤ 32) × (at + 435 ≤ length out.old) }
    ensures { Wrote out.old at (station_text (node_of b.now)) result out.new × (result ≤ at + 435) }
{
    let station = station_of(b);
    let named = put_station(out, at, station);
    let listed = put_messages(out, named, b);
    let end = put_site(out, listed, station.marks.site);
    put(out, end, b'\n')
}
