// The station that a block holds, and the rule that its neighbours lie on their own sides (document 01, "The block" and "The
// numbers a crew may see", 5).
ghost use Rattle.std.specs.Prelude.{◌≡◌, ◌&&◌};
ghost use Rattle.line.specs.Accepted.{lies_beyond};
ghost use Rattle.block.specs.Layout.{station_of};

use fields::neighbour_of;
use line::{Marks, Neighbour, Side, Station};
use octets::{quad_at, word_at};

// The station of any 512 bytes.
pub fn station_of(b: &[u8; 512]) -> Station
    ensures { result ≡ station_of b.now }
{
    let number = quad_at(b, 4);
    let left = neighbour_of(quad_at(b, 8));
    let right = neighbour_of(quad_at(b, 12));
    let marks = Marks::from_words(word_at(b, 2), word_at(b, 18));
    Station {
        number,
        left,
        right,
        marks,
    }
}

fn lies_beyond(side: Side, p: u32, neighbour: Neighbour) -> bool
    ensures { result ≡ lies_beyond side p neighbour }
{
    match neighbour {
        None => true,
        Some(q) => side.beyond(p, q),
    }
}

// Whether each neighbour, where there is one, lies on its own side.
pub fn has_sides(s: Station) -> bool
    ensures { result ≡ (lies_beyond Side.Left s.number s.left && lies_beyond Side.Right s.number s.right) }
{
    let left = s.left;
    let right = s.right;
    lies_beyond(Side::Left, s.number, left) & lies_beyond(Side::Right, s.number, right)
}
