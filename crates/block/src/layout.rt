// Whether the fields of a block are inside the layout (document 01, "The block").
ghost use Rattle.std.specs.Prelude.{◌≡◌, ◌≤◌};
ghost use Rattle.octets.specs.Bytes.{word};
ghost use Rattle.block.specs.Layout.{header_holds, rest_holds, fields_hold};

use crate::places::places_hold;
use fields::{count_holds, flags_hold, in_range, layout_holds, neighbour_holds, site_holds};
use octets::{quad_at, word_at, zero_between};

// Bytes 0 to 19.
fn header_holds(b: &[u8; 512]) -> bool
    ensures { result ≡ header_holds b.now }
{
    layout_holds(word_at(b, 0))
        & flags_hold(word_at(b, 2))
        & in_range(quad_at(b, 4))
        & neighbour_holds(quad_at(b, 8))
        & neighbour_holds(quad_at(b, 12))
        & count_holds(word_at(b, 16))
        & site_holds(word_at(b, 18))
}

// Bytes 20 to 509: the counted places are good, and every byte after them is 0.
fn rest_holds(b: &[u8; 512]) -> bool
    requires { word b.now 16 ≤ 32 }
    ensures { result ≡ rest_holds b.now }
{
    let n = word_at(b, 16) as usize;
    places_hold(b, n) & zero_between(b, 20 + 8 * n, 276) & zero_between(b, 276, 510)
}

pub fn fields_hold(b: &[u8; 512]) -> bool
    ensures { result ≡ fields_hold b.now }
{
    header_holds(b) && rest_holds(b)
}
