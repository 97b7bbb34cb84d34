// The 32 message places of a block (document 01, "The block").
ghost use Rattle.std.specs.Prelude.{◌≡◌, ◌≤◌, ◌<◌};
ghost use Rattle.block.specs.Layout.{place_at, places_hold};

use fields::{is_good, place_of};
use line::Message;
use octets::{quad_at, word_at};

pub fn place_at(b: &[u8; 512], i: usize) -> Option<Message>
    requires { i < 32 }
    ensures { result ≡ place_at b.now i }
{
    place_of(
        word_at(b, 20 + 8 * i),
        word_at(b, 22 + 8 * i),
        quad_at(b, 24 + 8 * i),
    )
}

// Whether the first n places are good.
pub fn places_hold(b: &[u8; 512], n: usize) -> bool
    requires { n ≤ 32 }
    ensures { result ≡ places_hold b.now n }
{
    (0..n).all(|i| is_good(place_at(b, i)))
}
