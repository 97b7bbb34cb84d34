// Whether the stations that a block names have a block (document 01, "The numbers a crew may see", 7). The index of all
// blocks is handed in.
ghost use Rattle.std.specs.Prelude.{◌≡◌, true, ◌<◌};
ghost use Rattle.index.specs.Index.{numbers_in};
ghost use Rattle.line.specs.declared.Message.{Message};
ghost use Rattle.lists.specs.Lists.{all};
ghost use Rattle.line.specs.Node.{Line};
ghost use Rattle.lists.specs.Numbers.{Rising};
ghost use Rattle.line.specs.Accepted.{knows_neighbour, knows_content, names_present};
ghost use Rattle.octets.specs.Bytes.{word};
ghost use Rattle.fields.specs.Fields.{is_good, message_of};
ghost use Rattle.block.specs.Layout.{place_at, messages, node_of, fault_of};
ghost use Rattle.table.specs.Blocks.{blocks, nodes};
ghost use Rattle.table.specs.Smallest.{smallest};
ghost use Rattle.table.specs.Index.{Lists};

use crate::blocks;
use block::stations::station_of;
use index::is_listed;
use line::Neighbour;
use octets::{quad_at, word_at};

fn knows_neighbour(index: &[u64], neighbour: Neighbour) -> bool
    requires { Rising (numbers_in index.now) }
    ensures { (line : Line) → Lists (numbers_in index.now) line → result ≡ knows_neighbour line neighbour }
{
    match neighbour {
        None => true,
        Some(q) => is_listed(index, q),
    }
}

// Message place i of a block that has no fault of its own: the station of an introduction.
fn knows_place(b: &[u8; 512], i: usize, index: &[u64]) -> bool
    requires { (i < 32) × (is_good (place_at b.now i) ≡ true) × Rising (numbers_in index.now) }
    ensures { (line : Line) → Lists (numbers_in index.now) line → result ≡ knows_content line (message_of (place_at b.now i)).content }
{
    if word_at(b, 20 + 8 * i) == 1 {
        return is_listed(index, quad_at(b, 24 + 8 * i));
    }
    true
}

// The counted places.
fn knows_messages(b: &[u8; 512], index: &[u64]) -> bool
    requires { (fault_of b.now ≡ 0) × Rising (numbers_in index.now) }
    ensures { (line : Line) → Lists (numbers_in index.now) line → result ≡ all (λ (m : Message). knows_content line m.content) (messages b.now (word b.now 16)) }
{
    let n = word_at(b, 16) as usize;
    (0..n).all(|i| knows_place(b, i, index))
}

// One block: its left, its right and its introductions.
fn knows_names(b: &[u8; 512], index: &[u64]) -> bool
    requires { (fault_of b.now ≡ 0) × Rising (numbers_in index.now) }
    ensures { (line : Line) → Lists (numbers_in index.now) line → result ≡ names_present line (node_of b.now) }
{
    let station = station_of(b);
    let left = station.left;
    let right = station.right;
    knows_neighbour(index, left) & knows_neighbour(index, right) & knows_messages(b, index)
}

// All blocks of a table, of which none has a fault of its own.
pub fn names_known(table: &[u8], index: &[u64]) -> bool
    requires { (smallest (blocks table.now) ≡ 0) × Lists (numbers_in index.now) (nodes table.now) × Rising (numbers_in index.now) }
    ensures { result ≡ all (names_present (nodes table.now)) (nodes table.now) }
{
    blocks(table).iter().all(|block| knows_names(block, index))
}
