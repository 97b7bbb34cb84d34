// Who holds a station of an accepted table, read from the blocks where they lie (document 01, "What a step does at station p"): "NIDEC holds
// for p when p's bag is empty and no other station has p as a neighbour or as an introduction in its bag."
ghost use Rattle.std.specs.Prelude.{◌≡◌, ◌≤◌};
ghost use Rattle.lists.specs.Places.{first_at};
ghost use Rattle.line.specs.Message.{introduction, same, holds};
ghost use Rattle.octets.specs.Bytes.{word};
ghost use Rattle.block.specs.Layout.{messages, node_of};
ghost use Rattle.table.specs.Blocks.{line_of};
ghost use Rattle.table.specs.Fault.{fault_of};
ghost use Rattle.table.specs.Index.{index_of};
ghost use Rattle.line.specs.Leave.{is_holder};

use block::messages::any_message;
use block::station_of;
use line::{Content, Message};
use moves::holders::is_neighbour;
use table::block_at;

// Whether a message is an introduction of p.
#[tactic(auto, unfolding(line::specs::Message::same))]
fn is_introduction(p: u32, message: Message) -> bool
    ensures { result ≡ same (introduction p) message }
{
    match message.content {
        Content::Introduction(q) => p == q,
        Content::RemoveLeft | Content::RemoveRight => false,
    }
}

// Whether a counted place of a block introduces p.
fn introduces(b: &[u8; 512], p: u32) -> bool
    requires { word b.now 16 ≤ 32 }
    ensures { result ≡ holds (introduction p) (messages b.now (word b.now 16)) }
{
    any_message(b, |message| is_introduction(p, message))
}

// Whether the station of a block holds p: it is another station, and has p as a neighbour or as an introduction.
#[tactic(auto, unfolding(line::specs::Nidec::names, block::specs::Layout::node_of))]
fn is_holder(b: &[u8; 512], p: u32) -> bool
    requires { word b.now 16 ≤ 32 }
    ensures { result ≡ is_holder p (node_of b.now) }
{
    let station = station_of(b);
    station.number != p
        && (is_neighbour(p, station.left) || is_neighbour(p, station.right) || introduces(b, p))
}

// A `for` and not `position`: what is known of the closure is of the index, and the contract is of the line.
// Where in the index the first station that holds p stands, which is the one of the smallest number; the length where nobody holds p.
pub fn first_holder(table: &[u8], index: &[u64], p: u32) -> usize
    requires table_value { fault_of table.now ≡ 0 }
    requires index_value { index.now ≡ index_of table.now }
    ensures { result ≡ first_at (is_holder p) (line_of table.now) }
{
    for (j, entry) in index.iter().enumerate() {
        let k = (*entry % 64) as usize;
        if is_holder(block_at(table, k), p) {
            return j;
        }
    }
    index.len()
}
