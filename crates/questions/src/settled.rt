// Whether every station of a table stays and no removal waits in a bag, read from the blocks where they lie (document 02, T-04): "no bag holds a
// remove-left or remove-right, and no station is leaving. Introductions may still wait".
ghost use Rattle.std.specs.Prelude.{◌≡◌, ◌&&◌, ◌≤◌};
ghost use Rattle.lists.specs.Lists.{all, any};
ghost use Rattle.line.specs.Message.{is_removal};
ghost use Rattle.line.specs.InLine.{is_quiet, stays};
ghost use Rattle.octets.specs.Bytes.{word};
ghost use Rattle.block.specs.Layout.{messages, node_of};
ghost use Rattle.table.specs.Blocks.{line_of};
ghost use Rattle.table.specs.Fault.{fault_of};
ghost use Rattle.table.specs.Index.{index_of};

use block::messages::any_message;
use block::station_of;
use line::{Content, Message};
use table::block_at;

// Whether a message is a remove-left or a remove-right.
#[tactic(auto, unfolding(line::specs::Message::is_removal, line::specs::Message::removal, line::specs::Message::same))]
fn is_removal(message: Message) -> bool
    ensures { result ≡ is_removal message }
{
    match message.content {
        Content::Introduction(_) => false,
        Content::RemoveLeft | Content::RemoveRight => true,
    }
}

// Whether a counted place of a block holds a removal.
fn holds_removal(b: &[u8; 512]) -> bool
    requires { word b.now 16 ≤ 32 }
    ensures { result ≡ any is_removal (messages b.now (word b.now 16)) }
{
    any_message(b, is_removal)
}

// Whether the station of a block stays and its bag holds no removal.
#[tactic(auto, unfolding(line::specs::InLine::is_quiet, block::specs::Layout::node_of))]
fn is_settled(b: &[u8; 512]) -> bool
    requires { word b.now 16 ≤ 32 }
    ensures { result ≡ (is_quiet (node_of b.now) && stays (node_of b.now)) }
{
    !holds_removal(b) && !station_of(b).marks.leaving
}

// Of an accepted table and its index: whether every station is settled.
pub fn all_settled(table: &[u8], index: &[u64]) -> bool
    requires table_value { fault_of table.now ≡ 0 }
    requires index_value { index.now ≡ index_of table.now }
    ensures { result ≡ (all is_quiet (line_of table.now) && all stays (line_of table.now)) }
{
    for entry in index {
        let k = (*entry % 64) as usize;
        if !is_settled(block_at(table, k)) {
            return false;
        }
    }
    true
}
