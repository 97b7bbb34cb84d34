// How often the stations of a table are mentioned by others, and by which smallest station, counted in one pass over the blocks (document 02,
// T-03: "Mentions are counted once from the table").
#![tactic(auto)]

ghost use Rattle.std.specs.Prelude.{◌≡◌, ◌≤◌, length, replicate};
ghost use Rattle.octets.specs.Bytes.{word};
ghost use Rattle.index.specs.Index.{numbers_in};
ghost use Rattle.block.specs.Layout.{messages, node_of};
ghost use Rattle.table.specs.Blocks.{nodes};
ghost use Rattle.table.specs.Fault.{fault_of};
ghost use Rattle.table.specs.Index.{index_of};
ghost use Rattle.mentions.specs.Tally.{TallyOf, AddsNode, AddsOne, AddsMessages, is_other, is_beside, is_introduced};
ghost use Rattle.mentions.specs.Growing.{Ready, Keeps};

use block::places::place_at;
use block::station_of;
use fields::message_of;
use index::lookup;
use line::{Content, Message, Neighbour};
use octets::word_at;
use table::block_at;

// For each station of the index, by rising number: how often the others mention it so far, and the smallest that does.
#[derive(Drop)]
struct Tally<'a> {
    index: &'a [u64],
    counts: &'a mut [u32],
    smallest: &'a mut [u32],
}

impl<'a> Tally<'a> {
    // One mention of station q by station p; "no other station": a station does not mention itself.
    fn add(&mut self, p: u32, q: u32)
        requires { Ready 4000000 self.old }
        ensures added { AddsOne p (is_other p q) (numbers_in self.old.index.now) self.old.counts.now self.old.smallest.now self.new.counts.now self.new.smallest.now }
        ensures kept { Keeps self.old self.new }
    {
        if p == q {
            return;
        }
        let i = lookup(self.index, q);
        if i < self.counts.len() {
            self.counts[i] += 1;
            self.smallest[i] = p.min(self.smallest[i]);
        }
    }

    // A neighbour of station p.
    fn add_neighbour(&mut self, p: u32, neighbour: Neighbour)
        requires { Ready 4000000 self.old }
        ensures added { AddsOne p (is_beside p neighbour) (numbers_in self.old.index.now) self.old.counts.now self.old.smallest.now self.new.counts.now self.new.smallest.now }
        ensures kept { Keeps self.old self.new }
    {
        if let Some(q) = neighbour {
            self.add(p, q);
        }
    }

    // A message in the bag of station p.
    fn add_message(&mut self, p: u32, message: Message)
        requires { Ready 4000000 self.old }
        ensures added { AddsOne p (is_introduced p message) (numbers_in self.old.index.now) self.old.counts.now self.old.smallest.now self.new.counts.now self.new.smallest.now }
        ensures kept { Keeps self.old self.new }
    {
        if let Content::Introduction(q) = message.content {
            self.add(p, q);
        }
    }

    // The messages in the counted places of a block, of which p is the station.
    fn add_messages(&mut self, b: &[u8; 512], p: u32)
        requires b_len { word b.now 16 ≤ 32 }
        requires ready { Ready 3000000 self.old }
        ensures added { AddsMessages p (messages b.now (word b.now 16)) (numbers_in self.old.index.now) self.old.counts.now self.old.smallest.now self.new.counts.now self.new.smallest.now }
        ensures kept { Keeps self.old self.new }
    {
        let n = word_at(b, 16) as usize;
        for i in 0..n {
            self.add_message(p, message_of(place_at(b, i)));
        }
    }

    // What the station of a block mentions: its left, its right, and the introductions in its bag.
    fn add_block(&mut self, b: &[u8; 512])
        requires b_len { word b.now 16 ≤ 32 }
        requires ready { Ready 2000000 self.old }
        ensures added { AddsNode (node_of b.now) (numbers_in self.old.index.now) self.old.counts.now self.old.smallest.now self.new.counts.now self.new.smallest.now }
        ensures kept { Keeps self.old self.new }
    {
        let station = station_of(b);
        self.add_neighbour(station.number, station.left);
        self.add_neighbour(station.number, station.right);
        self.add_messages(b, station.number);
    }
}

// Of an accepted table and its index: for each station by rising number, how often the others mention it, and the smallest that does.
pub fn count_mentions(table: &[u8], index: &[u64], counts: &mut [u32], smallest: &mut [u32])
    requires table_value { (fault_of table.now ≡ 0) × (index.now ≡ index_of table.now) }
    requires counts_value { (counts.old ≡ replicate (length index.now) 0) × (smallest.old ≡ replicate (length index.now) 4294967295) }
    ensures { TallyOf (numbers_in (index_of table.now)) counts.new smallest.new (nodes table.now) }
{
    let mut tally = Tally {
        index,
        counts,
        smallest,
    };
    for k in (0..table.len() / 512).rev() {
        tally.add_block(block_at(table, k));
    }
}
