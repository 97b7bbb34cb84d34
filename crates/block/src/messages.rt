// A test of the messages in the counted places of a block, one after another (document 01, "The block").
ghost use Rattle.std.specs.Prelude.{◌≡◌, Bool, ◌≤◌};
ghost use Rattle.lists.specs.Lists.{any};
ghost use Rattle.line.specs.declared.Message.{Message};
ghost use Rattle.octets.specs.Bytes.{word};
ghost use Rattle.block.specs.Layout.{messages};

use crate::places::place_at;
use fields::message_of;
use line::Message;
use octets::word_at;

// Whether some message passes the test, whatever the test `p` says of each.
pub fn any_message<F: Fn(Message) -> bool>(b: &[u8; 512], test: F) -> bool
    requires in_block { word b.now 16 ≤ 32 }
    requires callable { F.IsAlwaysCallable test }
    ensures { (p : Message → Bool) → ((m : Message) (t : Bool) → F.post test m t → t ≡ p m) → result ≡ any p (messages b.now (word b.now 16)) }
{
    let n = word_at(b, 16) as usize;
    for i in 0..n {
        if test(message_of(place_at(b, i))) {
            return true;
        }
    }
    false
}
