// What a step sends and where it arrives, and what it leaves of the bags (document 01, "What a step does at station p" and "The numbers a
// crew may see", 12 to 15). What refuses a step is known before anything is stored.
ghost use Rattle.std.specs.Prelude.{◌≡◌, ◌<◌, length, get_or};
ghost use Rattle.lists.specs.Numbers.{Rising};
ghost use Rattle.index.specs.Index.{slot_in, numbers_in};
ghost use Rattle.moves.specs.Sends.{receiver_of, room_for, verdict_of, Plans, BagAfter, PutIn};

use crate::Plan;
use bag::Bag;
use index::lookup_near;
use line::{Action, Leave, Message, Refusal, Station};
use rules::{Decision, Sending, decide};

// The slot of the receiver; the sender's own, at place i, where nothing is sent, or where nobody has that number.
fn receiver(index: &[u64], sending: Option<Sending>, i: usize) -> usize
    requires { (i < length index.now) × Rising (numbers_in index.now) }
    ensures { result ≡ slot_in (get_or index.now (receiver_of (numbers_in index.now) sending i) 0) }
{
    match sending {
        None => (index[i] % 64) as usize,
        Some(sending) => {
            let j = lookup_near(index, sending.to, i);
            if j < index.len() {
                (index[j] % 64) as usize
            } else {
                (index[i] % 64) as usize
            }
        }
    }
}

// Whether a bag of so many messages can take what is sent to it: "a bag that must receive holds 32" is refused.
fn room_for(sending: Option<Sending>, count: usize) -> bool
    ensures { result ≡ room_for sending count }
{
    match sending {
        None => true,
        Some(_) => count < 32,
    }
}

// Whether the receivers' bags, of these counts, can take what is sent to them.
fn verdict_of(decision: Decision, first: usize, second: usize) -> Result<(), Refusal>
    ensures { result ≡ verdict_of decision first second }
{
    let sendings = decision.sendings;
    if room_for(sendings.first, first) && room_for(sendings.second, second) {
        Ok(())
    } else {
        Err(Refusal::Full)
    }
}

// The step of the station at place i of the index, or what refuses it: the station itself, 12 to 14, and then a bag that is full. leave says
// whether it may leave, and found whether its bag holds the message to deliver.
pub fn plan(
    index: &[u64],
    counts: &[usize; 64],
    i: usize,
    leave: Leave,
    found: bool,
    station: Station,
    action: Action,
) -> Result<Plan, Refusal>
    requires { (i < length index.now) × Rising (numbers_in index.now) }
    ensures { Plans index.now counts.now i leave found station action result }
{
    let decision = decide(leave, found, station, action)?;
    let first = receiver(index, decision.sendings.first, i);
    let second = receiver(index, decision.sendings.second, i);
    verdict_of(decision, counts[first], counts[second])?;
    Ok(Plan {
        decision,
        first,
        second,
    })
}

// The station's own bag after the step, where the message of a delivery was taken out of it; nothing where the bag stays as it is.
pub fn bag_after(action: Action, own: Bag) -> Option<Bag>
    ensures { BagAfter action own result }
{
    match action {
        Action::Timeout => None,
        Action::Deliver(message) => {
            let taken = own.take(message);
            taken.found.then_some(taken.bag)
        }
        Action::Exit => None,
    }
}

// The row of a slot with one message more, whose count is raised.
pub fn put_in(
    row: [Message; 32],
    counts: &mut [usize; 64],
    slot: usize,
    message: Message,
) -> [Message; 32]
    requires { (slot < 64) × (get_or counts.old slot 0 < 32) }
    ensures { PutIn row counts.old slot message result counts.new }
{
    let bag = Bag {
        messages: row,
        count: counts[slot],
    };
    let after = bag.put(message);
    counts[slot] = after.count;
    after.messages
}
