// Who holds a station that would exit: another station that has it as a neighbour or as an introduction in its bag (document 01, "What a step
// does at station p", NIDEC; document 02, T-02).
ghost use Rattle.std.specs.Prelude.{◌≡◌, cond, ◌<◌, ◌≤◌, length, get_or};
ghost use Rattle.line.specs.Nidec as spec;
ghost use Rattle.line.specs.Leave.{is_holder};
ghost use Rattle.bag.specs.Held.{ordered};
ghost use Rattle.index.specs.Index.{number_in, numbers_in};
ghost use Rattle.moves.specs.Holders.{is_exit, may_hold, leave_from};

use bag::Bag;
use line::{Action, Content, Leave, Message, Neighbour, Reason, Station};

#[tactic(auto, unfolding(line::specs::Nidec::is_neighbour))]
pub fn is_neighbour(p: u32, n: Neighbour) -> bool
    ensures { result ≡ spec.is_neighbour p n }
{
    Some(p) == n
}

// Whether station s, with this bag, holds p.
pub fn is_holder(p: u32, s: Station, bag: Bag) -> bool
    ensures { result ≡ is_holder p (record { station = s; bag = ordered bag }) }
{
    if s.number == p {
        return false;
    }
    let left = s.left;
    let right = s.right;
    if is_neighbour(p, left) {
        return true;
    }
    if is_neighbour(p, right) {
        return true;
    }
    bag.holds(Message {
        content: Content::Introduction(p),
    })
}

// Whether s may hold p, as far as can be told without looking into its bag of so many messages.
pub fn may_hold(p: u32, s: Station, count: usize) -> bool
    ensures { result ≡ may_hold p s count }
{
    let left = s.left;
    let right = s.right;
    let beside = is_neighbour(p, left) | is_neighbour(p, right);
    (s.number != p) & (beside | (count != 0))
}

// Of how many stations NIDEC is asked: an exit asks all n, any other step none.
pub fn asked_of(action: Action, n: usize) -> usize
    ensures { result ≡ cond (is_exit action) n 0 }
{
    match action {
        Action::Timeout => 0,
        Action::Deliver(_) => 0,
        Action::Exit => n,
    }
}

// Whether a station with so many messages may leave, where the first who holds it has place j of the index. "The bag is looked at first"
// (document 02, T-02).
pub fn leave_from(index: &[u64], count: usize, j: usize) -> Leave
    requires { j < length index.now → number_in (get_or index.now j 0) ≤ 999999 }
    ensures { result ≡ leave_from (numbers_in index.now) count j }
{
    if count != 0 {
        return Err(Reason::OwnBag);
    }
    if j < index.len() {
        return Err(Reason::HeldBy((index[j] / 64) as u32));
    }
    Ok(())
}
