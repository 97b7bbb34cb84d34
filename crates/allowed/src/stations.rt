// The records of one station's steps (document 02, T-01): "within a station the timeout, then deliveries by kind and number, then the exit".
ghost use Rattle.std.specs.Prelude.{◌≡◌, true, cond, [], ◌+◌, ◌≤◌, length};
ghost use Rattle.steps.specs.Steps.{step_bytes};
ghost use Rattle.words.specs.Writing.{Wrote};
ghost use Rattle.allowed.specs.Parts.{action_with, found_with, Standing, offered_by};

use crate::bags::{choose, has_kind, numbers_of};
use crate::judging::is_allowed;
use leave::leave_at;
use line::{Action, Content, Message, Step};
use steps::write_step;
use table::{block_at, number_at};

// The record of a step, where it is allowed.
fn put_if(out: &mut [u8], at: usize, allowed: bool, step: Step) -> usize
    requires { (at ≤ length out.old) × (allowed ≡ true → at + 12 ≤ length out.old) }
    ensures { Wrote out.old at (cond allowed (step_bytes step) []) result out.new }
{
    if allowed {
        write_step(out, at, step);
        return at + 12;
    }
    at
}

// Action k of a station whose bag introduces n others, where q is number k - 1 of them: the timeout, the introductions, remove-left,
// remove-right, the exit.
fn action_of(q: u32, n: usize, k: usize) -> Action
    requires { n ≤ 64 }
    ensures { result ≡ action_with q n k }
{
    if k == 0 {
        return Action::Timeout;
    }
    if k <= n {
        return Action::Deliver(Message {
            content: Content::Introduction(q),
        });
    }
    if k == n + 1 {
        return Action::Deliver(Message {
            content: Content::RemoveLeft,
        });
    }
    if k == n + 2 {
        return Action::Deliver(Message {
            content: Content::RemoveRight,
        });
    }
    Action::Exit
}

// Whether the bag holds the message of action k, of what is known of its removals.
fn found_of(n: usize, k: usize, left: bool, right: bool) -> bool
    requires { n ≤ 64 }
    ensures { result ≡ found_with n k left right }
{
    if k == 0 {
        return false;
    }
    if k <= n {
        return true;
    }
    if k == n + 1 {
        return left;
    }
    if k == n + 2 {
        return right;
    }
    false
}

// One action after another. An introduction that is not in the bag is not asked.
pub(crate) fn put_station(
    out: &mut [u8],
    at: usize,
    table: &[u8],
    index: &[u64],
    counts: &[usize; 64],
    i: usize,
) -> usize
    requires { Standing table.now index.now counts.now i × (at + length (offered_by table.now i) ≤ length out.old) }
    ensures { Wrote out.old at (offered_by table.now i) result out.new }
{
    let own = (index[i] % 64) as usize;
    let station = number_at(table, own);
    let b = block_at(table, own);
    let numbers = numbers_of(b);
    let chosen = choose(index, &numbers);
    let left = has_kind(b, 2);
    let right = has_kind(b, 3);
    let leave = leave_at(table, index, i);
    let n = chosen.count;
    let introduced = chosen.numbers;
    let mut end = at;
    for k in 0..n + 4 {
        let action = action_of(introduced[(k + 63) % 64], n, k);
        let found = found_of(n, k, left, right);
        let allowed = is_allowed(table, index, counts, i, leave, found, action);
        end = put_if(out, end, allowed, Step { station, action });
    }
    end
}
