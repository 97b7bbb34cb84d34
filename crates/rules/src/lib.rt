// What one station does in a step (document 01, "What a step does at station p"), with an introduction in the order of the proof of lemma 3 of
// source 000. Left and right are one function over a side.
#![tactic(auto)]

ghost use Rattle.std.specs.Prelude.{◌≡◌, false, List};
ghost use Rattle.line.specs.Types.{Leave};
ghost use Rattle.line.specs.declared.Message.{Message};
ghost use Rattle.line.specs.declared.Side.{Side};
ghost use Rattle.line.specs.Message as message;
ghost use Rattle.line.specs.Node as node;
ghost use Rattle.line.specs.Act as act;
ghost use Rattle.line.specs.Report.{process, Intro, mail, variable};
ghost use Rattle.delivery.specs.Lemma3 as lemma3;
ghost use Rattle.rules.specs.Decided.{sent, both_sent, reaction, is_found, Decides};

use line::{Action, Content, Leave, Message, Neighbour, Refusal, Side, Station};

// One message on its way to a station.
#[derive(Clone, Copy)]
pub struct Sending {
    pub to: u32,
    pub message: Message,
}

// No step sends more than two messages.
#[derive(Clone, Copy)]
pub struct Sendings {
    pub first: Option<Sending>,
    pub second: Option<Sending>,
}

// A station after a delivery, and what it sends.
#[derive(Clone, Copy)]
pub struct Reacted {
    pub station: Station,
    pub sending: Option<Sending>,
}

// A station's part in a step that it does not refuse: whether its block goes, its fields afterwards, and what it sends.
#[derive(Clone, Copy)]
pub struct Decision {
    pub gone: bool,
    pub station: Station,
    pub sendings: Sendings,
}

fn opposite(side: Side) -> Side
    ensures { result ≡ node.opposite side }
{
    match side {
        Side::Left => Side::Right,
        Side::Right => Side::Left,
    }
}

fn neighbour(side: Side, s: Station) -> Neighbour
    ensures { result ≡ node.neighbour side s }
{
    match side {
        Side::Left => s.left,
        Side::Right => s.right,
    }
}

fn with_neighbour(side: Side, n: Neighbour, s: Station) -> Station
    ensures { result ≡ node.with_neighbour side n s }
{
    match side {
        Side::Left => Station { left: n, ..s },
        Side::Right => Station { right: n, ..s },
    }
}

fn introduction(n: u32) -> Message
    ensures { result ≡ message.introduction n }
{
    Message {
        content: Content::Introduction(n),
    }
}

fn removal(side: Side) -> Message
    ensures { result ≡ message.removal side }
{
    match side {
        Side::Left => Message {
            content: Content::RemoveLeft,
        },
        Side::Right => Message {
            content: Content::RemoveRight,
        },
    }
}

// "each where there is one"
#[tactic(auto, unfolding(line::specs::Act::send_to))]
fn send_to(n: Neighbour, m: Message) -> Option<Sending>
    ensures { sent result ≡ act.send_to n m }
{
    n.map(|to| Sending { to, message: m })
}

fn notice(p: Station, side: Side) -> Message
    ensures { result ≡ act.notice p side }
{
    if p.marks.leaving {
        removal(opposite(side))
    } else {
        introduction(p.number)
    }
}

fn timeout(p: Station) -> Sendings
    ensures { both_sent result ≡ act.timeout p }
{
    Sendings {
        first: send_to(p.left, notice(p, Side::Left)),
        second: send_to(p.right, notice(p, Side::Right)),
    }
}

fn unchanged(p: Station) -> Reacted
    ensures { reaction result ≡ act.unchanged p }
{
    Reacted {
        station: p,
        sending: None,
    }
}

// Whether id < right or, on the left, left < id, where n is that neighbour. With none it is so, since right is then +∞, and left −∞.
fn is_below(side: Side, id: u32, n: Neighbour) -> bool
    ensures { result ≡ lemma3.below side id (variable side n) }
{
    match n {
        None => true,
        Some(q) => side.beyond(id, q),
    }
}

// Whether id is the neighbour n, on either side.
#[tactic(auto, unfolding(delivery::specs::Lemma3::equal, line::specs::Report::left_id, line::specs::Report::right_id))]
fn is_equal(id: u32, n: Neighbour) -> bool
    ensures { (d : Side) → result ≡ lemma3.equal id (variable d n) }
{
    Some(id) == n
}

// An introduction of the neighbour n, where there is one, goes to id.
#[tactic(auto, unfolding(line::specs::Report::mail, line::specs::Report::left_id, line::specs::Report::right_id))]
fn introduce_to(id: u32, n: Neighbour) -> Option<Sending>
    ensures { (d : Side) → sent result ≡ mail (Intro (variable d n)) (process id) }
{
    n.map(|q| Sending {
        to: id,
        message: introduction(q),
    })
}

// id lies on this side of p, where the neighbour is n. The words are those of the right; "the case of id < p is similar".
fn introduced_on(side: Side, p: Station, id: u32, n: Neighbour) -> Reacted
    ensures { reaction result ≡ lemma3.on_side side p id (variable side n) }
{
    // "If p < id < right, introduce sets right = id", and "sends message intro(q) to id", where q was right.
    if is_below(side, id, n) {
        return Reacted {
            station: with_neighbour(side, Some(id), p),
            sending: introduce_to(id, n),
        };
    }
    // "If id = right, action introduce removes the message and does no further operations."
    if is_equal(id, n) {
        return unchanged(p);
    }
    // "If id > right, action introduce forwards id to right".
    Reacted {
        station: p,
        sending: send_to(n, introduction(id)),
    }
}

// An introduction of id, in the order of the proof of lemma 3 of source 000 (document 02, T-06).
fn introduced(p: Station, id: u32) -> Reacted
    ensures { reaction result ≡ lemma3.introduced p id }
{
    // "If id = p"
    if id == p.number {
        return unchanged(p);
    }
    // "We now consider p < id."
    if p.number < id {
        return introduced_on(Side::Right, p, id, p.right);
    }
    // "The case of id < p is similar."
    introduced_on(Side::Left, p, id, p.left)
}

// The neighbour n on this side is dropped, with an introduction of p to it.
fn drop_neighbour(side: Side, p: Station, n: Neighbour) -> Reacted
    ensures { reaction result ≡ act.drop_neighbour side p n }
{
    match n {
        None => unchanged(p),
        Some(r) => Reacted {
            station: with_neighbour(side, None, p),
            sending: Some(Sending {
                to: r,
                message: introduction(p.number),
            }),
        },
    }
}

// A leaving station does not obey remove-left.
fn obeys(side: Side, p: Station) -> bool
    ensures { result ≡ act.obeys side p }
{
    match side {
        Side::Left => !p.marks.leaving,
        Side::Right => true,
    }
}

fn removed(p: Station, side: Side) -> Reacted
    ensures { reaction result ≡ act.removed p side }
{
    if obeys(side, p) {
        return drop_neighbour(side, p, neighbour(side, p));
    }
    unchanged(p)
}

// The rules of document 01. An introduction is handled in the report's order, which says the same of every station and number (`OrderAgrees` of
// crate `delivery`).
fn received(p: Station, c: Content) -> Reacted
    ensures { reaction result ≡ act.received p c }
{
    match c {
        Content::Introduction(q) => introduced(p, q),
        Content::RemoveLeft => removed(p, Side::Left),
        Content::RemoveRight => removed(p, Side::Right),
    }
}

fn nothing() -> Sendings
    ensures { (result.first ≡ None) × (result.second ≡ None) }
{
    Sendings {
        first: None,
        second: None,
    }
}

// With both neighbours, left is introduced to right and right to left.
fn introduce_both(left: Neighbour, right: Neighbour) -> Sendings
    ensures { both_sent result ≡ act.introduce_both left right }
{
    match left {
        None => nothing(),
        Some(l) => match right {
            None => nothing(),
            Some(r) => Sendings {
                first: Some(Sending {
                    to: l,
                    message: introduction(r),
                }),
                second: Some(Sending {
                    to: r,
                    message: introduction(l),
                }),
            },
        },
    }
}

// A delivery, where found says whether the bag holds the message.
fn deliver(found: bool, s: Station, m: Message) -> Result<Decision, Refusal>
    ensures { (l : Leave) (b : List Message) → found ≡ message.holds m b → Decides l s b (Action.Deliver m) result }
{
    if !found {
        return Err(Refusal::NotInBag);
    }
    let after = received(s, m.content);
    Ok(Decision {
        gone: false,
        station: after.station,
        sendings: Sendings {
            first: after.sending,
            second: None,
        },
    })
}

fn exit(leave: Leave, s: Station) -> Result<Decision, Refusal>
    ensures { (b : List Message) → Decides leave s b Action.Exit result }
{
    if !s.marks.leaving {
        return Err(Refusal::Staying);
    }
    leave.map_err(Refusal::Held)?;
    Ok(Decision {
        gone: true,
        station: s,
        sendings: introduce_both(s.left, s.right),
    })
}

// A station's part in a step, or why it refuses. leave says whether it may leave, and is looked at by an exit only; found says whether its bag
// holds the message to deliver, and is looked at by a delivery only.
pub fn decide(leave: Leave, found: bool, s: Station, action: Action) -> Result<Decision, Refusal>
    ensures { (b : List Message) → found ≡ is_found action b → Decides leave s b action result }
{
    match action {
        Action::Timeout => Ok(Decision {
            gone: false,
            station: s,
            sendings: timeout(s),
        }),
        Action::Deliver(m) => deliver(found, s, m),
        Action::Exit => exit(leave, s),
    }
}
