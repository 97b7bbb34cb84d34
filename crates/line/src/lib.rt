// The types of the station line (document 01, "What the engine holds" and "The step list").
#![tactic(auto)]

pub mod limits;

ghost use Rattle.std.specs.Prelude.{◌≡◌};
ghost use Rattle.line.specs.Answer.{reason_number, reason_holder, carried_number, carried_holder, fault_number, checked_number, refusal_number, refusal_reason, refused_number, told, answer_number, answer_reason};
ghost use Rattle.line.specs.declared.Refused.TheVariants.{Before, Step};
ghost use Rattle.line.specs.Marks.{flags, marks_from};
ghost use Rattle.line.specs.Node as node;

// "A neighbour is either none or a station number."
pub type Neighbour = Option<u32>;

// "A message is either an introduction that carries a station number, a remove-left or a remove-right."
#[derive(Clone, Copy)]
pub enum Content {
    Introduction(u32),
    RemoveLeft,
    RemoveRight,
}

#[derive(Clone, Copy)]
pub struct Message {
    pub content: Content,
}

// What a station carries besides its number, its neighbours and its bag: whether it is leaving, and "a site code, 0 to 9,999, with 0 for none"
// (document 02, T-05). No step changes it, so it is handed on whole; a further mark is a field here, and stands in one of the two words of
// `impl Marks`.
#[derive(Clone, Copy)]
pub struct Marks {
    pub leaving: bool,
    pub site: u16,
}

// A station without its bag.
#[derive(Clone, Copy)]
pub struct Station {
    pub number: u32,
    pub left: Neighbour,
    pub right: Neighbour,
    pub marks: Marks,
}

// Everything that has a left and a right is said once, over a side.
#[derive(Clone, Copy)]
pub enum Side {
    Left,
    Right,
}

// A step: what is done, and at which station.
#[derive(Clone, Copy)]
pub enum Action {
    Timeout,
    Deliver(Message),
    Exit,
}

#[derive(Clone, Copy)]
pub struct Step {
    pub station: u32,
    pub action: Action,
}

// What still holds a station (document 02, T-02): "own bag not empty", or "the smallest station that still has the asked one as a neighbour
// or an introduction".
#[derive(Clone, Copy)]
pub enum Reason {
    OwnBag,
    HeldBy(u32),
}

// Whether a station may leave, or what still holds it.
pub type Leave = Result<(), Reason>;

// Why a step is refused (document 01, "The numbers a crew may see", 10 to 15). "The run's refusal 14 carries the same reason" (document 02,
// T-02).
#[derive(Clone, Copy)]
pub enum Refusal {
    Malformed,
    Absent,
    NotInBag,
    Staying,
    Held(Reason),
    Full,
}

// What is refused before any step (document 01, "The numbers a crew may see", 1 to 9 and 16; document 02, T-03, 17).
#[derive(Clone, Copy)]
pub enum Fault {
    // Of a table: its length, the number of its blocks, a check, a field, a side, two blocks of one station, a station named without a block.
    PartBlock,
    ManyBlocks,
    BadCheck,
    BadField,
    BadSide,
    TwoBlocks,
    NoBlock,
    // Of a step list, and of a lent room or list.
    BadList,
    ShortRoom,
    // Of a file of the program.
    BadFile,
    // Of how many questions are asked at once.
    TooMuch,
}

// What an entry point refuses: a fault found before any step, or a step.
#[derive(Clone, Copy)]
pub enum Refused {
    Before(Fault),
    Step(Refusal),
}

// How a run over an accepted table ends: all steps done, or stopped at the first refused one.
pub type Ending = Result<(), Refusal>;

// What a run answers: the number of what is refused before the first step, any number that a caller has, or how it ended.
pub type Answered = Result<Ending, u32>;

impl Reason {
    // The value of the C interface: 2 for the own bag, 3 for a holder.
    pub fn number(self) -> u32
        ensures { result ≡ reason_number self }
    {
        match self {
            Reason::OwnBag => 2,
            Reason::HeldBy(_) => 3,
        }
    }

    // The station that holds; 0 where none is named.
    pub fn holder(self) -> u32
        ensures { result ≡ reason_holder self }
    {
        match self {
            Reason::OwnBag => 0,
            Reason::HeldBy(q) => q,
        }
    }
}

impl Refusal {
    // The number a crew sees.
    pub fn number(self) -> u32
        ensures { result ≡ refusal_number self }
    {
        match self {
            Refusal::Malformed => 10,
            Refusal::Absent => 11,
            Refusal::NotInBag => 12,
            Refusal::Staying => 13,
            Refusal::Held(_) => 14,
            Refusal::Full => 15,
        }
    }

    // "The run's refusal 14 carries the same reason"; no other does.
    fn reason(self) -> Option<Reason>
        ensures { result ≡ refusal_reason self }
    {
        match self {
            Refusal::Malformed => None,
            Refusal::Absent => None,
            Refusal::NotInBag => None,
            Refusal::Staying => None,
            Refusal::Held(why) => Some(why),
            Refusal::Full => None,
        }
    }
}

impl Fault {
    // The number a crew sees.
    pub fn number(self) -> u32
        ensures { result ≡ fault_number self }
    {
        match self {
            Fault::PartBlock => 1,
            Fault::ManyBlocks => 2,
            Fault::BadCheck => 3,
            Fault::BadField => 4,
            Fault::BadSide => 5,
            Fault::TwoBlocks => 6,
            Fault::NoBlock => 7,
            Fault::BadList => 8,
            Fault::ShortRoom => 9,
            Fault::BadFile => 16,
            Fault::TooMuch => 17,
        }
    }
}

impl Refused {
    // The number a crew sees.
    pub fn number(self) -> u32
        ensures { result ≡ refused_number self }
    {
        match self {
            Refused::Before(fault) => fault.number(),
            Refused::Step(refusal) => refusal.number(),
        }
    }
}

impl From<Fault> for Refused {
    ghost from_gives = { λ fault refused. refused ≡ Before fault };

    fn from(fault: Fault) -> Refused {
        Refused::Before(fault)
    }
}

impl From<Refusal> for Refused {
    ghost from_gives = { λ refusal refused. refused ≡ Step refusal };

    fn from(refusal: Refusal) -> Refused {
        Refused::Step(refusal)
    }
}

// The value of the reason that an answer carries; 0 where it carries none.
pub fn carried_number(carried: Option<Reason>) -> u32
    ensures { result ≡ carried_number carried }
{
    match carried {
        None => 0,
        Some(why) => why.number(),
    }
}

// The station that this reason names; 0 where none is named.
pub fn carried_holder(carried: Option<Reason>) -> u32
    ensures { result ≡ carried_holder carried }
{
    match carried {
        None => 0,
        Some(why) => why.holder(),
    }
}

// The number a crew sees of what was checked: 0 where nothing is refused.
pub fn checked_number(checked: Result<(), Fault>) -> u32
    ensures { result ≡ checked_number checked }
{
    match checked {
        Ok(()) => 0,
        Err(fault) => fault.number(),
    }
}

// What a run answers, with what is refused before the first step by its number.
pub fn told(answer: Result<(), Refused>) -> Answered
    ensures { result ≡ told answer }
{
    match answer {
        Ok(()) => Ok(Ok(())),
        Err(Refused::Before(fault)) => Err(fault.number()),
        Err(Refused::Step(refusal)) => Ok(Err(refusal)),
    }
}

// The number a crew sees of what a run answers: 0 for a run with no refused step.
pub fn answer_number(answer: Answered) -> u32
    ensures { result ≡ answer_number answer }
{
    match answer {
        Ok(Ok(())) => 0,
        Ok(Err(refusal)) => refusal.number(),
        Err(number) => number,
    }
}

// The reason of a run that stopped at 14.
pub fn answer_reason(answer: Answered) -> Option<Reason>
    ensures { result ≡ answer_reason answer }
{
    match answer {
        Ok(Err(refusal)) => refusal.reason(),
        _ => None,
    }
}

impl Marks {
    // The marks that bytes 2-3 and bytes 18-19 of a block say.
    pub fn from_words(first: u16, second: u16) -> Marks
        ensures { result ≡ marks_from first second }
    {
        Marks {
            leaving: first == 1,
            site: second,
        }
    }

    // bytes 2-3: "bit 0 leaving; all other bits 0"
    pub fn flags(self) -> u16
        ensures { result ≡ flags self }
    {
        if self.leaving { 1 } else { 0 }
    }
}

impl Station {
    // No station: what an array holds where no station stands.
    pub fn nobody() -> Station
        ensures { result ≡ (node.nobody).station }
    {
        let marks = Marks::from_words(0, 0);
        Station {
            number: 0,
            left: None,
            right: None,
            marks,
        }
    }
}

impl Side {
    // Whether q lies on this side of p: the left of a station is below it, the right above it.
    pub fn beyond(self, p: u32, q: u32) -> bool
        ensures { result ≡ node.beyond self p q }
    {
        match self {
            Side::Left => q < p,
            Side::Right => p < q,
        }
    }
}
