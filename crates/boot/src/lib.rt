// The calls of the board: its session, the causes of a refusal, and what a call hands back.
#![tactic(auto)]

pub mod decide;
pub mod gathering;
pub mod held;
pub mod place;
pub mod slice;
pub mod steps;
pub mod take;

ghost use Rattle.std.specs.Prelude.{◌≡◌, Err};
ghost use Rattle.boot.specs.Causes.{cause_no};

// The number of a call that is accepted.
pub const ACCEPTED: u8 = 0;

// Why a call is refused, with document 01's numbers.
#[derive(Clone, Copy)]
pub enum Cause {
    WrongMemory = 1,
    ShortReply = 2,
    BadFrame = 3,
    UnsoundSession = 4,
    BoardRunning = 5,
}

// What the board knows of its host between two inputs.
// Kept: carrier and step as numbers, since any session value is taken (document 01), also one whose numbers are those of no carrier and of no step.
#[derive(Clone, Copy)]
pub struct Session {
    pub carrier: u8,
    pub step: u8,
    pub taken: usize,
    pub expected: usize,
    pub address: u32,
    pub speed: u8,
    pub staged: [u8; memories::STAGED],
}

// What a call hands back: the cause's number, the length of the reply, the reason of a NACK in it and the place where it fell, the next session.
// Kept: numbers, as C has them, and CauseNumbers, ReasonsAndPlaces and SlicesAreRuns speak of them.
#[derive(Clone, Copy)]
pub struct Taken {
    pub number: u8,
    pub length: usize,
    pub reason: u8,
    pub place: u16,
    pub session: Session,
}

impl Cause {
    // The number of the cause.
    pub fn number(self) -> u8
        ensures { result ≡ cause_no (Err self) }
    {
        self as u8
    }
}
