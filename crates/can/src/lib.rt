// The CAN conversation: its steps, the room for its replies, the ID that they bear, and how frames are gathered.
#![tactic(auto)]

pub mod held;

ghost use Rattle.std.specs.Prelude.{◌≡◌, not, ◌||◌, ◌≤◌, ◌<◌, length, eqb, leb};
ghost use Rattle.board.specs.Quantities.{largest_count};
ghost use Rattle.command.specs.Decision.{if◌gives◌else◌, answer, nack};
ghost use Rattle.command.specs.declared.Next.TheVariants.{Gather};
ghost use Rattle.command.specs.declared.FixedReply.TheVariants.{Silence};
ghost use Rattle.command.specs.declared.Why.TheVariants.{BadRange, OtherFrame};
ghost use Rattle.command.specs.Progress.{progress_of, short, overfull};
ghost use Rattle.frames.specs.Frames.{classic};
ghost use Rattle.can.specs.Steps.{step_no, step_of, expects};
ghost use Rattle.can.specs.Conversation.{bears, can_room};

use board::{Board, LessOne, Sector};
use command::{Decision, FixedReply, Next, SoFar, Why, code};
use frames::Counted;

// The steps of the CAN conversation, idle first.
// Kept: a type of its own beside uart::Step (d): a trait of both has only `of` and `expects`, and each body is its own table of cases.
#[derive(Clone, Copy)]
pub enum Step {
    Idle,
    WriteData,
    EraseList,
    ProtectList,
}

// How many steps there are.
pub const STEPS: u8 = 4;

// What an idle session expects: one command frame.
pub const ONE_FRAME: usize = 1;

// The largest speed.
pub const LARGEST_SPEED: u8 = 3;

// The room that a reply may need, in frames.
pub const ROOM: usize = 363;

// Whether a reply buffer of this length has the room that a reply may need.
// Kept: twin of uart::has_room (d): one `has_room(room, length)` is `room <= length`, which is no plainer than the call.
pub fn has_room(length: usize) -> bool
    ensures { result ≡ leb can_room length }
{
    ROOM <= length
}

impl From<Step> for u8 {
    ghost from_gives = { λ step number. number ≡ step_no step };

    // The number of the step.
    fn from(step: Step) -> u8 {
        step as u8
    }
}

impl Step {
    // The step of a number; idle where there is none.
    pub fn of(number: u8) -> Step
        ensures { result ≡ step_of number }
    {
        match number {
            1 => Step::WriteData,
            2 => Step::EraseList,
            3 => Step::ProtectList,
            _ => Step::Idle,
        }
    }

    // Whether the step may expect this many frames or bytes.
    pub fn expects(self, n: usize) -> bool
        ensures { result ≡ expects self n }
    {
        match self {
            Step::Idle => n == ONE_FRAME,
            Step::WriteData | Step::ProtectList => (1 <= n) & (n <= LessOne::LARGEST),
            Step::EraseList => (Sector::NUMBER_BYTES <= n)
                & (n <= Sector::NUMBER_BYTES * Board::SECTORS)
                & (n % Sector::NUMBER_BYTES == 0),
        }
    }
}

// The ID that replies bear: the frame's own, or while gathering the running one.
pub fn bears(step: u8, id: u16) -> u16
    ensures { result ≡ bears (step_of step) id }
{
    match Step::of(step) {
        Step::Idle => id,
        Step::WriteData => u16::from(code::WRITE_MEMORY),
        Step::EraseList => u16::from(code::ERASE),
        Step::ProtectList => u16::from(code::PROGRAM_PROTECT),
    }
}

// A frame that comes while gathering: one of another ID, or empty, ends the command and is not used; others are gathered until all bytes are there.
pub fn gathering(running: u8, here: SoFar<'_>, frame: Counted<'_>, done: Decision) -> Decision
    requires { (here.taken < here.expected) × (here.expected ≤ largest_count) × (length frame.carried.now ≤ classic.largest) }
    ensures { result ≡
        (if not (eqb frame.entry.id running) || eqb (length frame.entry.carried.now) 0 gives nack OtherFrame
        else if short (progress_of here.entry) frame.entry.carried.now gives answer Silence Gather else done) }
{
    let other = (frame.id != u16::from(running)) | frame.carried.is_empty();
    if other {
        return command::nack(Why::OtherFrame);
    }
    let more = here.taken + frame.carried.len() < here.expected;
    if more {
        command::answer(FixedReply::Silence, Next::Gather)
    } else {
        done
    }
}

// A decision on a list, unless its last frame has extra bytes.
pub fn unless_extra(here: SoFar<'_>, frame: Counted<'_>, decision: Decision) -> Decision
    requires { (here.taken < here.expected) × (here.expected ≤ largest_count) × (length frame.carried.now ≤ classic.largest) }
    ensures { result ≡ (if overfull (progress_of here.entry) frame.entry.carried.now gives nack BadRange else decision) }
{
    let extra = here.expected < here.taken + frame.carried.len();
    if extra {
        command::nack(Why::BadRange)
    } else {
        decision
    }
}
