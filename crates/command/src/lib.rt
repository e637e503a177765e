// Commands, replies, the reasons of a NACK, and decisions.
#![tactic(auto)]

pub mod code;
pub mod held;
pub mod protected;
pub mod reason;

ghost use Rattle.std.specs.Prelude.{◌≡◌};
ghost use Rattle.command.specs.Decision.{if◌gives◌else◌, answer, alter, show, nack, judged};

use board::Region;
use memories::Change;

// The commands: the papers' names, where 0x63 and 0x73 are "Erase and Program Protect" and "Unprotect".
#[derive(Clone, Copy)]
pub enum Command {
    GetCommands,
    GetVersion,
    GetDeviceId,
    ReadMemory,
    Jump,
    WriteMemory,
    Erase,
    ProgramProtect,
    ProgramUnprotect,
    AccessProtect,
    AccessUnprotect,
    FirmwareCrc,
    ResetDevice,
    Speed,
}

// Why a command is refused, with document 02's numbers.
#[derive(Clone, Copy)]
pub enum Why {
    // Bad complement of the command, or bad DLC.
    BadComplement = 1,
    UnknownCommand = 2,
    AccessProtected = 3,
    // A frame of another ID, or an empty one, while gathering.
    OtherFrame = 4,
    BadChecksum = 5,
    BadAddress = 6,
    // Bad count or range.
    BadRange = 7,
    BadSector = 8,
    WriteProtected = 9,
    UnsupportedErase = 10,
    BadSpeed = 11,
}

// What is told whatever the memories hold.
#[derive(Clone, Copy)]
pub enum FixedReply {
    Silence,
    Ack,
    AckAck,
    Nack(Why),
    AckNack(Why),
    Commands,
    Version,
    DeviceId,
}

// What is answered: what is fixed, or what is read from a memory, whose bytes are named, not held.
#[derive(Clone, Copy)]
pub enum Reply {
    Fixed(FixedReply),
    // So many bytes of a region, from an offset on.
    Data(Region, usize, usize),
    // The checksum of so many bytes of flash, from an offset on.
    Crc(usize, usize),
}

// What becomes of the session.
#[derive(Clone, Copy)]
pub enum Next {
    Stay,
    Reset,
    Gather,
    GoIdle,
    // Idle at a new speed.
    SetSpeed(u8),
    // A step by its number and what it expects; the address is kept.
    // Kept: no enum, since the steps are those of the carriers' crates, which stand above this one.
    Enter(u8, usize),
    // The same, with a new address.
    EnterAt(u8, usize, u32),
    Run(u32),
}

// How far a session has come with its step: what it has taken and what it expects, its address, and the bytes staged.
#[derive(Clone, Copy)]
pub struct SoFar<'a> {
    pub taken: usize,
    pub expected: usize,
    pub address: u32,
    pub staged: &'a [u8],
}

// What is decided on an input.
#[derive(Clone, Copy)]
pub struct Decision {
    pub reply: Reply,
    pub change: Change,
    pub next: Next,
}

// What is told, and what becomes of the session; the memories stay.
pub fn answer(told: FixedReply, next: Next) -> Decision
    ensures { result ≡ answer told next }
{
    alter(told, Change::Nothing, next)
}

// What is told of a change that is made.
pub fn alter(told: FixedReply, change: Change, next: Next) -> Decision
    ensures { result ≡ alter told change next }
{
    Decision {
        reply: Reply::Fixed(told),
        change,
        next,
    }
}

// What is read from a memory, and what becomes of the session; the memories stay.
pub fn show(reply: Reply, next: Next) -> Decision
    ensures { result ≡ show reply next }
{
    Decision {
        reply,
        change: Change::Nothing,
        next,
    }
}

// A refusal, after which the session is idle.
pub fn nack(why: Why) -> Decision
    ensures { result ≡ nack why }
{
    answer(FixedReply::Nack(why), Next::GoIdle)
}

// A decision that is accepted where a test holds, and else refused.
pub fn accept_if(good: bool, decision: Decision, why: Why) -> Decision
    ensures { result ≡ (if good gives decision else nack why) }
{
    if good { decision } else { nack(why) }
}

// A decision that a rule may forbid.
#[tactic(auto, unfolding(crate::specs::Decision::judged))]
pub fn judged(verdict: Result<(), Why>, decision: Decision) -> Decision
    ensures { result ≡ judged verdict decision }
{
    match verdict {
        Ok(()) => decision,
        Err(why) => nack(why),
    }
}
