// The host's half of a talk on UART: what a command for a range of flash is, why none is made, and what is told of one.
#![tactic(auto)]

pub mod held;

ghost use Rattle.std.specs.Prelude.{◌≡◌};
ghost use Rattle.host.specs.Refusals.{refusal_no, tested_no};

use board::LessOne;

// The data bytes of a command at most.
pub const LARGEST: usize = LessOne::LARGEST;

// The bytes of a write command before its data: the command, its address and how many they are.
pub const HEAD: usize = uart::COMPLEMENTED_BYTE + uart::CHECKED_ADDRESS + uart::ONE_BYTE;

// The room that must be lent for a command.
pub const ROOM: usize = HEAD + LARGEST + 1;

// Why no command is made, by the number of each.
#[derive(Clone, Copy, Debug, PartialEq, Eq)]
pub enum Refusal {
    WrongImage = 1,
    OutsideFlash,
    ShortRoom,
}

// What is told of a command: its length, and how many bytes of the range it is for; both are 0 of an empty range.
#[derive(Clone, Copy, Debug, PartialEq, Eq, Default)]
pub struct Made {
    pub length: usize,
    pub carried: usize,
}

// The number of what is accepted.
const ACCEPTED: u8 = 0;

impl Refusal {
    // The number of the refusal.
    pub fn number(self) -> u8
        ensures { result ≡ refusal_no self }
    {
        self as u8
    }
}

// The number of what is told of a command: that of its refusal, and 0 where one is made.
pub fn number(told: Result<Made, Refusal>) -> u8
    ensures { result ≡ tested_no told }
{
    match told {
        Ok(_) => ACCEPTED,
        Err(refusal) => refusal.number(),
    }
}
