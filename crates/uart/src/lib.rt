// The UART conversation: its steps, and the room for its replies.
#![tactic(auto)]

pub mod held;

ghost use Rattle.std.specs.Prelude.{◌≡◌, leb};
ghost use Rattle.uart.specs.Steps.{step_no, step_of, expects, before};
ghost use Rattle.uart.specs.Conversation.{uart_room};

use board::{Board, LessOne, Sector};

// The steps of the UART conversation, idle first.
#[derive(Clone, Copy)]
pub enum Step {
    Idle,
    ReadAddress,
    JumpAddress,
    WriteAddress,
    CrcAddress,
    ReadLength,
    WriteLength,
    WriteData,
    EraseSelector,
    SpecialCheck,
    EraseList,
    ProtectLength,
    ProtectList,
    CrcCount,
}

// How many steps there are.
pub const STEPS: u8 = 14;

// What a byte and its complement take.
pub const COMPLEMENTED_BYTE: usize = 2;

// What an address and its XOR take.
pub const CHECKED_ADDRESS: usize = 5;

// What one byte takes.
pub const ONE_BYTE: usize = 1;

// What two selector bytes take.
pub const SELECTOR_BYTES: usize = Sector::NUMBER_BYTES;

// What X bytes and their checksum take, for the least X and for the largest.
pub const LEAST_COUNTED: usize = 1 + 1;

pub const MOST_COUNTED: usize = LessOne::LARGEST + 1;

// What X two-byte numbers and their checksum take, for the least X and for the largest.
pub const LEAST_NUMBERED: usize = Sector::NUMBER_BYTES + 1;

pub const MOST_NUMBERED: usize = Sector::NUMBER_BYTES * Board::SECTORS + 1;

// What a count of two bytes and its checksum take.
pub const CHECKED_COUNT: usize = 3;

// The room that a reply may need: ACK and the bytes of the largest read.
pub const ROOM: usize = LessOne::LARGEST + 1;

// Whether a reply buffer of this length has the room that a reply may need.
pub fn has_room(length: usize) -> bool
    ensures { result ≡ leb uart_room length }
{
    ROOM <= length
}

impl From<Step> for u8 {
    ghost from_gives = { λ step number. number ≡ step_no step };

    // The number of the step.
    fn from(step: Step) -> u8 {
        step as u8
    }
}

impl Step {
    // The step of a number; idle where there is none.
    pub fn of(number: u8) -> Step
        ensures { result ≡ step_of number }
    {
        match number {
            1 => Step::ReadAddress,
            2 => Step::JumpAddress,
            3 => Step::WriteAddress,
            4 => Step::CrcAddress,
            5 => Step::ReadLength,
            6 => Step::WriteLength,
            7 => Step::WriteData,
            8 => Step::EraseSelector,
            9 => Step::SpecialCheck,
            10 => Step::EraseList,
            11 => Step::ProtectLength,
            12 => Step::ProtectList,
            13 => Step::CrcCount,
            _ => Step::Idle,
        }
    }

    // Whether the step may expect this many bytes.
    pub fn expects(self, n: usize) -> bool
        ensures { result ≡ expects self n }
    {
        match self {
            Step::Idle | Step::ReadLength => n == COMPLEMENTED_BYTE,
            Step::ReadAddress | Step::JumpAddress | Step::WriteAddress | Step::CrcAddress => {
                n == CHECKED_ADDRESS
            }
            Step::WriteLength | Step::SpecialCheck | Step::ProtectLength => n == ONE_BYTE,
            Step::WriteData | Step::ProtectList => (LEAST_COUNTED <= n) & (n <= MOST_COUNTED),
            Step::EraseSelector => n == SELECTOR_BYTES,
            Step::EraseList => (LEAST_NUMBERED <= n)
                & (n <= MOST_NUMBERED)
                & (n % Sector::NUMBER_BYTES == 1),
            Step::CrcCount => n == CHECKED_COUNT,
        }
    }

    // How many wire bytes of its command come before the step.
    pub fn before(self) -> usize
        ensures { result ≡ before self }
    {
        match self {
            Step::Idle => 0,
            Step::ReadAddress
            | Step::JumpAddress
            | Step::WriteAddress
            | Step::CrcAddress
            | Step::EraseSelector
            | Step::ProtectLength => COMPLEMENTED_BYTE,
            Step::ReadLength | Step::WriteLength | Step::CrcCount => {
                COMPLEMENTED_BYTE + CHECKED_ADDRESS
            }
            Step::WriteData => COMPLEMENTED_BYTE + CHECKED_ADDRESS + ONE_BYTE,
            Step::SpecialCheck | Step::EraseList => COMPLEMENTED_BYTE + SELECTOR_BYTES,
            Step::ProtectList => COMPLEMENTED_BYTE + ONE_BYTE,
        }
    }
}
