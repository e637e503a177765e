// The carriers, which steps each has, and what these may expect.
#![tactic(auto)]

pub mod gather;
pub mod held;

ghost use Rattle.std.specs.Prelude.{◌≡◌};
ghost use Rattle.carriers.specs.Carriers.{carrier_no, idle_expects, step_sound};

// What a session is connected to, by its number.
#[derive(Clone, Copy)]
pub enum Carrier {
    None = 0,
    Uart = 1,
    Can = 2,
    Running = 3,
}

// The numbers of the carriers that have steps, and the largest number.
const UART: u8 = Carrier::Uart as u8;

const CAN: u8 = Carrier::Can as u8;

pub const RUNNING: u8 = Carrier::Running as u8;

// What carriers none and running expect.
pub const RESTING: usize = 1;

impl Carrier {
    // The number of the carrier.
    pub fn number(self) -> u8
        ensures { result ≡ carrier_no self }
    {
        self as u8
    }

    // What an idle session expects on the carrier.
    pub fn idle_expects(self) -> usize
        ensures { result ≡ idle_expects self }
    {
        match self {
            Carrier::None | Carrier::Running => RESTING,
            Carrier::Uart => uart::COMPLEMENTED_BYTE,
            Carrier::Can => can::ONE_FRAME,
        }
    }
}

// Whether a step is one of the carrier's of a number, and may expect this.
pub fn step_sound(carrier: u8, step: u8, expected: usize) -> bool
    ensures { result ≡ step_sound carrier step expected }
{
    match carrier {
        UART => (step < uart::STEPS) & uart::Step::of(step).expects(expected),
        CAN => (step < can::STEPS) & can::Step::of(step).expects(expected),
        _ => (step == 0) & (expected == RESTING),
    }
}
