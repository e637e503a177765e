// The sessions that may follow a session, and whether one is sound.
ghost use Rattle.std.specs.Prelude.{◌≡◌, [], ◌∷◌, ◌<◌, ◌≤◌, get_or};
ghost use Rattle.memories.specs.Effects.{staged_bytes};
ghost use Rattle.boot.specs.Session.{on, entered, idle, at_speed, rested, sound, gathered, after};
ghost use Rattle.boot.specs.Promise.{PoweredOn};

use crate::Session;
use carriers::{Carrier, RESTING, gather};
use command::Next;

// The speed at power on.
const FRESH_SPEED: u8 = 2;

impl Session {
    // A fresh session.
    pub fn power_on() -> Session
        ensures { PoweredOn result }
    {
        Session {
            carrier: Carrier::None.number(),
            step: 0,
            taken: 0,
            expected: RESTING,
            address: 0,
            speed: FRESH_SPEED,
            staged: memories::none_staged(),
        }
    }

    // The session in a step that it enters.
    fn enter(mut self, carrier: Carrier, step: u8, expected: usize, address: u32) -> Session
        ensures { result ≡ entered carrier step expected address self }
    {
        self.carrier = carrier.number();
        self.step = step;
        self.taken = 0;
        self.expected = expected;
        self.address = address;
        let staged = memories::none_staged();
        self.staged = staged;
        self
    }

    // The session gone idle on a carrier: its speed is kept, its address is 0.
    fn idle(self, carrier: Carrier) -> Session
        ensures { result ≡ idle carrier self }
    {
        self.enter(carrier, 0, carrier.idle_expects(), 0)
    }

    // The session at another speed.
    fn at_speed(mut self, speed: u8) -> Session
        ensures { result ≡ at_speed speed self }
    {
        self.speed = speed;
        self
    }

    // The session at rest on a carrier, with an address, and every other number as fresh.
    fn rest(self, carrier: Carrier, address: u32) -> Session
        ensures { result ≡ rested carrier address self }
    {
        self.enter(carrier, 0, RESTING, address)
            .at_speed(FRESH_SPEED)
    }

    // Whether the session is on a carrier.
    pub fn on(self, carrier: Carrier) -> bool
        ensures { result ≡ on carrier self }
    {
        self.carrier == carrier.number()
    }

    // Whether the session is sound.
    pub fn sound(self) -> bool
        ensures { result ≡ sound self }
    {
        (self.carrier <= carriers::RUNNING)
            & (self.speed <= can::LARGEST_SPEED)
            & carriers::step_sound(self.carrier, self.step, self.expected)
            & (self.taken < self.expected)
    }

    // The session with new bytes taken, as far as they are expected.
    pub fn gather(mut self, new: &[u8]) -> Session
        requires { (self.taken < self.expected) × (self.expected ≤ staged_bytes) }
        ensures { result ≡ gathered new.now self }
    {
        let taken = self.taken;
        let expected = self.expected;
        self.taken = gather::gather(&mut self.staged, taken, expected, new);
        self
    }

    // The session with one byte taken; of its first staged byte a caller thereby knows that it is below 256.
    pub(crate) fn gather_byte(self, byte: u8) -> Session
        requires { (self.taken < self.expected) × (self.expected ≤ staged_bytes) }
        ensures { (result ≡ gathered (byte ∷ []) self) × (get_or result.staged 0 0 < 256) }
    {
        let new = [byte];
        let taken = self.gather(&new);
        words::first(&taken.staged);
        taken
    }

    // The session after an input of a carrier, given the session with the input's bytes taken.
    pub(crate) fn after(self, carrier: Carrier, taken: Session, next: Next) -> Session
        ensures { result ≡ after carrier taken next self }
    {
        match next {
            Next::Stay => self,
            Next::Reset => self.rest(Carrier::None, 0),
            Next::Gather => taken,
            Next::GoIdle => self.idle(carrier),
            Next::SetSpeed(speed) => self.at_speed(speed).idle(carrier),
            Next::Enter(step, expected) => self.enter(carrier, step, expected, self.address),
            Next::EnterAt(step, expected, address) => self.enter(carrier, step, expected, address),
            Next::Run(address) => self.rest(Carrier::Running, address),
        }
    }
}
