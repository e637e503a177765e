// Where a NACK falls: document 02, Wish 2.
ghost use Rattle.std.specs.Prelude.{◌≡◌, T};
ghost use Rattle.boot.specs.Session.{sound, falls_at, placed};

use crate::Session;
use carriers::Carrier;
use command::reason::NO_REASON;
use uart::Step;

impl Session {
    // Where a NACK to an input of a carrier falls: on UART at a wire byte of the command, on CAN behind the bytes gathered.
    fn falls_at(self, carrier: Carrier) -> u16
        requires { T (sound self) }
        ensures { result ≡ falls_at carrier self }
    {
        match carrier {
            Carrier::None => 0,
            Carrier::Uart => (Step::of(self.step).before() + self.expected) as u16,
            Carrier::Can => self.taken as u16,
            Carrier::Running => 0,
        }
    }

    // The place of a reason, and none where there is no NACK.
    pub(crate) fn place(self, carrier: Carrier, reason: u8) -> u16
        requires { T (sound self) }
        ensures { result ≡ placed reason (falls_at carrier self) }
    {
        if reason == NO_REASON {
            0
        } else {
            self.falls_at(carrier)
        }
    }
}
