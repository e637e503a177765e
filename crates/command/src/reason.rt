// Why a command was refused, in document 02's numbers.
ghost use Rattle.std.specs.Prelude.{◌≡◌};
ghost use Rattle.command.specs.Why.{reason, why_in, why_of, reason_of};

use crate::{FixedReply, Reply, Why};

// The number where there is no NACK.
pub const NO_REASON: u8 = 0;

impl From<Why> for u8 {
    ghost from_gives = { λ why number. number ≡ reason why };

    // The number of the reason.
    fn from(why: Why) -> u8 {
        why as u8
    }
}

impl FixedReply {
    // The reason of the NACK in what is told, if there is one.
    pub fn why(self) -> Option<Why>
        ensures { result ≡ why_in self }
    {
        match self {
            FixedReply::Nack(why) | FixedReply::AckNack(why) => Some(why),
            _ => None,
        }
    }
}

impl Reply {
    // The reason of the NACK in a reply, if there is one.
    pub fn why(self) -> Option<Why>
        ensures { result ≡ why_of self }
    {
        match self {
            Reply::Fixed(told) => told.why(),
            Reply::Data(_, _, _) | Reply::Crc(_, _) => None,
        }
    }

    // The number of this reason.
    pub fn reason(self) -> u8
        ensures { result ≡ reason_of self }
    {
        self.why().map_or(NO_REASON, u8::from)
    }
}
