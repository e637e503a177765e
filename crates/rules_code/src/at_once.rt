// Commands that are answered as soon as they are asked for.
ghost use Rattle.std.specs.Prelude.{◌≡◌};
ghost use Rattle.rules.specs.Rules.{telling, altering, resetting};

use command::{Decision, FixedReply, Next};
use memories::Change;

// 0x00, 0x01 and 0x02 are answered at once.
pub fn tell(told: FixedReply) -> Decision
    ensures { result ≡ telling told }
{
    command::answer(told, Next::GoIdle)
}

// 0x73 releases every sector, 0x82 sets protection on, 0x92 sets protection off and wipes: the change is made, then reset.
pub fn alter(change: Change) -> Decision
    ensures { result ≡ altering change }
{
    command::alter(FixedReply::AckAck, change, Next::Reset)
}

// 0xD4 resets.
pub fn reset() -> Decision
    ensures { result ≡ resetting }
{
    command::answer(FixedReply::AckAck, Next::Reset)
}
