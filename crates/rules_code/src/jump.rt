// Jump, 0x21.
ghost use Rattle.std.specs.Prelude.{◌≡◌};
ghost use Rattle.rules.specs.Rules.{jumping};

use board::Address;
use command::{Decision, FixedReply, Next, Why};

// A jump to an address in flash or SRAM.
#[tactic(auto, unfolding(rules::specs::Rules::jumping))]
pub fn jump(address: Address) -> Decision
    ensures { result ≡ jumping address }
{
    command::accept_if(
        board::range::jumpable(address),
        command::answer(FixedReply::Ack, Next::Run(address.0)),
        Why::BadAddress,
    )
}
