// What an address decides, by the command that it belongs to.
ghost use Rattle.std.specs.Prelude.{◌≡◌, Bool, length, get_or, take};
ghost use Rattle.board.specs.Quantities.{address_bytes, address_in};
ghost use Rattle.memories.specs.Effects.{staged_bytes};
ghost use Rattle.command.specs.Decision.{if◌gives◌else◌, nack};
ghost use Rattle.command.specs.declared.Why.TheVariants.{BadChecksum};
ghost use Rattle.rules.specs.Rules.{jumping};
ghost use Rattle.uart.specs.Conversation.{checks, addressed, kept};

use board::Address;
use command::{Decision, FixedReply, Next, Why};
use rules_code::sent;
use uart::Step;

// What is decided on an address whose XOR, the fifth byte, is right.
fn addressed(bytes: &[u8], decision: Decision) -> Decision
    requires { length bytes.now ≡ staged_bytes }
    ensures { result ≡
        (if checks (take address_bytes bytes.now) (get_or bytes.now address_bytes 0) gives decision else nack BadChecksum) }
{
    let right = bytes[sent::ADDRESS_BYTES] == words::xor(0, &bytes[..sent::ADDRESS_BYTES]);
    command::accept_if(right, decision, Why::BadChecksum)
}

// The end of an address that is kept, and a step entered, where it passes a test.
pub fn kept<F: Fn(Address) -> bool>(
    bytes: &[u8],
    passes: F,
    next: Step,
    expected: usize,
) -> Decision
    requires staged { length bytes.now ≡ staged_bytes }
    requires tested { F.pre passes (address_in bytes.now) }
    ensures { (good : Bool) × F.post passes (address_in bytes.now) good × (result ≡ addressed (kept good next expected) bytes.now) }
{
    let address = sent::address_in(bytes);
    addressed(
        bytes,
        command::accept_if(
            passes(address),
            command::answer(
                FixedReply::Ack,
                Next::EnterAt(u8::from(next), expected, address.0),
            ),
            Why::BadAddress,
        ),
    )
}

// The end of the address of 0x21.
pub fn jump_address(bytes: &[u8]) -> Decision
    requires { length bytes.now ≡ staged_bytes }
    ensures { result ≡ addressed jumping bytes.now }
{
    addressed(bytes, rules_code::jump::jump(sent::address_in(bytes)))
}
