// What one byte of a connected host decides, step by step.
#![tactic(auto, unfolding(uart::specs::Conversation::complete, uart::specs::Conversation::addressed, uart::specs::Conversation::kept_if, uart::specs::Conversation::selected, uart::specs::Conversation::commanded, uart::specs::Conversation::obeyed))]

mod address;
mod checksum;
mod obey;

ghost use Rattle.std.specs.Prelude.{◌≡◌, ◌+◌, ◌≤◌, ◌<◌, T, ltb, length};
ghost use Rattle.board.specs.Board.{sectors};
ghost use Rattle.board.specs.Quantities.{largest_count};
ghost use Rattle.memories.specs.Effects.{staged_bytes};
ghost use Rattle.command.specs.Decision.{if◌gives◌else◌, answer};
ghost use Rattle.command.specs.declared.Next.TheVariants.{Gather};
ghost use Rattle.command.specs.declared.FixedReply.TheVariants.{Silence};
ghost use Rattle.uart.specs.Steps.{step_of, expects, complemented_byte, one_byte, expected_for, expected_for_numbers};
ghost use Rattle.uart.specs.Conversation.{awaits, selected, read_ends, selector_ends, protect_ends, crc_ends, complete};

use board::{Address, Sector, View};
use command::{Decision, FixedReply, Next, SoFar, Why};
use memories::Change;
use rules::Selector;
use rules_code::sent;
use uart::Step;

// The byte with which the checksum of Firmware CRC's count begins.
const CRC_CHECK: u8 = 0xFF;

// A count has come, and a step for so many bytes and their checksum is entered.
fn awaits(step: Step, bytes: &[u8]) -> Decision
    requires { length bytes.now ≡ staged_bytes }
    ensures { result ≡ awaits step bytes.now }
{
    command::answer(
        FixedReply::Silence,
        Next::Enter(u8::from(step), sent::count_of(bytes[0]) + 1),
    )
}

// What the selector of an erase leads to.
fn selected(selector: Selector) -> Decision
    ensures { result ≡ selected selector }
{
    match selector {
        Selector::Listed(sent) => {
            command::answer(
                FixedReply::Silence,
                Next::Enter(
                    u8::from(Step::EraseList),
                    Sector::NUMBER_BYTES * sent.count() + 1,
                ),
            )
        }
        Selector::Special(number) => command::answer(
            FixedReply::Silence,
            Next::EnterAt(
                u8::from(Step::SpecialCheck),
                uart::ONE_BYTE,
                u32::from(number),
            ),
        ),
        Selector::Impossible => command::nack(Why::BadRange),
    }
}

// The end of a command and its complement.
fn command_ends(view: View, bytes: &[u8]) -> Decision
    requires { length bytes.now ≡ staged_bytes }
    ensures { result ≡ complete Step.Idle complemented_byte 0 bytes.now view }
{
    command::accept_if(
        checksum::complemented(bytes),
        obey::commanded(view, obey::look_up(bytes[0])),
        Why::BadComplement,
    )
}

// The end of a read's length and its complement.
fn read_ends(here: SoFar<'_>) -> Decision
    requires { length here.staged.now ≡ staged_bytes }
    ensures { result ≡ read_ends here.entry.address here.entry.staged.now }
{
    command::accept_if(
        checksum::complemented(here.staged),
        rules_code::read::read(Address(here.address), sent::count_of(here.staged[0])),
        Why::BadChecksum,
    )
}

// The end of a write's data and their checksum.
fn write_ends(here: SoFar<'_>, view: View) -> Decision
    requires { (expected_for 1 ≤ here.expected) × (here.expected ≤ expected_for largest_count) × (length here.staged.now ≡ staged_bytes) }
    ensures { result ≡ complete Step.WriteData here.entry.expected here.entry.address here.entry.staged.now view }
{
    let x = here.expected - 1;
    command::accept_if(
        checksum::checks_counted(here.staged, x),
        rules_code::write::write(view, Address(here.address), x),
        Why::BadChecksum,
    )
}

// The end of an erase's selector.
fn selector_ends(bytes: &[u8]) -> Decision
    requires { length bytes.now ≡ staged_bytes }
    ensures { result ≡ selector_ends bytes.now }
{
    selected(list_rules_code::erase::selector_of(words::number2(bytes[0], bytes[1])))
}

// The end of a special erase.
fn special_ends(here: SoFar<'_>, view: View) -> Decision
    requires { length here.staged.now ≡ staged_bytes }
    ensures { result ≡ complete Step.SpecialCheck one_byte here.entry.address here.entry.staged.now view }
{
    command::accept_if(
        checksum::special_checks(here.address, here.staged[0]),
        command::judged(
            list_rules_code::erase::erase_all_verdict(view, here.address),
            command::alter(FixedReply::Ack, Change::EraseAll, Next::GoIdle),
        ),
        Why::BadChecksum,
    )
}

// The end of an erase's numbers and their checksum.
fn erase_ends(here: SoFar<'_>, view: View) -> Decision
    requires { (expected_for_numbers 1 ≤ here.expected) × (here.expected ≤ expected_for_numbers sectors.count)
        × (length here.staged.now ≡ staged_bytes) }
    ensures { result ≡ complete Step.EraseList here.entry.expected here.entry.address here.entry.staged.now view }
{
    let x = (here.expected - 1) / Sector::NUMBER_BYTES;
    command::accept_if(
        checksum::checks_numbered(here.staged, x),
        list_rules_code::erase::erase(view, here.staged, x),
        Why::BadChecksum,
    )
}

// The end of the indexes of 0x63 and their checksum.
fn protect_ends(here: SoFar<'_>) -> Decision
    requires { (expected_for 1 ≤ here.expected) × (here.expected ≤ expected_for largest_count) × (length here.staged.now ≡ staged_bytes) }
    ensures { result ≡ protect_ends here.entry.expected here.entry.staged.now }
{
    let x = here.expected - 1;
    command::accept_if(
        checksum::checks_counted(here.staged, x),
        list_rules_code::protect::protect(here.staged, x),
        Why::BadChecksum,
    )
}

// The end of Firmware CRC's count and its checksum.
fn crc_ends(address: u32, bytes: &[u8]) -> Decision
    requires { length bytes.now ≡ staged_bytes }
    ensures { result ≡ crc_ends address bytes.now }
{
    command::accept_if(
        bytes[2] == words::xor(CRC_CHECK, &bytes[..2]),
        rules_code::sum::sum(Address(address), sent::long_count(bytes[0], bytes[1])),
        Why::BadChecksum,
    )
}

// A step whose bytes are all there.
fn complete(step: Step, here: SoFar<'_>, view: View) -> Decision
    requires { T (expects step here.expected) × (length here.staged.now ≡ staged_bytes) }
    ensures { result ≡ complete step here.entry.expected here.entry.address here.entry.staged.now view }
{
    let bytes = here.staged;
    match step {
        Step::Idle => command_ends(view, bytes),
        Step::ReadAddress => address::kept(
            bytes,
            board::range::known,
            Step::ReadLength,
            uart::COMPLEMENTED_BYTE,
        ),
        Step::JumpAddress => address::jump_address(bytes),
        Step::WriteAddress => address::kept(
            bytes,
            board::range::known,
            Step::WriteLength,
            uart::ONE_BYTE,
        ),
        Step::CrcAddress => address::kept(
            bytes,
            board::range::sector_start,
            Step::CrcCount,
            uart::CHECKED_COUNT,
        ),
        Step::ReadLength => read_ends(here),
        Step::WriteLength => awaits(Step::WriteData, bytes),
        Step::WriteData => write_ends(here, view),
        Step::EraseSelector => selector_ends(bytes),
        Step::SpecialCheck => special_ends(here, view),
        Step::EraseList => erase_ends(here, view),
        Step::ProtectLength => awaits(Step::ProtectList, bytes),
        Step::ProtectList => protect_ends(here),
        Step::CrcCount => crc_ends(here.address, bytes),
    }
}

// What one more byte decides: it is gathered, or ends its step.
pub fn heard(step: u8, here: SoFar<'_>, view: View) -> Decision
    requires { (here.taken < here.expected) × T (expects (step_of step) here.expected) × (length here.staged.now ≡ staged_bytes) }
    ensures { result ≡ (if ltb (here.entry.taken + 1) here.entry.expected gives answer Silence Gather
        else complete (step_of step) here.entry.expected here.entry.address here.entry.staged.now view) }
{
    let more = here.taken + 1 < here.expected;
    if more {
        command::answer(FixedReply::Silence, Next::Gather)
    } else {
        complete(Step::of(step), here, view)
    }
}
