// What a command frame decides.
ghost use Rattle.std.specs.Prelude.{◌≡◌, T, length};
ghost use Rattle.command.specs.Commands.{can_commands, look_up};
ghost use Rattle.command.specs.declared.Command.TheVariants.{ReadMemory, WriteMemory, Erase, ProgramProtect, FirmwareCrc, Speed};
ghost use Rattle.can.specs.Conversation.{dlc_fits, erased_or_not, selected, read_memory, program_protect, firmware_crc, set_speed, obeyed, commanded};

use board::{Sector, View};
use can::{LARGEST_SPEED, Step};
use command::{Command, Decision, FixedReply, Next, Why, code};
use frames::Counted;
use memories::Change;
use rules::Selector;
use rules_code::{at_once, sent};

// The DLC of an address with a count of one byte, and of two.
const ADDRESS_AND_COUNT: usize = 5;

const ADDRESS_AND_LONG_COUNT: usize = 6;

// The DLC of an address alone.
const ADDRESS_ONLY: usize = 4;

// The DLC of an erase's selector, and of a speed with its free byte.
const SELECTOR_OR_SPEED: usize = 2;

// The DLC of a count alone.
const COUNT_ONLY: usize = 1;

// Whether the DLC is the one that a command must have; the rest ignore DLC and data.
fn dlc_fits(command: Command, dlc: usize) -> bool
    ensures { result ≡ dlc_fits command dlc }
{
    match command {
        Command::ReadMemory | Command::WriteMemory => dlc == ADDRESS_AND_COUNT,
        Command::Jump => dlc == ADDRESS_ONLY,
        Command::Erase | Command::Speed => dlc == SELECTOR_OR_SPEED,
        Command::ProgramProtect => dlc == COUNT_ONLY,
        Command::FirmwareCrc => dlc == ADDRESS_AND_LONG_COUNT,
        _ => true,
    }
}

// 0x11: the bytes are sent, or refused.
fn read_memory(carried: &[u8]) -> Decision
    requires { T (dlc_fits ReadMemory (length carried.now)) }
    ensures { result ≡ read_memory carried.now }
{
    rules_code::read::read(
        sent::address_in(carried),
        sent::count_of(carried[sent::ADDRESS_BYTES]),
    )
}

// 0x31: ACK, and the data are gathered, unless the write can only be refused.
fn write_memory(view: View, carried: &[u8]) -> Decision
    requires { T (dlc_fits WriteMemory (length carried.now)) }
    ensures { result ≡ obeyed view carried.now WriteMemory }
{
    let address = sent::address_in(carried);
    let x = sent::count_of(carried[sent::ADDRESS_BYTES]);
    command::judged(
        rules_code::write::write_verdict(view, address, x),
        command::answer(
            FixedReply::Ack,
            Next::EnterAt(u8::from(Step::WriteData), x, address.0),
        ),
    )
}

// A special erase: ACK, then ACK or NACK.
fn erased_or_not(verdict: Result<(), Why>) -> Decision
    ensures { result ≡ erased_or_not verdict }
{
    match verdict {
        Ok(()) => command::alter(FixedReply::AckAck, Change::EraseAll, Next::GoIdle),
        Err(why) => command::answer(FixedReply::AckNack(why), Next::GoIdle),
    }
}

// What the selector of an erase leads to.
fn selected(view: View, selector: Selector) -> Decision
    ensures { result ≡ selected view selector }
{
    match selector {
        Selector::Listed(sent) => command::answer(
            FixedReply::Ack,
            Next::Enter(
                u8::from(Step::EraseList),
                Sector::NUMBER_BYTES * sent.count(),
            ),
        ),
        Selector::Special(number) => {
            erased_or_not(list_rules_code::erase::erase_all_verdict(view, u32::from(number)))
        }
        Selector::Impossible => command::nack(Why::BadRange),
    }
}

// 0x44: the two selector bytes decide.
fn erase(view: View, carried: &[u8]) -> Decision
    requires { T (dlc_fits Erase (length carried.now)) }
    ensures { result ≡ obeyed view carried.now Erase }
{
    selected(
        view,
        list_rules_code::erase::selector_of(words::number2(carried[0], carried[1])),
    )
}

// 0x63: ACK, and the indexes are gathered.
fn program_protect(carried: &[u8]) -> Decision
    requires { T (dlc_fits ProgramProtect (length carried.now)) }
    ensures { result ≡ program_protect carried.now }
{
    command::answer(
        FixedReply::Ack,
        Next::Enter(u8::from(Step::ProtectList), sent::count_of(carried[0])),
    )
}

// 0xAC: the checksum is sent, or refused.
fn firmware_crc(carried: &[u8]) -> Decision
    requires { T (dlc_fits FirmwareCrc (length carried.now)) }
    ensures { result ≡ firmware_crc carried.now }
{
    rules_code::sum::sum(
        sent::address_in(carried),
        sent::long_count(
            carried[sent::ADDRESS_BYTES],
            carried[sent::ADDRESS_BYTES + 1],
        ),
    )
}

// 0x03: a speed from 0 to 3 is set, and the second byte is free.
fn set_speed(carried: &[u8]) -> Decision
    requires { T (dlc_fits Speed (length carried.now)) }
    ensures { result ≡ set_speed carried.now }
{
    let speed = carried[0];
    command::accept_if(
        speed <= LARGEST_SPEED,
        command::answer(FixedReply::AckAck, Next::SetSpeed(speed)),
        Why::BadSpeed,
    )
}

// A command frame's data, and what the command asks for.
fn obeyed(view: View, carried: &[u8], command: Command) -> Decision
    requires { T (dlc_fits command (length carried.now)) }
    ensures { result ≡ obeyed view carried.now command }
{
    match command {
        Command::GetCommands => at_once::tell(FixedReply::Commands),
        Command::GetVersion => at_once::tell(FixedReply::Version),
        Command::GetDeviceId => at_once::tell(FixedReply::DeviceId),
        Command::ReadMemory => read_memory(carried),
        Command::Jump => rules_code::jump::jump(sent::address_in(carried)),
        Command::WriteMemory => write_memory(view, carried),
        Command::Erase => erase(view, carried),
        Command::ProgramProtect => program_protect(carried),
        Command::ProgramUnprotect => at_once::alter(Change::Release),
        Command::AccessProtect => at_once::alter(Change::Lock),
        Command::AccessUnprotect => at_once::alter(Change::Unlock),
        Command::FirmwareCrc => firmware_crc(carried),
        Command::ResetDevice => at_once::reset(),
        Command::Speed => set_speed(carried),
    }
}

// The command that an ID asks for, if there is one: an ID that is no byte is no command.
fn look_up(id: u16) -> Option<Command>
    ensures { result ≡ look_up can_commands id }
{
    u8::try_from(id).ok().and_then(code::look_up)
}

// A command that is known, has its DLC and is not forbidden is obeyed.
fn commanded(view: View, carried: &[u8], found: Option<Command>) -> Decision
    ensures { result ≡ commanded view carried.now found }
{
    let Some(command) = found else {
        return command::nack(Why::UnknownCommand);
    };
    let right = dlc_fits(command, carried.len());
    if !right {
        return command::nack(Why::BadComplement);
    }
    rules_code::protected::unless_protected(view, command, obeyed(view, carried, command))
}

// A command frame.
pub fn command_frame(view: View, frame: Counted<'_>) -> Decision
    ensures { result ≡ commanded view frame.entry.carried.now (look_up can_commands frame.entry.id) }
{
    commanded(view, frame.carried, look_up(frame.id))
}
