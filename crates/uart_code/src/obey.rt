// What a command byte and its complement decide.
ghost use Rattle.std.specs.Prelude.{◌≡◌};
ghost use Rattle.command.specs.Commands.{uart_commands, look_up};
ghost use Rattle.uart.specs.Conversation.{go_on, obeyed, commanded};

use board::View;
use command::{Command, Decision, FixedReply, Next, Why, code};
use memories::Change;
use rules_code::at_once;
use uart::Step;

// The command that a byte asks for, if there is one: UART has not the one that sets the speed.
pub fn look_up(byte: u8) -> Option<Command>
    ensures { result ≡ look_up uart_commands byte }
{
    code::look_up(byte).filter(|_| byte != code::SPEED)
}

// ACK, and a step is entered.
fn go_on(step: Step, expected: usize) -> Decision
    ensures { result ≡ go_on step expected }
{
    command::answer(FixedReply::Ack, Next::Enter(u8::from(step), expected))
}

// A command's ACK, with what it asks for.
fn obeyed(command: Command) -> Decision
    ensures { result ≡ obeyed command }
{
    match command {
        Command::GetCommands => at_once::tell(FixedReply::Commands),
        Command::GetVersion => at_once::tell(FixedReply::Version),
        Command::GetDeviceId => at_once::tell(FixedReply::DeviceId),
        Command::ReadMemory => go_on(Step::ReadAddress, uart::CHECKED_ADDRESS),
        Command::Jump => go_on(Step::JumpAddress, uart::CHECKED_ADDRESS),
        Command::WriteMemory => go_on(Step::WriteAddress, uart::CHECKED_ADDRESS),
        Command::Erase => go_on(Step::EraseSelector, uart::SELECTOR_BYTES),
        Command::ProgramProtect => go_on(Step::ProtectLength, uart::ONE_BYTE),
        Command::ProgramUnprotect => at_once::alter(Change::Release),
        Command::AccessProtect => at_once::alter(Change::Lock),
        Command::AccessUnprotect => at_once::alter(Change::Unlock),
        Command::FirmwareCrc => go_on(Step::CrcAddress, uart::CHECKED_ADDRESS),
        Command::ResetDevice => at_once::reset(),
        Command::Speed => command::nack(Why::UnknownCommand),
    }
}

// A command that is known and not forbidden is obeyed.
pub fn commanded(view: View, found: Option<Command>) -> Decision
    ensures { result ≡ commanded view found }
{
    match found {
        Some(command) => rules_code::protected::unless_protected(view, command, obeyed(command)),
        None => command::nack(Why::UnknownCommand),
    }
}
