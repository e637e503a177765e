// Which commands are protected.
ghost use Rattle.std.specs.Prelude.{◌≡◌};
ghost use Rattle.command.specs.Commands.{protected};

use crate::Command;

// Whether a command is refused while protection is on.
pub fn is_protected(command: Command) -> bool
    ensures { result ≡ protected command }
{
    matches!(
        command,
        Command::ReadMemory
            | Command::Jump
            | Command::WriteMemory
            | Command::Erase
            | Command::ProgramProtect
            | Command::ProgramUnprotect
            | Command::AccessProtect
    )
}
