// Which number asks for which command.
ghost use Rattle.std.specs.Prelude.{◌≡◌};
ghost use Rattle.command.specs.Commands.{can_commands, look_up};

use crate::Command;

// The numbers of the commands.
pub const GET_COMMANDS: u8 = 0x00;

pub const GET_VERSION: u8 = 0x01;

pub const GET_DEVICE_ID: u8 = 0x02;

pub const SPEED: u8 = 0x03;

pub const READ_MEMORY: u8 = 0x11;

pub const JUMP: u8 = 0x21;

pub const WRITE_MEMORY: u8 = 0x31;

pub const ERASE: u8 = 0x44;

pub const PROGRAM_PROTECT: u8 = 0x63;

pub const PROGRAM_UNPROTECT: u8 = 0x73;

pub const ACCESS_PROTECT: u8 = 0x82;

pub const ACCESS_UNPROTECT: u8 = 0x92;

pub const FIRMWARE_CRC: u8 = 0xAC;

pub const RESET_DEVICE: u8 = 0xD4;

// The command of a number, if there is one.
pub fn look_up(number: u8) -> Option<Command>
    ensures { result ≡ look_up can_commands number }
{
    match number {
        GET_COMMANDS => Some(Command::GetCommands),
        GET_VERSION => Some(Command::GetVersion),
        GET_DEVICE_ID => Some(Command::GetDeviceId),
        READ_MEMORY => Some(Command::ReadMemory),
        JUMP => Some(Command::Jump),
        WRITE_MEMORY => Some(Command::WriteMemory),
        ERASE => Some(Command::Erase),
        PROGRAM_PROTECT => Some(Command::ProgramProtect),
        PROGRAM_UNPROTECT => Some(Command::ProgramUnprotect),
        ACCESS_PROTECT => Some(Command::AccessProtect),
        ACCESS_UNPROTECT => Some(Command::AccessUnprotect),
        FIRMWARE_CRC => Some(Command::FirmwareCrc),
        RESET_DEVICE => Some(Command::ResetDevice),
        SPEED => Some(Command::Speed),
        _ => None,
    }
}
