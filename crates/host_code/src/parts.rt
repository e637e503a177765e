// The part that commands share, byte by byte.
ghost use Rattle.std.specs.Prelude.{◌≡◌, [], ◌∷◌, ◌++◌, ◌≤◌};
ghost use Rattle.board.specs.Board.{flash};
ghost use Rattle.host.specs.Commands.{complemented_part, address_part};
ghost use Rattle.host.specs.Ranges.{flash_address};

use board::Board;
use host::HEAD;

// What stands first in the command for some bytes of flash: the command, the address with its XOR, and how many they are, one less.
pub fn head(command: u8, offset: usize, less: u8) -> [u8; HEAD]
    requires { offset ≤ flash.bytes }
    ensures { result ≡ complemented_part command ++ address_part (flash_address offset) ++ less ∷ [] }
{
    let [a, b, c, d] = (Board::FLASH_FIRST + offset as u32).to_be_bytes();
    [command, !command, a, b, c, d, a ^ b ^ c ^ d, less]
}
