// Writes a reply as UART sends it.
ghost use Rattle.std.specs.Prelude.{◌≤◌, T, length};
ghost use Rattle.words.specs.Lists.{join};
ghost use Rattle.memories.specs.Lent.{shows};
ghost use Rattle.memories.specs.Memories.{proper};
ghost use Rattle.command.specs.Says.{says, sayable, Said};
ghost use Rattle.uart.specs.Conversation.{uart_room, command_bytes};

use crate::ACK;
use command::Reply;
use memories::Shown;

// The bytes of the answer to 0x00, one less than on CAN.
const LISTED: usize = crate::LONGEST - 1;

// n, which counts version and commands.
const N: u8 = 0x0E;

// Writes a reply that can be given, and tells its length.
pub fn say(reply: Reply, shown: Shown<'_>, buffer: &mut [u8]) -> usize
    requires { T (proper (shows shown)) × T (sayable reply) × (uart_room ≤ length buffer.old) }
    ensures { Said (join (says command_bytes reply (shows shown.entry))) result buffer.old buffer.new }
{
    let commands = crate::listing(N, ACK, 0);
    crate::say(&commands[..LISTED], reply, shown, buffer)
}
