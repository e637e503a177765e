// Writes a reply as CAN sends it.
ghost use Rattle.std.specs.Prelude.{◌≡◌, ◌≤◌, ◌<◌, T, length};
ghost use Rattle.memories.specs.Lent.{shows};
ghost use Rattle.memories.specs.Memories.{proper};
ghost use Rattle.command.specs.Says.{says, sayable, Said};
ghost use Rattle.frames.specs.Frames.{classic, framed, first_alone};
ghost use Rattle.can.specs.Conversation.{can_room, command_bytes};
ghost use Rattle.reply.specs.Fixed.{Lists};
ghost use Rattle.reply.specs.Pieces.{piece_of};

use crate::{ACK, LONGEST};
use command::{Reply, code};
use frames::{BYTES, CLASSIC, put};
use memories::Shown;

// n - 1, where n counts version and commands.
const N_LESS_ONE: u8 = 0x0E;

// What 0x00 tells, between two ACKs.
fn commands() -> [u8; LONGEST]
    ensures { Lists result command_bytes }
{
    crate::listing(N_LESS_ONE, code::SPEED, ACK)
}

// How many bytes of a reply go into one frame.
fn piece_of(reply: Reply) -> usize
    ensures { result ≡ piece_of reply }
{
    match reply {
        Reply::Fixed(_) => 1,
        Reply::Data(_, _, _) => CLASSIC,
        Reply::Crc(_, _) => CLASSIC,
    }
}

// Writes a reply's bytes in frames of an ID, the first by itself and the rest so many to a frame, and tells how long they are.
fn put_reply(id: u16, bytes: &[u8], piece: usize, buffer: &mut [u8]) -> usize
    requires { (0 < piece) × (piece ≤ classic.largest) × (length (first_alone classic id piece bytes.now) ≤ length buffer.old) }
    ensures { Said (first_alone classic id piece bytes.now) result buffer.old buffer.new }
{
    if bytes.len() == 0 {
        return 0;
    }
    put::put_frame(id, &bytes[..1], CLASSIC, buffer, 0);
    put::put_frames(id, &bytes[1..], piece, CLASSIC, buffer, BYTES)
}

// Writes a reply that can be given in frames of an ID, and tells its length.
pub fn say(reply: Reply, id: u16, shown: Shown<'_>, buffer: &mut [u8]) -> usize
    requires { T (proper (shows shown)) × T (sayable reply) × (can_room ≤ length buffer.old) }
    ensures { Said (framed classic id (says command_bytes reply (shows shown.entry))) result buffer.old buffer.new }
{
    let mut bytes = [0u8; uart::ROOM];
    let listed = commands();
    let n = crate::say(&listed, reply, shown, &mut bytes);
    put_reply(id, &bytes[..n], piece_of(reply), buffer)
}
