// A board's memories, taken down in a room one behind the other and brought back from it.
ghost use Rattle.std.specs.Prelude.{◌≡◌, true, T};
ghost use Rattle.memories.specs.Lent.{holds, has, Same, shows};
ghost use Rattle.memories.specs.Memories.{proper};
ghost use Rattle.keeping.specs.Kept.{in_bytes, memories_in, Fits};

use board::Board;
use memories::{Lent, Shown};

// Where SRAM and user system data begin, and how many bytes the memories are.
const SRAM_AT: usize = Board::FLASH_BYTES;

const USD_AT: usize = SRAM_AT + Board::SRAM_BYTES;

pub const MEMORIES_BYTES: usize = USD_AT + Board::USD_BYTES;

// Whether a room holds the memories.
pub fn is_held(shown: Shown<'_>, room: &[u8]) -> bool
    requires { Fits (shows shown) room.now }
    ensures held { result ≡ true → room.now ≡ in_bytes (shows shown.entry) }
    ensures only { room.now ≡ in_bytes (shows shown.entry) → result ≡ true }
{
    let first = check::same(shown.flash, &room[..SRAM_AT]);
    let second = check::same(shown.sram, &room[SRAM_AT..USD_AT]);
    let third = check::same(shown.usd, &room[USD_AT..]);
    first & second & third
}

// The bytes of the memories.
pub fn take_down(shown: Shown<'_>) -> [u8; MEMORIES_BYTES]
    requires { T (proper (shows shown)) }
    ensures { result ≡ in_bytes (shows shown.entry) }
{
    let mut room = words::zeros();
    words::lay(&mut room, 0, shown.flash);
    words::lay(&mut room, SRAM_AT, shown.sram);
    words::lay(&mut room, USD_AT, shown.usd);
    room
}

// Brings the memories back that a room holds.
pub fn bring_back(room: &[u8], lent: &mut Lent<'_>)
    requires { Fits (holds lent.old) room.now }
    ensures back { has lent ≡ memories_in room.now }
    ensures same { Same lent }
{
    lent.flash.copy_from_slice(&room[..SRAM_AT]);
    lent.sram.copy_from_slice(&room[SRAM_AT..USD_AT]);
    lent.usd.copy_from_slice(&room[USD_AT..]);
}
