// Why no command is made of a range.
ghost use Rattle.std.specs.Prelude.{◌≡◌, ◌+◌, ◌≤◌, OnOk};
ghost use Rattle.board.specs.Board.{flash};
ghost use Rattle.host.specs.Refusals.{command_room, range_refusal, write_refusal};

use board::Board;
use host::{ROOM, Refusal};

// Of a range and a room of so many bytes.
#[tactic(auto, unfolding(host::specs::Refusals::range_refusal))]
pub fn of_range(offset: usize, count: usize, room: usize) -> Result<(), Refusal>
    ensures told { result ≡ range_refusal offset count room }
    ensures inside { OnOk result ((offset + count ≤ flash.bytes) × (command_room ≤ room)) }
{
    let end = offset.saturating_add(count);
    if end > Board::FLASH_BYTES {
        return Err(Refusal::OutsideFlash);
    }
    let short = room < ROOM;
    if short {
        return Err(Refusal::ShortRoom);
    }
    Ok(())
}

// Of an image of so many bytes besides.
#[tactic(auto, unfolding(host::specs::Refusals::write_refusal))]
pub fn of_write(image: usize, offset: usize, count: usize, room: usize) -> Result<(), Refusal>
    ensures told { result ≡ write_refusal image offset count room }
    ensures inside { OnOk result ((image ≡ flash.bytes) × (offset + count ≤ flash.bytes) × (command_room ≤ room)) }
{
    if image != Board::FLASH_BYTES {
        return Err(Refusal::WrongImage);
    }
    of_range(offset, count, room)
}
