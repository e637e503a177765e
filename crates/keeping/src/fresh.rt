// The memories of the fresh board.
ghost use Rattle.std.specs.Prelude.{◌≡◌};
ghost use Rattle.memories.specs.Memories.{fresh_memories};

use board::Board;
use memories::ERASED;

// A flash that is erased.
pub fn flash() -> [u8; Board::FLASH_BYTES]
    ensures { result ≡ fresh_memories.flash }
{
    [ERASED; Board::FLASH_BYTES]
}

// An SRAM of zeros.
pub fn sram() -> [u8; Board::SRAM_BYTES]
    ensures { result ≡ fresh_memories.sram }
{
    [0; Board::SRAM_BYTES]
}

// User system data with protection off and no sector write-protected.
pub fn usd() -> [u8; Board::USD_BYTES]
    ensures { result ≡ fresh_memories.usd }
{
    let mut usd = [ERASED; Board::USD_BYTES];
    usd[Board::PROTECTION] = Board::PROTECTION_OFF;
    usd
}
