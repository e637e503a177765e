// Sector numbers, byte addresses and counts sent as one less, each conversion once.
ghost use Rattle.std.specs.Prelude.{◌≡◌, ◌+◌, ◌≤◌, ◌<◌, length};
ghost use Rattle.board.specs.Board.{extent_of};
ghost use Rattle.board.specs.Quantities.{largest_count, largest_long_count, count_of, one_less, bytes_in};
ghost use Rattle.board.specs.Quantities.{start_of, sector_at, is_sector, numbered_at, indexed_at, offset_in};

use crate::{Address, Board, LessOne, Region, Sector};

impl LessOne {
    // The largest count that one byte sends as one less.
    pub const LARGEST: usize = 256;

    // The count that was sent as one less.
    pub fn count(self) -> usize
        ensures { result ≡ count_of self }
    {
        usize::from(self.0) + 1
    }

    // What is sent for a count.
    pub fn of(count: usize) -> LessOne
        requires { (1 ≤ count) × (count ≤ largest_count) }
        ensures { result ≡ one_less count }
    {
        LessOne((count - 1) as u16)
    }
}

// The bytes of x whole sectors.
pub fn bytes_in(x: usize) -> usize
    requires { x ≤ largest_long_count }
    ensures { result ≡ bytes_in x }
{
    x * Board::SECTOR_BYTES
}

impl Sector {
    // How many bytes write a sector's number.
    pub const NUMBER_BYTES: usize = 2;

    // The sector whose two-byte number stands at a place.
    pub fn numbered(bytes: &[u8], at: usize) -> Sector
        requires { at + 1 < length bytes.now }
        ensures { result ≡ numbered_at bytes.now at }
    {
        Sector(words::number2(bytes[at], bytes[at + 1]))
    }

    // The sector whose one-byte index stands at a place.
    pub fn indexed(bytes: &[u8], at: usize) -> Sector
        requires { at < length bytes.now }
        ensures { result ≡ indexed_at bytes.now at }
    {
        Sector(u16::from(bytes[at]))
    }

    // Whether the board has the sector.
    pub fn exists(self) -> bool
        ensures { result ≡ is_sector self }
    {
        usize::from(self.0) < Board::SECTORS
    }

    // The offset of the sector's first byte in flash.
    pub fn start(self) -> usize
        ensures { result ≡ start_of self }
    {
        bytes_in(usize::from(self.0))
    }

    // The sector in which a byte of flash lies.
    pub fn at(offset: usize) -> Sector
        requires { offset < (extent_of Region.Flash).bytes }
        ensures { result ≡ sector_at offset }
    {
        Sector((offset / Board::SECTOR_BYTES) as u16)
    }
}

impl Region {
    // How far an address lies behind the region's first one, and 0 before it.
    pub fn offset(self, address: Address) -> usize
        ensures { result ≡ offset_in (extent_of self) address }
    {
        let extent = self.extent();
        let first = extent.first.0;
        let this = address.0;
        if this < first {
            return 0;
        }
        (this - first) as usize
    }
}
