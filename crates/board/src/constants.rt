// The constants of the board, proved to be the numbers of specs/Board.
ghost use Rattle.std.specs.Prelude.{◌≡◌};
ghost use Rattle.board.specs.Board.{flash, sram, usd, sectors, layout, identity};

use crate::{Address, Board, Extent, Identity, Layout, Sectors};
use words::BYTE_BITS;

impl Board {
    // The flash: its first address, its sectors and the bytes of each, and its bytes.
    pub const FLASH_FIRST: u32 = 0x0800_0000;

    pub const SECTORS: usize = 32;

    pub const SECTOR_BYTES: usize = 1024;

    pub const FLASH_BYTES: usize = Board::SECTORS * Board::SECTOR_BYTES;

    // The SRAM: its first address and its bytes.
    pub const SRAM_FIRST: u32 = 0x2000_0000;

    pub const SRAM_BYTES: usize = 8192;

    // User system data: its first address and its bytes.
    pub const USD_FIRST: u32 = 0x1FFF_F800;

    pub const USD_BYTES: usize = 64;

    // Which byte of user system data is the protection, and its value for protection off.
    pub const PROTECTION: usize = 0;

    pub const PROTECTION_OFF: u8 = 0xA5;

    // The first of the bytes of user system data that hold one bit per sector, and how many they are.
    pub const SECTOR_BITS: usize = 8;

    pub const BIT_BYTES: usize = Board::SECTORS / BYTE_BITS;

    // Protocol version, BID bytes, product ID and project ID.
    pub const VERSION: u8 = 0x20;

    pub const BID_FIRST: u8 = 0x01;

    pub const BID_SECOND: u8 = 0x07;

    pub const PRODUCT: u32 = 0x1234_5678;

    pub const PROJECT: u8 = 0x5A;

    // The flash.
    pub fn flash() -> Extent
        ensures { result ≡ flash }
    {
        Extent {
            first: Address(Board::FLASH_FIRST),
            bytes: Board::FLASH_BYTES,
        }
    }

    // The SRAM.
    pub fn sram() -> Extent
        ensures { result ≡ sram }
    {
        Extent {
            first: Address(Board::SRAM_FIRST),
            bytes: Board::SRAM_BYTES,
        }
    }

    // The user system data.
    pub fn usd() -> Extent
        ensures { result ≡ usd }
    {
        Extent {
            first: Address(Board::USD_FIRST),
            bytes: Board::USD_BYTES,
        }
    }

    // The sectors of the flash.
    pub fn sectors() -> Sectors
        ensures { result ≡ sectors }
    {
        Sectors {
            count: Board::SECTORS,
            bytes: Board::SECTOR_BYTES,
        }
    }

    // Where the protection byte and the sector bits stand in user system data.
    pub fn layout() -> Layout
        ensures { result ≡ layout }
    {
        Layout {
            protection: Board::PROTECTION,
            protection_off: Board::PROTECTION_OFF,
            sector_bits: Board::SECTOR_BITS,
        }
    }

    // What the board says of itself.
    pub fn identity() -> Identity
        ensures { result ≡ identity }
    {
        Identity {
            version: Board::VERSION,
            bid_first: Board::BID_FIRST,
            bid_second: Board::BID_SECOND,
            product: Board::PRODUCT,
            project: Board::PROJECT,
        }
    }
}
