// The changes of the memories, which specs/ says byte by byte, and the staged bytes that tell the rest of one.
#![tactic(auto)]

pub mod held;

ghost use Rattle.std.specs.Prelude.{◌≡◌, T};
ghost use Rattle.board.specs.Usd.{protection_on};
ghost use Rattle.board.specs.View.{view_of};
ghost use Rattle.memories.specs.Lent.{holds, shows};
ghost use Rattle.memories.specs.Memories.{lengths_right, proper};
ghost use Rattle.memories.specs.Effects.{no_bytes};

use board::{Board, Region, View};

// How many staged bytes there are.
pub const STAGED: usize = 257;

// An erased byte of flash.
pub const ERASED: u8 = 0xFF;

// What is done to the memories; the bytes written and the sectors named stand among the staged bytes.
#[derive(Clone, Copy)]
pub enum Change {
    Nothing,
    // So many staged bytes go into a region, from an offset on.
    Write(Region, usize, usize),
    EraseAll,
    // So many sectors, of two-byte numbers.
    EraseSectors(usize),
    // So many sectors, of one-byte indexes.
    ProtectOnly(usize),
    Release,
    Lock,
    Unlock,
}

// The three memories that a call is lent.
#[derive(Drop)]
pub struct Lent<'a> {
    pub flash: &'a mut [u8],
    pub sram: &'a mut [u8],
    pub usd: &'a mut [u8],
}

// The three memories, only to be read.
#[derive(Clone, Copy)]
pub struct Shown<'a> {
    pub flash: &'a [u8],
    pub sram: &'a [u8],
    pub usd: &'a [u8],
}

impl Lent<'_> {
    // The memories, only to be read.
    pub fn shown(&self) -> Shown<'_>
        ensures { shows result ≡ holds self.now }
    {
        Shown {
            flash: self.flash,
            sram: self.sram,
            usd: self.usd,
        }
    }

    // Whether the memories have their lengths.
    pub fn lengths_right(&self) -> bool
        ensures { result ≡ proper (holds self.now) }
    {
        lengths_right(self.flash.len(), self.sram.len(), self.usd.len())
    }

    // Whether protection is on.
    pub fn protection_on(&self) -> bool
        requires { T (proper (holds self.now)) }
        ensures { result ≡ protection_on self.now.usd.now }
    {
        board::usd::protection_on(self.usd)
    }

    // What of them the board may look at.
    pub fn view(&self) -> View
        requires { T (proper (holds self.now)) }
        ensures { result ≡ view_of self.now.usd.now }
    {
        View::of(self.usd)
    }
}

// Whether flash, SRAM and user system data of these lengths have their lengths.
pub fn lengths_right(flash: usize, sram: usize, usd: usize) -> bool
    ensures { result ≡ lengths_right flash sram usd }
{
    (flash == Board::FLASH_BYTES) & (sram == Board::SRAM_BYTES) & (usd == Board::USD_BYTES)
}

// Staged bytes that are all 0.
pub fn none_staged() -> [u8; STAGED]
    ensures { result ≡ no_bytes }
{
    words::zeros()
}
