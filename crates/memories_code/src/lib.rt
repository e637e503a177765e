// Carries a change of the memories out.
#![tactic(auto)]

ghost use Rattle.std.specs.Prelude.{◌≡◌, [], ◌+◌, ◌≤◌, ◌%◌, T, length, replicate};
ghost use Rattle.words.specs.Lists.{all};
ghost use Rattle.words.specs.Over.{put};
ghost use Rattle.board.specs.Board.{extent_of};
ghost use Rattle.board.specs.Quantities.{start_of, is_sector, selector_bytes, indexed, numbered};
ghost use Rattle.board.specs.declared.Region.TheVariants.{Flash, Usd};
ghost use Rattle.memories.specs.Lent.{holds, had, has, Same};
ghost use Rattle.memories.specs.Memories.{proper};
ghost use Rattle.memories.specs.Protection.{released, also_protected, only_protected, locked};
ghost use Rattle.memories.specs.Effects.{blank, erased, written, effect, fits};

use board::{Board, Region, Sector};
use memories::{Change, ERASED, Lent, STAGED};

// A wiped byte of SRAM.
const WIPED: u8 = 0;

// Eight sectors, all released.
const RELEASED: u8 = 0xFF;

// Byte 0 of user system data while protection is on.
const LOCKED: u8 = 0;

// Writes bytes into a region from an offset on.
fn write(lent: &mut Lent<'_>, region: Region, at: usize, bytes: &[u8])
    requires { T (proper (holds lent.old)) × (at + length bytes.now ≤ (extent_of region).bytes) }
    ensures left { has lent ≡ written region at bytes.now (had lent) }
    ensures same { Same lent }
{
    match region {
        Region::Flash => words::lay_by_and(lent.flash, at, bytes),
        Region::Sram => words::lay(lent.sram, at, bytes),
        Region::Usd => words::lay(lent.usd, at, bytes),
    }
}

// Erases one sector.
fn erase_sector(flash: &mut [u8], sector: Sector)
    requires { (length flash.old ≡ (extent_of Flash).bytes) × T (is_sector sector) }
    ensures { flash.new ≡ put flash.old (start_of sector) blank }
{
    words::fill(flash, sector.start(), Board::SECTOR_BYTES, ERASED);
}

// Erases the sectors of two-byte numbers.
fn erase_sectors(flash: &mut [u8], numbers: &[u8])
    requires { (length flash.old ≡ (extent_of Flash).bytes) × (length numbers.now % selector_bytes ≡ 0)
        × T (all is_sector (numbered numbers.now)) }
    ensures { flash.new ≡ erased flash.old (numbered numbers.now) }
{
    for number in numbers.chunks_exact(Sector::NUMBER_BYTES) {
        erase_sector(flash, Sector::numbered(number, 0));
    }
}

// Sets every byte of a memory.
fn fill_all(memory: &mut [u8], byte: u8)
    ensures { memory.new ≡ replicate (length memory.old) byte }
{
    let n = memory.len();
    words::fill(memory, 0, n, byte);
}

// Releases every sector.
fn release(usd: &mut [u8])
    requires { length usd.old ≡ (extent_of Usd).bytes }
    ensures { usd.new ≡ released usd.old }
{
    words::fill(usd, Board::SECTOR_BITS, Board::BIT_BYTES, RELEASED);
}

// Protects one sector too.
fn protect_also(usd: &mut [u8], sector: Sector)
    requires { (length usd.old ≡ (extent_of Usd).bytes) × T (is_sector sector) }
    ensures { usd.new ≡ also_protected usd.old sector }
{
    let byte = Board::SECTOR_BITS + sector.bit_index();
    let bit = sector.bit_place();
    usd[byte] = usd[byte] & !(1u8 << bit);
}

// Makes the sectors of some indexes the only protected ones.
fn protect_only(usd: &mut [u8], indexes: &[u8])
    requires { (length usd.old ≡ (extent_of Usd).bytes) × T (all is_sector (indexed indexes.now)) }
    ensures { usd.new ≡ only_protected usd.old (indexed indexes.now) }
{
    release(usd);
    for index in indexes {
        protect_also(usd, Sector::indexed(&[*index], 0));
    }
}

// Wipes flash and SRAM and turns protection off, if it is on.
fn unlock(lent: &mut Lent<'_>)
    requires { T (proper (holds lent.old)) }
    ensures left { has lent ≡ effect Change.Unlock [] (had lent) }
    ensures same { Same lent }
{
    let on = lent.protection_on();
    if on {
        fill_all(lent.flash, ERASED);
        fill_all(lent.sram, WIPED);
        lent.usd[Board::PROTECTION] = Board::PROTECTION_OFF;
    }
}

// Turns protection on.
fn lock(usd: &mut [u8])
    requires { length usd.old ≡ (extent_of Usd).bytes }
    ensures { usd.new ≡ locked usd.old }
{
    usd[Board::PROTECTION] = LOCKED;
}

// Carries out a change that can be.
#[tactic(auto, using(crate::proofs::Fits::write_fits, crate::proofs::Fits::erase_fits, crate::proofs::Fits::protect_fits))]
pub fn carry_out(change: Change, staged: &[u8; STAGED], lent: &mut Lent<'_>)
    requires { T (proper (holds lent.old)) × T (fits change staged.now) }
    ensures left { has lent ≡ effect change staged.now (had lent) }
    ensures same { Same lent }
{
    match change {
        Change::Nothing => {}
        Change::Write(region, at, x) => write(lent, region, at, &staged[..x]),
        Change::EraseAll => fill_all(lent.flash, ERASED),
        Change::EraseSectors(x) => {
            erase_sectors(lent.flash, &staged[..Sector::NUMBER_BYTES * x])
        }
        Change::ProtectOnly(x) => protect_only(lent.usd, &staged[..x]),
        Change::Release => release(lent.usd),
        Change::Lock => lock(lent.usd),
        Change::Unlock => unlock(lent),
    }
}
