// Where the data of a line go, with the shift added to its address.
ghost use Rattle.std.specs.Prelude.{◌≡◌, pos, ◌+ℤ◌};
ghost use Rattle.std.specs.Int.{w64};
ghost use Rattle.std.proofs.Common.{SFits};
ghost use Rattle.loading.specs.Places.{is_data, place_at, place_of};

use crate::Cause;
use board::Board;
use records::{Kind, Line};

// Whether a line of a kind carries data that are loaded.
fn is_data(kind: Kind) -> bool
    ensures { result ≡ is_data kind }
{
    matches!(kind, Kind::Data)
}

// A line's address with the shift added.
fn shifted(address: u32, shift: i16) -> i64
    ensures { (result ≡ pos address +ℤ shift) × SFits w64 result }
{
    i64::from(address) + i64::from(shift)
}

// The offset in flash at which n bytes from an address all lie there, if they do.
fn place_at(address: i64, n: usize) -> Option<usize>
    ensures { result ≡ place_at address n }
{
    if address < 0 {
        return None;
    }
    let first = Board::FLASH_FIRST as usize;
    let offset = (address as usize).checked_sub(first)?;
    let room = Board::FLASH_BYTES.checked_sub(n)?;
    if offset <= room { Some(offset) } else { None }
}

// Where a line's data go; a record without data goes nowhere, nor does a bad line.
pub fn place(read: Option<Line>, shift: i16) -> Result<Option<usize>, Cause>
    ensures { result ≡ place_of shift read }
{
    let Some(read) = read else { return Ok(None) };
    let n = read.bytes;
    let loads = is_data(read.kind) & (0 < n);
    if !loads {
        return Ok(None);
    }
    let at = place_at(shifted(read.address, shift), n);
    match at {
        Some(at) => Ok(Some(at)),
        None => Err(Cause::OutsideFlash),
    }
}
