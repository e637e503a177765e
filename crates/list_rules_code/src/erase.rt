// Erase: what its selector asks for, and whether the listed sectors, or all of flash, may be erased.
ghost use Rattle.std.specs.Prelude.{◌≡◌, ◌≤◌, ◌%◌, length};
ghost use Rattle.std.specs.List.{list_all, list_any};
ghost use Rattle.words.specs.Bytes.{number};
ghost use Rattle.words.specs.Lists.{any, all};
ghost use Rattle.board.specs.Quantities.{sector, is_sector, selector_bytes, numbers_bytes, numbered};
ghost use Rattle.board.specs.View.{write_protected};
ghost use Rattle.rules.specs.Rules.{selector_of, erase_verdict, erasing, erase_all_verdict};

use board::{Board, LessOne, Sector, View};
use command::{Decision, FixedReply, Next, Why};
use memories::Change;
use rules::Selector;

// The first special selector of an erase.
pub const FIRST_SPECIAL: u16 = 0xFFFB;

// The two special selectors that erase all flash.
pub const WHOLE_FLASH: u32 = 0xFFFF;

pub const FIRST_BANK: u32 = 0xFFFE;

// What two selector bytes of an erase ask for.
#[tactic(auto, unfolding(rules::specs::Rules::selector_of))]
pub fn selector_of(number: u16) -> Selector
    ensures { result ≡ selector_of number }
{
    let special = FIRST_SPECIAL <= number;
    if special {
        return Selector::Special(number);
    }
    let sent = LessOne(number);
    let listed = sent.count() <= Board::SECTORS;
    if listed {
        Selector::Listed(sent)
    } else {
        Selector::Impossible
    }
}

// The sector that a two-byte number names.
fn numbered(bytes: &[u8; Sector::NUMBER_BYTES]) -> Sector
    ensures { result ≡ sector (number bytes.now) }
{
    Sector::numbered(bytes, 0)
}

// Whether some two-byte numbers are all those of sectors of the board.
fn all_exist(numbers: &[[u8; Sector::NUMBER_BYTES]]) -> bool
    ensures { result ≡ list_all (λ n. is_sector (sector (number n))) numbers.now }
{
    numbers.iter().all(|bytes| numbered(bytes).exists())
}

// Whether one of some two-byte numbers names a write-protected sector.
fn any_protected(view: View, numbers: &[[u8; Sector::NUMBER_BYTES]]) -> bool
    ensures { result ≡ list_any (λ n. write_protected view (sector (number n))) numbers.now }
{
    numbers
        .iter()
        .any(|bytes| view.write_protected(numbered(bytes)))
}

// Whether the bytes of two-byte numbers name sectors of the board alone.
fn all_numbered(bytes: &[u8]) -> bool
    requires { length bytes.now % selector_bytes ≡ 0 }
    ensures { result ≡ all is_sector (numbered bytes.now) }
{
    all_exist(bytes.as_chunks().0)
}

// Whether the bytes of two-byte numbers name a write-protected sector.
fn any_numbered_protected(view: View, bytes: &[u8]) -> bool
    requires { length bytes.now % selector_bytes ≡ 0 }
    ensures { result ≡ any (write_protected view) (numbered bytes.now) }
{
    any_protected(view, bytes.as_chunks().0)
}

// Whether the sectors that the bytes of two-byte numbers name may be erased.
#[tactic(auto, unfolding(rules::specs::Rules::erase_verdict))]
fn erase_verdict(view: View, bytes: &[u8]) -> Result<(), Why>
    requires { length bytes.now % selector_bytes ≡ 0 }
    ensures { result ≡ erase_verdict view (numbered bytes.now) }
{
    let sectors = all_numbered(bytes);
    if !sectors {
        return Err(Why::BadSector);
    }
    let forbidden = any_numbered_protected(view, bytes);
    if forbidden {
        return Err(Why::WriteProtected);
    }
    Ok(())
}

// An erase of the x sectors whose numbers are staged, or of none.
// Kept: x beside the staged bytes (d): `Change::EraseSectors(x)` names it, and `&staged[..2 * x]` would have to be halved again.
#[tactic(auto, unfolding(rules::specs::Rules::erasing))]
pub fn erase(view: View, staged: &[u8], x: usize) -> Decision
    requires { numbers_bytes x ≤ length staged.now }
    ensures { result ≡ erasing view staged.now x }
{
    command::judged(
        erase_verdict(view, &staged[..Sector::NUMBER_BYTES * x]),
        command::alter(FixedReply::Ack, Change::EraseSectors(x), Next::GoIdle),
    )
}

// Whether a special selector may erase all flash.
#[tactic(auto, unfolding(rules::specs::Rules::erase_all_verdict))]
pub fn erase_all_verdict(view: View, number: u32) -> Result<(), Why>
    ensures { result ≡ erase_all_verdict view number }
{
    let all = (number == WHOLE_FLASH) | (number == FIRST_BANK);
    if !all {
        return Err(Why::UnsupportedErase);
    }
    let forbidden = view.any_write_protected(Sector(0), Board::SECTORS);
    if forbidden {
        return Err(Why::WriteProtected);
    }
    Ok(())
}
