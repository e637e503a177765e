// Write Memory, 0x31.
ghost use Rattle.std.specs.Prelude.{◌≡◌, ◌+◌, ◌≤◌, ◌<◌};
ghost use Rattle.words.specs.Lists.{any};
ghost use Rattle.board.specs.Board.{extent_of};
ghost use Rattle.board.specs.Regions.{touched};
ghost use Rattle.board.specs.View.{write_protected};
ghost use Rattle.board.specs.declared.Region.TheVariants.{Flash, Usd};
ghost use Rattle.rules.specs.Rules.{flash_verdict, usd_verdict, write_verdict, after_write, write_at, writing};

use board::{Address, Board, Place, Region, Sector, View};
use command::{Decision, FixedReply, Next, Why};
use memories::Change;

// Whether x bytes of flash from an offset on touch a write-protected sector.
fn touches_protected(view: View, at: usize, x: usize) -> bool
    requires { (0 < x) × (at + x ≤ (extent_of Flash).bytes) }
    ensures { result ≡ any (write_protected view) (touched at x) }
{
    let first = Sector::at(at);
    let last = Sector::at(at + x - 1);
    view.any_write_protected(first, (last.0 - first.0) as usize + 1)
}

// Whether x bytes may be written into flash.
fn flash_verdict(view: View, at: usize, x: usize) -> Result<(), Why>
    requires { (0 < x) × (at + x ≤ (extent_of Flash).bytes) }
    ensures { result ≡ flash_verdict view at x }
{
    let forbidden = touches_protected(view, at, x);
    if forbidden {
        return Err(Why::WriteProtected);
    }
    Ok(())
}

// Whether x bytes may be written into user system data: only the whole of it.
fn usd_verdict(at: usize, x: usize) -> Result<(), Why>
    ensures { result ≡ usd_verdict at x }
{
    let whole = (at == 0) & (x == Board::USD_BYTES);
    if !whole {
        return Err(Why::BadRange);
    }
    Ok(())
}

// Whether x bytes may be written from an address on.
#[tactic(auto, unfolding(rules::specs::Rules::write_verdict, rules::specs::Rules::write_verdict_at))]
pub fn write_verdict(view: View, address: Address, x: usize) -> Result<(), Why>
    requires { 0 < x }
    ensures { result ≡ write_verdict view address x }
{
    let known = board::range::known(address);
    if !known {
        return Err(Why::BadAddress);
    }
    let Some(place) = board::range::place(address, x) else {
        return Err(Why::BadRange);
    };
    match place.region {
        Region::Flash => flash_verdict(view, place.at, x),
        Region::Sram => Ok(()),
        Region::Usd => usd_verdict(place.at, x),
    }
}

// What follows a write into a region: user system data ends in a reset.
fn after_write(region: Region) -> Next
    ensures { result ≡ after_write region }
{
    match region {
        Region::Flash | Region::Sram => Next::GoIdle,
        Region::Usd => Next::Reset,
    }
}

// A write of x staged bytes at their place.
#[tactic(auto, unfolding(rules::specs::Rules::write_at))]
fn write_at(place: Option<Place>, x: usize) -> Decision
    ensures { result ≡ write_at place x }
{
    match place {
        Some(place) => command::alter(
            FixedReply::Ack,
            Change::Write(place.region, place.at, x),
            after_write(place.region),
        ),
        None => command::nack(Why::BadRange),
    }
}

// A write of x staged bytes from an address on, or a refusal.
#[tactic(auto, unfolding(rules::specs::Rules::writing))]
pub fn write(view: View, address: Address, x: usize) -> Decision
    requires { 0 < x }
    ensures { result ≡ writing view address x }
{
    command::judged(
        write_verdict(view, address, x),
        write_at(board::range::place(address, x), x),
    )
}
