// Read Memory, 0x11.
ghost use Rattle.std.specs.Prelude.{◌≡◌};
ghost use Rattle.rules.specs.Rules.{read_at, reading};

use board::{Address, Place};
use command::{Decision, Next, Reply, Why};

// A read of x bytes at their place.
#[tactic(auto, unfolding(rules::specs::Rules::read_at))]
fn read_at(place: Option<Place>, x: usize) -> Decision
    ensures { result ≡ read_at place x }
{
    match place {
        Some(place) => command::show(Reply::Data(place.region, place.at, x), Next::GoIdle),
        None => command::nack(Why::BadRange),
    }
}

// A read of x bytes from an address on.
#[tactic(auto, unfolding(rules::specs::Rules::reading))]
pub fn read(address: Address, x: usize) -> Decision
    ensures { result ≡ reading address x }
{
    command::accept_if(
        board::range::known(address),
        read_at(board::range::place(address, x), x),
        Why::BadAddress,
    )
}
