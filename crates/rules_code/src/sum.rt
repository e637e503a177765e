// Firmware CRC, 0xAC.
ghost use Rattle.std.specs.Prelude.{◌≡◌, ◌≤◌};
ghost use Rattle.board.specs.Quantities.{largest_long_count};
ghost use Rattle.rules.specs.Rules.{sum_at, summing};

use board::{Address, Place, Region};
use command::{Decision, Next, Reply, Why};

// The checksum of n bytes at their place, which has to be in flash.
#[tactic(auto, unfolding(rules::specs::Rules::sum_at))]
fn sum_at(place: Option<Place>, n: usize) -> Decision
    ensures { result ≡ sum_at place n }
{
    match place {
        Some(
            Place {
                region: Region::Flash,
                at,
            },
        ) => command::show(Reply::Crc(at, n), Next::GoIdle),
        _ => command::nack(Why::BadRange),
    }
}

// The checksum of x sectors from an address on.
#[tactic(auto, unfolding(rules::specs::Rules::summing))]
pub fn sum(address: Address, x: usize) -> Decision
    requires { x ≤ largest_long_count }
    ensures { result ≡ summing address x }
{
    let n = board::quantities::bytes_in(x);
    command::accept_if(
        board::range::sector_start(address),
        sum_at(board::range::place(address, n), n),
        Why::BadAddress,
    )
}
