// Program Protect: whether the listed sectors are sectors of the board.
ghost use Rattle.std.specs.Prelude.{◌≡◌, ◌≤◌, length};
ghost use Rattle.std.specs.List.{list_all};
ghost use Rattle.words.specs.Lists.{all};
ghost use Rattle.board.specs.Quantities.{sector, is_sector, indexed};
ghost use Rattle.rules.specs.Rules.{protecting};

use board::Sector;
use command::{Decision, FixedReply, Next, Why};
use memories::Change;

// Whether some indexes are all those of sectors of the board.
// Kept: beside `erase::all_exist` (d): over `&[[u8; N]]` both would fold N bytes to a number, where each is one chain now.
fn all_exist(indexes: &[u8]) -> bool
    ensures { result ≡ list_all (λ n. is_sector (sector n)) indexes.now }
{
    indexes
        .iter()
        .all(|index| Sector::indexed(&[*index], 0).exists())
}

// Whether some bytes are indexes of sectors of the board alone.
fn all_indexed(indexes: &[u8]) -> bool
    ensures { result ≡ all is_sector (indexed indexes.now) }
{
    all_exist(indexes)
}

// Protection of the x sectors whose indexes are staged alone, or a refusal.
// Kept: x beside the staged bytes (d): `Change::ProtectOnly(x)` names it, and `protect(&staged[..x])` would have to count it again.
#[tactic(auto, unfolding(rules::specs::Rules::protecting, rules::specs::Rules::protect_verdict, command::specs::Decision::judged))]
pub fn protect(staged: &[u8], x: usize) -> Decision
    requires { x ≤ length staged.now }
    ensures { result ≡ protecting staged.now x }
{
    let sectors = all_indexed(&staged[..x]);
    if !sectors {
        return command::nack(Why::BadSector);
    }
    command::alter(FixedReply::Ack, Change::ProtectOnly(x), Next::Reset)
}
