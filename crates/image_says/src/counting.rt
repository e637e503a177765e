// Counts the bytes that a file has loaded and the sectors that hold them, by their marks.
ghost use Rattle.std.specs.Prelude.{◌≡◌, ◌<◌, eqb, length, count_by};
ghost use Rattle.words.specs.Lists.{count_from};
ghost use Rattle.board.specs.Board.{flash, sectors};
ghost use Rattle.loading.specs.Loads.{mark};
ghost use Rattle.image_says.specs.Tally.{in_sector, tally_of};

use crate::Tally;
use board::Board;
use loading::judging;

// How many bytes are marked.
fn bytes(touched: &[u8]) -> usize
    ensures { result ≡ count_by (eqb mark) touched.now }
{
    touched
        .iter()
        .filter(|byte| judging::MARK == **byte)
        .count()
}

// Whether some byte of a sector is marked.
fn in_sector(touched: &[u8], k: usize) -> bool
    requires { (length touched.now ≡ flash.bytes) × (k < sectors.count) }
    ensures { result ≡ in_sector touched.now k }
{
    let first = board::quantities::bytes_in(k);
    judging::any_touched(&touched[first..first + Board::SECTOR_BYTES])
}

// In how many sectors some byte is marked.
fn sectors(touched: &[u8]) -> usize
    requires { length touched.now ≡ flash.bytes }
    ensures { result ≡ count_by (in_sector touched.now) (count_from 0 sectors.count) }
{
    (0..Board::SECTORS)
        .filter(|k| in_sector(touched, *k))
        .count()
}

// How many bytes are marked, and in how many sectors.
pub fn tally(touched: &[u8]) -> Tally
    requires { length touched.now ≡ flash.bytes }
    ensures { result ≡ tally_of touched.now }
{
    Tally {
        bytes: bytes(touched),
        sectors: sectors(touched),
    }
}
