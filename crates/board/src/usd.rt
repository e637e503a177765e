// What user system data says: protection, and one bit for each sector.
ghost use Rattle.std.specs.Prelude.{◌≡◌, ◌+◌, ◌≤◌, T, length};
ghost use Rattle.words.specs.Lists.{any};
ghost use Rattle.board.specs.Board.{extent_of, sectors};
ghost use Rattle.board.specs.Quantities.{is_sector, sectors_from};
ghost use Rattle.board.specs.Usd.{protection_on, bit_index, bit_place};
ghost use Rattle.board.specs.View.{view_of, write_protected};
ghost use Rattle.board.specs.declared.Region.TheVariants.{Usd};

use crate::{Board, Sector, View};
use words::BYTE_BITS;

// Whether protection is on.
pub fn protection_on(usd: &[u8]) -> bool
    requires { length usd.now ≡ (extent_of Usd).bytes }
    ensures { result ≡ protection_on usd.now }
{
    usd[Board::PROTECTION] != Board::PROTECTION_OFF
}

impl Sector {
    // Which of the bytes that hold the sectors' bits holds this sector's.
    pub fn bit_index(self) -> usize
        ensures { result ≡ bit_index self }
    {
        usize::from(self.0) / BYTE_BITS
    }

    // Which bit of that byte is this sector's.
    pub fn bit_place(self) -> usize
        ensures { result ≡ bit_place self }
    {
        usize::from(self.0) % BYTE_BITS
    }
}

impl View {
    // What of user system data the board may look at.
    #[tactic(auto, unfolding(crate::specs::View::view_of))]
    pub fn of(usd: &[u8]) -> View
        requires { length usd.now ≡ (extent_of Usd).bytes }
        ensures { result ≡ view_of usd.now }
    {
        let at = Board::SECTOR_BITS;
        let mut bits = [0; Board::BIT_BYTES];
        bits.copy_from_slice(&usd[at..at + Board::BIT_BYTES]);
        View {
            locked: protection_on(usd),
            bits,
        }
    }

    // Whether a sector is write-protected.
    #[tactic(auto, unfolding(crate::specs::View::write_protected))]
    pub fn write_protected(self, sector: Sector) -> bool
        ensures { result ≡ write_protected self sector }
    {
        let bits = self.bits;
        let bit = sector.bit_place();
        let byte = bits.get(sector.bit_index()).copied().unwrap_or(0);
        (byte >> bit) & 1 == 0
    }

    // Whether one of n sectors in order is write-protected.
    pub fn any_write_protected(self, first: Sector, n: usize) -> bool
        requires { first.0 + n ≤ sectors.count }
        ensures { result ≡ any (write_protected self) (sectors_from first n) }
    {
        // Kept: of `(first.0..end).any(..)` the goal stayed open, since the library gives no list of a range's items.
        for k in first.0..first.0 + n as u16 {
            if self.write_protected(Sector(k)) {
                return true;
            }
        }
        false
    }
}
