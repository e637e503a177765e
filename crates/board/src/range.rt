// Where bytes lie: the region that holds them all, and their offset in it.
ghost use Rattle.std.specs.Prelude.{◌≡◌, find};
ghost use Rattle.board.specs.Board.{extent_of};
ghost use Rattle.board.specs.Regions.{holds, regions, place_of, known, jumpable, sector_start};

use crate::{Address, Board, Place, Region};

impl Region {
    // Every region.
    #[tactic(auto, unfolding(crate::specs::Regions::regions))]
    fn every() -> [Region; 3]
        ensures { result ≡ regions }
    {
        [Region::Flash, Region::Sram, Region::Usd]
    }

    // Whether x bytes from an address all lie in the region.
    fn holds(self, address: Address, x: usize) -> bool
        ensures { result ≡ holds (extent_of self) address x }
    {
        let extent = self.extent();
        let first = extent.first.0;
        let bytes = extent.bytes;
        if address.0 < first {
            return false;
        }
        if bytes < x {
            return false;
        }
        self.offset(address) <= bytes - x
    }
}

// The one region in which x bytes from an address all lie.
fn region(address: Address, x: usize) -> Option<Region>
    ensures { result ≡ find (λ r. holds (extent_of r) address x) regions }
{
    Region::every()
        .iter()
        .copied()
        .find(|region| region.holds(address, x))
}

// This region, and the offset of the bytes in it.
#[tactic(auto, unfolding(crate::specs::Regions::place_of))]
pub fn place(address: Address, x: usize) -> Option<Place>
    ensures { result ≡ place_of address x }
{
    region(address, x).map(|region| Place {
        region,
        at: region.offset(address),
    })
}

// Whether an address is in some region.
pub fn known(address: Address) -> bool
    ensures { result ≡ known address }
{
    place(address, 1).is_some()
}

// Whether an address is in flash or SRAM, where a jump may go.
pub fn jumpable(address: Address) -> bool
    ensures { result ≡ jumpable address }
{
    place(address, 1).is_some_and(|place| matches!(place.region, Region::Flash | Region::Sram))
}

// Whether an address is a sector start in flash.
pub fn sector_start(address: Address) -> bool
    ensures { result ≡ sector_start address }
{
    place(address, 1).is_some_and(|place| {
        matches!(place.region, Region::Flash) && place.at % Board::SECTOR_BYTES == 0
    })
}
