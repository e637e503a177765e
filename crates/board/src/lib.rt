// The board: its constants, its regions and sectors, and the view of user system data on which it decides.
#![tactic(auto)]

pub mod constants;
pub mod held;
pub mod quantities;
pub mod range;
pub mod usd;

ghost use Rattle.std.specs.Prelude.{◌≡◌};
ghost use Rattle.board.specs.Board.{extent_of};

// The board, whose constants and constructors are in `constants`.
#[derive(Clone, Copy)]
pub struct Board;

// A byte address.
#[derive(Clone, Copy)]
pub struct Address(pub u32);

// A region's first address and its number of bytes.
#[derive(Clone, Copy)]
pub struct Extent {
    pub first: Address,
    pub bytes: usize,
}

// The sectors of the flash: how many, and how long each is.
#[derive(Clone, Copy)]
pub struct Sectors {
    pub count: usize,
    pub bytes: usize,
}

// The bytes of user system data that have a meaning.
#[derive(Clone, Copy)]
pub struct Layout {
    pub protection: usize,
    pub protection_off: u8,
    pub sector_bits: usize,
}

// The values by which a host tells the board.
#[derive(Clone, Copy)]
pub struct Identity {
    pub version: u8,
    pub bid_first: u8,
    pub bid_second: u8,
    pub product: u32,
    pub project: u8,
}

// A sector number.
#[derive(Clone, Copy)]
pub struct Sector(pub u16);

// A count sent as one less.
#[derive(Clone, Copy)]
pub struct LessOne(pub u16);

// What the board may look at when it decides: whether protection is on, and the bytes that hold the sectors' bits.
#[derive(Clone, Copy)]
pub struct View {
    pub locked: bool,
    pub bits: [u8; Board::BIT_BYTES],
}

// The three regions.
#[derive(Clone, Copy)]
pub enum Region {
    Flash,
    Sram,
    Usd,
}

// Where some bytes lie, all in one region: the region, and their offset in it.
#[derive(Clone, Copy)]
pub struct Place {
    pub region: Region,
    pub at: usize,
}

impl Region {
    // The first address and the size of the region.
    pub fn extent(self) -> Extent
        ensures { result ≡ extent_of self }
    {
        match self {
            Region::Flash => Board::flash(),
            Region::Sram => Board::sram(),
            Region::Usd => Board::usd(),
        }
    }
}
