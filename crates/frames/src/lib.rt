// CAN frames: what is one, and what it carries.
#![tactic(auto)]

pub mod put;

ghost use Rattle.std.specs.Prelude.{◌≡◌, ◌≤◌, ◌<◌, T, length, get_or};
ghost use Rattle.board.specs.Quantities.{address_bytes};
ghost use Rattle.frames.specs.Frames.{classic, head_bytes, frame_in, is_frame, carried};

// The bytes of a frame before its data: ID and DLC.
pub const HEAD: usize = 3;

// The data bytes of the largest frame of classic CAN.
pub const CLASSIC: usize = 8;

// The bytes of a frame.
pub const BYTES: usize = HEAD + CLASSIC;

// Where the DLC stands.
const DLC_PLACE: usize = 2;

// The largest ID.
const LARGEST_ID: u16 = 0x7FF;

// A frame without the data bytes that do not count.
#[derive(Clone, Copy)]
pub struct Counted<'a> {
    pub id: u16,
    pub carried: &'a [u8],
}

// The ID of a frame.
pub fn id(frame: &[u8]) -> u16
    requires { head_bytes ≤ length frame.now }
    ensures { result ≡ (frame_in frame.now).id }
{
    u16::from_be_bytes([frame[0], frame[1]])
}

// The DLC of a frame.
pub fn dlc(frame: &[u8]) -> usize
    requires { head_bytes ≤ length frame.now }
    ensures { result ≡ (frame_in frame.now).dlc }
{
    usize::from(frame[DLC_PLACE])
}

// Whether a slice holds a frame: 11 bytes, no ID over 0x7FF and no DLC over 8.
pub fn is_frame(frame: &[u8]) -> bool
    ensures { result ≡ is_frame classic frame.now }
{
    frame.len() == BYTES && id(frame) <= LARGEST_ID && dlc(frame) <= CLASSIC
}

// The data bytes of a frame that count; of the one behind an address a caller thereby knows that it is below 256.
pub fn carried(frame: &[u8]) -> &[u8]
    requires { T (is_frame classic frame.now) }
    ensures { (result.now ≡ carried (frame_in frame.now)) × (get_or result.now address_bytes 0 < 256) }
{
    &frame[HEAD..HEAD + dlc(frame)]
}
