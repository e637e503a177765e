// Numbers of four and of eight bytes in a memory, high byte first.
#![tactic(auto)]

ghost use Rattle.std.specs.Prelude.{◌≡◌, ◌+◌, ◌≤◌, length};
ghost use Rattle.words.specs.Bytes.{number, four_bytes};
ghost use Rattle.words.specs.Lists.{part};
ghost use Rattle.words.specs.Over.{put};
ghost use Rattle.numbers.specs.Numbers.{short_bytes, long_bytes, eight_bytes};

// How many bytes a short number has, and a long one.
pub const SHORT: usize = 4;

pub const LONG: usize = 8;

// The N bytes that stand at a place.
fn bytes_at<const N: usize>(memory: &[u8], at: usize) -> [u8; N]
    requires { at + N ≤ length memory.now }
    ensures { result ≡ part at N memory.now }
{
    let mut bytes = words::zeros();
    bytes.copy_from_slice(&memory[at..at + N]);
    bytes
}

// The short number that stands at a place.
// Kept: two pairs, since one over both types would need a trait with laws for u32 and usize, to save a line of each.
pub fn short_at(memory: &[u8], at: usize) -> u32
    requires { at + short_bytes ≤ length memory.now }
    ensures { result ≡ number (part at short_bytes memory.now) }
{
    u32::from_be_bytes(bytes_at(memory, at))
}

// The long number that stands at a place.
pub fn long_at(memory: &[u8], at: usize) -> usize
    requires { at + long_bytes ≤ length memory.now }
    ensures { result ≡ number (part at long_bytes memory.now) }
{
    usize::from_be_bytes(bytes_at(memory, at))
}

// Puts a short number at a place, by bytes that write it.
pub fn put_short(memory: &mut [u8], at: usize, n: u32)
    requires { at + short_bytes ≤ length memory.old }
    ensures { (memory.new ≡ put memory.old at (four_bytes n)) × (number (four_bytes n) ≡ n) }
{
    words::lay(memory, at, &n.to_be_bytes());
}

// Puts a long number at a place, by bytes that write it.
pub fn put_long(memory: &mut [u8], at: usize, n: usize)
    requires { at + long_bytes ≤ length memory.old }
    ensures { (memory.new ≡ put memory.old at (eight_bytes n)) × (number (eight_bytes n) ≡ n) }
{
    words::lay(memory, at, &n.to_be_bytes());
}
