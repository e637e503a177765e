// Bytes, the numbers that they write, and slices of them.
#![tactic(auto)]

ghost use Rattle.std.specs.Prelude.{◌≡◌, [], ◌∷◌, ◌+◌, ◌≤◌, ◌<◌, eqb, length, get_or, replicate};
ghost use Rattle.std.specs.Int.Bits.{bit_and};
ghost use Rattle.words.specs.Bytes.{complement, number, xor_from};
ghost use Rattle.words.specs.Over.{over, put};

// How many bits a byte has.
pub const BYTE_BITS: usize = 8;

// The character between bytes in hex.
pub const SPACE: u8 = b' ';

// How many characters a byte in hex takes, with the space before it.
pub const FIELD: usize = 3;

// Whether the second byte is the complement of the first.
pub fn is_complement(first: u8, second: u8) -> bool
    ensures { result ≡ eqb second (complement first) }
{
    second == !first
}

// The number that two bytes write, high byte first.
pub fn number2(high: u8, low: u8) -> u16
    ensures { result ≡ number (high ∷ low ∷ []) }
{
    u16::from_be_bytes([high, low])
}

// The number that four bytes write, high byte first.
pub fn number4(a: u8, b: u8, c: u8, d: u8) -> u32
    ensures { result ≡ number (a ∷ b ∷ c ∷ d ∷ []) }
{
    u32::from_be_bytes([a, b, c, d])
}

// The first of some bytes, of which a caller thereby knows that it is below 256.
pub fn first(bytes: &[u8]) -> u8
    requires { 0 < length bytes.now }
    ensures { (result ≡ get_or bytes.now 0 0) × (result < 256) }
{
    bytes[0]
}

// The XOR of a byte and of some bytes.
pub fn xor(start: u8, bytes: &[u8]) -> u8
    ensures { result ≡ xor_from start bytes.now }
{
    bytes.iter().fold(start, |sum, byte| sum ^ *byte)
}

// Lays bytes over a memory in place of the old ones.
pub fn lay(memory: &mut [u8], at: usize, bytes: &[u8])
    requires { at + length bytes.now ≤ length memory.old }
    ensures { memory.new ≡ put memory.old at bytes.now }
{
    // Kept: `copy_from_slice` of slices that stand in a struct calls memmove, which the archive for C is not to need.
    for (i, byte) in bytes.iter().enumerate() {
        memory[at + i] = *byte;
    }
}

// Lays bytes over a memory, each joined with the old one by AND.
pub fn lay_by_and(memory: &mut [u8], at: usize, bytes: &[u8])
    requires { at + length bytes.now ≤ length memory.old }
    ensures { memory.new ≡ over bit_and memory.old at bytes.now }
{
    for (i, byte) in bytes.iter().enumerate() {
        memory[at + i] &= *byte;
    }
}

// Lays one byte n times over a memory.
pub fn fill(memory: &mut [u8], at: usize, n: usize, byte: u8)
    requires { at + n ≤ length memory.old }
    ensures { memory.new ≡ put memory.old at (replicate n byte) }
{
    memory[at..at + n].fill(byte);
}

// Room for N bytes, all 0.
pub fn zeros<const N: usize>() -> [u8; N]
    ensures zeros { result ≡ replicate N 0 }
    ensures length { length result ≡ N }
{
    [0; N]
}
