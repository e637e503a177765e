// Addresses and counts, as they are sent.
ghost use Rattle.std.specs.Prelude.{◌≡◌, [], ◌∷◌, ◌≤◌, length};
ghost use Rattle.board.specs.Quantities.{address_bytes, address_in, count_of, count_sent, largest_count, largest_long_count, less_one};

use board::{Address, LessOne};

// An address is sent in so many bytes.
pub const ADDRESS_BYTES: usize = 4;

// The address that the first four bytes write.
pub fn address_in(bytes: &[u8]) -> Address
    requires { address_bytes ≤ length bytes.now }
    ensures { result ≡ address_in bytes.now }
{
    Address(words::number4(bytes[0], bytes[1], bytes[2], bytes[3]))
}

// The count that a byte sends as one less.
pub fn count_of(byte: u8) -> usize
    ensures { (result ≡ count_of (less_one byte)) × (result ≤ largest_count) }
{
    LessOne(u16::from(byte)).count()
}

// The count that two bytes send as one less, high byte first.
pub fn long_count(high: u8, low: u8) -> usize
    ensures { (result ≡ count_sent (high ∷ low ∷ [])) × (result ≤ largest_long_count) }
{
    LessOne(words::number2(high, low)).count()
}
