// CRC-32/MPEG-2 of bytes, bit by bit: document 01, "CRC".
#![tactic(auto)]

pub mod held;

ghost use Rattle.std.specs.Prelude.{◌≡◌};
ghost use Rattle.crc.specs.Crc.{shifted, shifted_by, fed, crc_from, crc};

// The polynomial of CRC-32/MPEG-2.
pub const POLYNOMIAL: u32 = 0x04C1_1DB7;

// The register before the first byte.
pub const START: u32 = 0xFFFF_FFFF;

// The bit that is fed first.
const HIGH_BIT: u32 = 0x8000_0000;

// The register shifted by one bit.
pub fn shift(register: u32) -> u32
    ensures { result ≡ shifted register }
{
    if register & HIGH_BIT != 0 {
        (register << 1) ^ POLYNOMIAL
    } else {
        register << 1
    }
}

// The register shifted by the eight bits of a byte.
pub fn shift_byte(register: u32) -> u32
    ensures { result ≡ shifted_by 8 register }
{
    shift(shift(shift(shift(shift(shift(shift(shift(register))))))))
}

// The register with one byte more.
fn take(register: u32, byte: u8) -> u32
    ensures { result ≡ fed register byte }
{
    shift_byte(register ^ ((byte as u32) << 24))
}

// The register with some bytes more, in their order.
pub fn crc_from(register: u32, bytes: &[u8]) -> u32
    ensures { result ≡ crc_from register bytes.now }
{
    bytes.iter().fold(register, |sum, byte| take(sum, *byte))
}

// The checksum of some bytes, in their order.
pub fn crc(bytes: &[u8]) -> u32
    ensures { result ≡ crc bytes.now }
{
    crc_from(START, bytes)
}
