// The checksum of bytes as little-endian 32-bit words, each from its highest byte down: document 02, Wish 3.
#![tactic(auto)]

pub mod held;
mod tables;

ghost use Rattle.std.specs.Prelude.{◌≡◌, ℕ, ◌+◌, ◌*◌, ◌≤◌, ◌<◌, length, drop};
ghost use Rattle.crc.specs.Crc.{shifted_by, crc_from};
ghost use Rattle.word_crc.specs.Words.{fours_reversed, word_crc, word_fed};
ghost use Rattle.word_crc.specs.Tables.{word_at, table_count, Tables};

use tables::{TABLE, TABLES};

// How many values a byte has.
const BYTE_VALUES: u32 = 256;

// The bytes of a word.
const WORD: usize = 4;

// The bytes of two words.
const TWO_WORDS: usize = 2 * WORD;

// The word at a place.
fn word(bytes: &[u8], at: usize) -> u32
    requires { at + 3 < length bytes.now }
    ensures { result ≡ word_at at bytes.now }
{
    let lowest = bytes[at];
    let low = bytes[at + 1];
    let high = bytes[at + 2];
    let highest = bytes[at + 3];
    u32::from_le_bytes([lowest, low, high, highest])
}

// The register shifted by the bits of a word and of some bytes more: the XOR of an entry for each of its four bytes.
fn shift_word(register: u32, more: usize, tables: &[u32; TABLES]) -> u32
    requires more_bound { more + 4 ≤ table_count }
    requires tables { Tables tables.now }
    ensures { result ≡ shifted_by (more * 8 + 32) register }
{
    let lowest = more * TABLE + (register % BYTE_VALUES) as usize;
    let low = (more + 1) * TABLE + ((register >> 8) % BYTE_VALUES) as usize;
    let high = (more + 2) * TABLE + ((register >> 16) % BYTE_VALUES) as usize;
    let highest = (more + 3) * TABLE + (register >> 24) as usize;
    tables[highest] ^ (tables[high] ^ (tables[low] ^ tables[lowest]))
}

// The register with two words more.
fn take_two(register: u32, first: u32, second: u32, tables: &[u32; TABLES]) -> u32
    requires { Tables tables.now }
    ensures { result ≡ word_fed (word_fed register first) second }
{
    shift_word(register ^ first, WORD, tables) ^ shift_word(second, 0, tables)
}

// The register with fewer than two words more.
fn take_rest(register: u32, bytes: &[u8], tables: &[u32; TABLES]) -> u32
    requires bytes_len_bound { length bytes.now < 8 }
    requires tables { Tables tables.now }
    ensures { result ≡ crc_from register (fours_reversed bytes.now) }
{
    let whole = WORD <= bytes.len();
    if whole {
        let sum = shift_word(register ^ word(bytes, 0), 0, tables);
        crc::crc_from(sum, &bytes[WORD..])
    } else {
        crc::crc_from(register, bytes)
    }
}

// The checksum of some bytes as words, two words at a time.
pub fn crc(bytes: &[u8]) -> u32
    ensures { result ≡ word_crc bytes.now }
{
    let tables = tables::tables();
    let mut register = crc::START;
    let pairs = bytes.chunks_exact(TWO_WORDS);
    let rest = pairs.remainder();
    for pair in pairs {
        let first = word(pair, 0);
        let second = word(pair, WORD);
        register = take_two(register, first, second, &tables);
    }
    take_rest(register, rest, &tables)
}
