// Eight tables of 256 entries, made of the polynomial alone: a shift is linear, so an entry is the XOR of those of its byte's bits.
ghost use Rattle.std.specs.Prelude.{◌≡◌, ◌+◌, ◌≤◌, length};
ghost use Rattle.word_crc.specs.Tables.{table_size, Tables, Doubled, Filled};

// The bits of a byte.
const BITS: usize = 8;

// The entries of a table, one for each byte.
pub const TABLE: usize = 256;

// How many tables there are, one for each byte of two words: for the shifts of one byte, of two, and so on to eight.
const COUNT: usize = 8;

// The entries of all tables, one table behind the other.
pub const TABLES: usize = COUNT * TABLE;

// The register that has the byte 1 at its high end, and nothing else.
const ONE: u32 = 0x0100_0000;

// Doubles n entries at a place: behind them the same, each XOR bit.
fn double(tables: &mut [u32], at: usize, n: usize, bit: u32)
    requires { at + n + n ≤ length tables.old }
    ensures { Doubled at n n bit tables.old tables.new }
{
    let middle = at + n;
    // Kept: both places stand in one slice, so a zip would need the slice split and cut first.
    for i in 0..n {
        tables[middle + i] = tables[at + i] ^ bit;
    }
}

// Fills the table at a place; first is its entry for the byte 1.
fn fill(tables: &mut [u32], at: usize, first: u32)
    requires { at + table_size ≤ length tables.old }
    ensures { Filled at first tables.old tables.new }
{
    tables[at] = 0;
    let mut bit = first;
    let mut n = 1;
    for _ in 0..BITS {
        double(tables, at, n, bit);
        bit = crc::shift(bit);
        n += n;
    }
}

// All tables.
pub fn tables() -> [u32; TABLES]
    ensures { Tables result }
{
    let mut tables = [0u32; TABLES];
    let mut first = crc::shift_byte(ONE);
    for m in 0..COUNT {
        fill(&mut tables, m * TABLE, first);
        first = crc::shift_byte(first);
    }
    tables
}
