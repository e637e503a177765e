// What a line says, and the digits of its data as a part of it.
ghost use Rattle.std.specs.Prelude.{◌≡◌, ◌+◌, ◌*◌, ◌≤◌, ◌<◌, T, length, get_or};
ghost use Rattle.words.specs.Bytes.{number};
ghost use Rattle.words.specs.Lists.{part};
ghost use Rattle.records.specs.Digits.{are_pairs, bytes_in};
ghost use Rattle.records.specs.Records.{kind_by, address_bytes, fits_kind, is_good, right_in, line_of, data_part};

use crate::{Kind, Line, digits};

// The characters before the pairs, and with the pair of the count.
const HEAD: usize = 2;

const COUNTED_FROM: usize = HEAD + 2;

// What a type digit says; none where it is no type.
fn kind_by(t: u8) -> Option<Kind>
    ensures { result ≡ kind_by t }
{
    match t {
        b'0' => Some(Kind::Header),
        b'1' | b'2' | b'3' => Some(Kind::Data),
        b'5' => Some(Kind::Count),
        b'7' | b'8' | b'9' => Some(Kind::End),
        _ => None,
    }
}

// The bytes of a type's address.
fn address_bytes(t: u8) -> usize
    ensures { (result ≡ address_bytes t) × (2 ≤ result) × (result ≤ 4) }
{
    match t {
        b'2' | b'8' => 3,
        b'3' | b'7' => 4,
        _ => 2,
    }
}

// Whether a count leaves as many bytes for data as a kind may carry.
fn fits_kind(kind: Option<Kind>, least: usize, count: usize) -> bool
    ensures { result ≡ fits_kind kind least count }
{
    match kind {
        Some(Kind::Header | Kind::Data) => least <= count,
        Some(Kind::Count | Kind::End) => count == least,
        None => false,
    }
}

// Whether a line is not bad.
pub fn is_good(line: &[u8]) -> bool
    ensures { result ≡ is_good line.now }
{
    let n = line.len();
    if n < COUNTED_FROM {
        return false;
    }
    let rest = &line[HEAD..];
    let shaped = (line[0] == b'S') & digits::are_pairs(rest);
    if !shaped {
        return false;
    }
    let t = line[1];
    let count = usize::from(digits::byte_at(rest, 0));
    (n == COUNTED_FROM + 2 * count) & fits_kind(kind_by(t), address_bytes(t) + 1, count)
}

// The number that the address bytes write.
fn address(rest: &[u8], wide: usize) -> u32
    requires { T (are_pairs rest.now) × (2 ≤ wide) × (wide ≤ 4) × (2 * wide + 2 ≤ length rest.now) }
    ensures { result ≡ number (part 1 wide (bytes_in rest.now)) }
{
    let mut number: u32 = 0;
    for i in 0..wide {
        number = number * 256 + u32::from(digits::byte_at(rest, 1 + i));
    }
    number
}

// Whether the checksum is right.
fn is_right(rest: &[u8]) -> bool
    requires { T (are_pairs rest.now) × (2 * get_or (bytes_in rest.now) 0 0 + 2 ≤ length rest.now) }
    ensures { result ≡ right_in (bytes_in rest.now) }
{
    let count = usize::from(digits::byte_at(rest, 0));
    let summed = &rest[..2 * count];
    words::is_complement(digits::sum_of(summed), digits::byte_at(rest, count))
}

// What a line says beside its data; none where it is bad.
pub fn read(line: &[u8]) -> Option<Line>
    ensures { result ≡ line_of line.now }
{
    let good = is_good(line);
    if !good {
        return None;
    }
    let t = line[1];
    let kind = kind_by(t)?;
    let rest = &line[HEAD..];
    let wide = address_bytes(t);
    let count = usize::from(digits::byte_at(rest, 0));
    Some(Line {
        kind,
        address: address(rest, wide),
        bytes: count - (wide + 1),
        right: is_right(rest),
    })
}

// The hex digits of the data of a line that is not bad, as a part of it: behind the address, before the checksum.
pub fn data_of_good(line: &[u8]) -> &[u8]
    requires { T (is_good line.now) }
    ensures { result.now ≡ data_part line.now }
{
    let start = COUNTED_FROM + 2 * address_bytes(line[1]);
    let end = line.len() - 2;
    &line[start..end]
}

// The hex digits of a line's data, as a part of it; none of a bad line.
pub fn data(line: &[u8]) -> &[u8]
    ensures { result.now ≡ data_part line.now }
{
    let good = is_good(line);
    if !good {
        return &line[..0];
    }
    data_of_good(line)
}
