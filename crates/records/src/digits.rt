// Hex digits, pairs of them, and the bytes that they write.
ghost use Rattle.std.specs.Prelude.{◌≡◌, ◌+◌, ◌*◌, ◌%◌, ◌<◌, T, length, get_or};
ghost use Rattle.records.specs.Digits.{is_digit, value_of, are_pairs, bytes_in};
ghost use Rattle.records.specs.Records.{sum};

// Whether a character is a hex digit, in either case.
fn is_digit(c: u8) -> bool
    ensures { result ≡ is_digit c }
{
    ((b'0' <= c) & (c <= b'9')) | ((b'A' <= c) & (c <= b'F')) | ((b'a' <= c) & (c <= b'f'))
}

// The value of a hex digit: what its low four bits count, and nine more for a letter, whose code is 64 or more.
fn value(c: u8) -> u8
    requires { T (is_digit c) }
    ensures { (result ≡ value_of c) × (result < 16) }
{
    c % 16 + c / 64 * 9
}

// Whether characters are pairs of hex digits.
pub fn are_pairs(digits: &[u8]) -> bool
    ensures { result ≡ are_pairs digits.now }
{
    let even = digits.len() % 2 == 0;
    digits.iter().fold(even, |good, c| good & is_digit(*c))
}

// Byte i of those that pairs write.
pub fn byte_at(digits: &[u8], i: usize) -> u8
    requires { T (are_pairs digits.now) × (2 * i < length digits.now) }
    ensures { (result ≡ get_or (bytes_in digits.now) i 0) × (result < 256) }
{
    value(digits[2 * i]) * 16 + value(digits[2 * i + 1])
}

// The low byte of the sum of the bytes that at most 255 pairs write.
pub fn sum_of(digits: &[u8]) -> u8
    requires { T (are_pairs digits.now) × (length digits.now < 512) }
    ensures { result ≡ sum (bytes_in digits.now) % 256 }
{
    let mut total: u32 = 0;
    for pair in digits.chunks_exact(2) {
        total += u32::from(byte_at(pair, 0));
    }
    (total % 256) as u8
}
