// Hex digits, and the byte that two of them write.
// Kept beside records::digits: a line's digits are capital (desk_lines/specs/Digits·is_digit), a record's of either case (records/specs/Digits·is_digit).
ghost use Rattle.std.specs.Prelude.{◌≡◌, ◌<◌, T};
ghost use Rattle.words.specs.Hex.{value_of};
ghost use Rattle.desk_lines.specs.Digits.{is_digit, byte_in};

// Whether a character is a capital hex digit.
pub fn is_digit(c: u8) -> bool
    ensures { result ≡ is_digit c }
{
    ((b'0' <= c) & (c <= b'9')) | ((b'A' <= c) & (c <= b'F'))
}

// The value of a hex digit.
pub fn value(c: u8) -> u8
    requires { T (is_digit c) }
    ensures { (result ≡ value_of c) × (result < 16) }
{
    if c <= b'9' { c - b'0' } else { c - b'A' + 10 }
}

// The byte that two hex digits write.
pub fn byte_in(high: u8, low: u8) -> u8
    requires { T (is_digit high) × T (is_digit low) }
    ensures { result ≡ byte_in high low }
{
    value(high) * 16 + value(low)
}
