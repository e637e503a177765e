// Numbers that arguments write.
ghost use Rattle.std.specs.Prelude.{◌≡◌, true, IsTrue, ◌≤◌, ◌<◌, eqb, length, get_or};
ghost use Rattle.words.specs.Lists.{all};
ghost use Rattle.image_files.specs.Arguments.{is_decimal, value_from, number_in, minus, shift_by, shift_in};

// The most digits of a number.
const DIGITS: usize = 5;

// Whether every character is a decimal digit.
fn are_decimal(text: &[u8]) -> bool
    ensures { result ≡ all is_decimal text.now }
{
    text.iter().all(|c| (b'0' <= *c) & (*c <= b'9'))
}

// The number that at most five decimal digits write.
fn value(digits: &[u8]) -> u32
    requires { (all is_decimal digits.now ≡ true) × (length digits.now ≤ 5) }
    ensures { result ≡ value_from 0 digits.now }
{
    let mut value: u32 = 0;
    for digit in digits {
        value = value * 10 + u32::from(*digit - b'0');
    }
    value
}

// The number that a text writes, if it writes one.
pub fn number(text: &[u8]) -> Option<u32>
    ensures { result ≡ number_in text.now }
{
    let n = text.len();
    let writes = (1 <= n) & (n <= DIGITS) & are_decimal(text);
    if writes { Some(value(text)) } else { None }
}

// The shift by a number behind a minus or without one, if it is within its limit.
fn shift_by(number: u32, minus: bool) -> Option<i16>
    ensures { result ≡ shift_by minus number }
{
    let by = i64::from(number);
    i16::try_from(if minus { -by } else { by }).ok()
}

// Whether a text begins with a minus.
fn is_negative(text: &[u8]) -> bool
    ensures minus { result ≡ eqb (get_or text.now 0 0) minus }
    ensures there { IsTrue result → 0 < length text.now }
{
    matches!(text, [b'-', ..])
}

// The shift that a text writes, if it writes one.
pub fn shift(text: &[u8]) -> Option<i16>
    ensures { result ≡ shift_in text.now }
{
    let minus = is_negative(text);
    if minus {
        shift_by(number(&text[1..])?, true)
    } else {
        shift_by(number(text)?, false)
    }
}
