// Tells of which kind a line is.
ghost use Rattle.std.specs.Prelude.{◌≡◌, ◌&&◌, eqb, length};
ghost use Rattle.words.specs.Hex.{field_characters};
ghost use Rattle.desk_lines.specs.Lines.{are_fields, are_frame, kind_by, kind_of};

use crate::{Kind, digits};
use words::{FIELD, SPACE};

// The most characters of a line.
pub const MOST_CHARACTERS: usize = 800;

// The letter of a line that writes a frame.
pub const FRAME_LETTER: u8 = b'C';

// How many characters an ID takes, with the space before it.
pub const ID: usize = 4;

// Whether characters are one space and two hex digits.
pub fn is_field(field: &[u8]) -> bool
    ensures { result ≡ (eqb (length field.now) field_characters && are_fields field.now) }
{
    match field {
        [space, high, low] => (*space == SPACE) & digits::is_digit(*high) & digits::is_digit(*low),
        _ => false,
    }
}

// Whether characters are hex bytes, each after one space.
pub fn are_fields(rest: &[u8]) -> bool
    ensures { result ≡ are_fields rest.now }
{
    // Kept: of `chunks_exact(FIELD).all(is_field)` it stayed open that the chunks' test is the definition's.
    for field in rest.chunks_exact(FIELD) {
        let good = is_field(field);
        if !good {
            return false;
        }
    }
    rest.len() % FIELD == 0
}

// Whether characters are an ID and the hex bytes of a frame.
pub fn are_frame(rest: &[u8]) -> bool
    ensures { result ≡ are_frame rest.now }
{
    let n = rest.len();
    if n < ID {
        return false;
    }
    (rest[0] == SPACE)
        & digits::is_digit(rest[1])
        & digits::is_digit(rest[2])
        & digits::is_digit(rest[3])
        & are_fields(&rest[ID..])
        & (n <= ID + FIELD * frames::CLASSIC)
}

// What a line says by its letter and what follows it.
fn kind_by(letter: u8, rest: &[u8]) -> Kind
    ensures { result ≡ kind_by letter rest.now }
{
    let n = rest.len();
    let bytes = (letter == b'U') & (0 < n) & are_fields(rest);
    if bytes {
        return Kind::Bytes;
    }
    let power = (letter == b'P') & (n == 0);
    if power {
        return Kind::PowerOn;
    }
    let frame = (letter == FRAME_LETTER) & are_frame(rest);
    if frame { Kind::Frame } else { Kind::Other }
}

// Which kind a line is.
pub fn kind(line: &[u8]) -> Kind
    ensures { result ≡ kind_of line.now }
{
    match line {
        [letter, rest @ ..] if line.len() <= MOST_CHARACTERS => kind_by(*letter, rest),
        _ => Kind::Other,
    }
}
