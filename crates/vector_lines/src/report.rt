// Says what a call left, as the line of an answer (docs/VECTORS.md).
ghost use Rattle.std.specs.Prelude.{◌≡◌, ◌+◌, ◌*◌, ◌≤◌, ◌<◌, length};
ghost use Rattle.words.specs.Hex.{field_characters};
ghost use Rattle.numbers.specs.Numbers.{short_bytes};
ghost use Rattle.vector_lines.specs.Sizes.{call_bytes, session_bytes, lent_bytes, reply_room, line_room};

use crate::FIELDS;
use boot::{Session, Taken};
use desk_written::first::LINE_FEED;
use memories::Shown;
use std::io::Write;

// The modulus of a digest's two sums, and how many bits each takes.
const MODULUS: u32 = 65521;

const SUM_BITS: u32 = 16;

// The room for the line of an answer: a large buffer of `io`.
const ROOM: usize = 65536;

// The character that begins the line of an answer.
const ANSWERED: u8 = b'>';

// The digest of bytes: Adler-32.
fn digest(bytes: &[u8]) -> u32 {
    let mut low = 1;
    let mut high = 0;
    for byte in bytes {
        low = (low + u32::from(*byte)) % MODULUS;
        high = (high + low) % MODULUS;
    }
    (high << SUM_BITS) | low
}

// The line of an answer as far as it is printed, in a room that is lent; its LF has room behind that.
#[derive(Drop)]
struct Line<'a> {
    text: &'a mut [u8; ROOM],
    end: usize,
    ghost room: { end < line_room },
}

impl<'a> Line<'a> {
    // A line that is begun.
    fn begun(text: &'a mut [u8; ROOM]) -> Line<'a>
        ensures { result.end ≡ 1 }
    {
        text[0] = ANSWERED;
        Line { text, end: FIELDS }
    }

    // Prints some bytes.
    fn bytes(&mut self, told: &[u8])
        requires { self.old.end + length told.now * field_characters < line_room }
        ensures { self.new.end ≡ self.old.end + length told.now * field_characters }
    {
        let at = self.end;
        let text = &mut *self.text;
        self.end = desk_print::bytes(told, text, at);
    }

    // Prints the digest of some bytes.
    fn digest(&mut self, told: &[u8])
        requires { self.old.end + short_bytes * field_characters < line_room }
        ensures { self.new.end ≡ self.old.end + short_bytes * field_characters }
    {
        self.bytes(&digest(told).to_be_bytes());
    }

    // Prints a session's numbers as they are lent and the digest of its staged bytes.
    fn session(&mut self, next: Session)
        requires { self.old.end + session_bytes * field_characters < line_room }
        ensures { self.new.end ≡ self.old.end + session_bytes * field_characters }
    {
        let mut lent = [0u8; session_bytes::LENGTH];
        session_bytes::write(next, &mut lent);
        self.bytes(&lent[..session_bytes::STAGED]);
        self.digest(&next.staged);
    }

    // Prints the numbers of a call: its cause, the reason of a NACK and its place, the length of the reply.
    fn numbers(&mut self, taken: Taken)
        requires { self.old.end + call_bytes * field_characters < line_room }
        ensures { self.new.end ≡ self.old.end + call_bytes * field_characters }
    {
        self.bytes(&[taken.number, taken.reason]);
        self.bytes(&taken.place.to_be_bytes());
        self.bytes(&taken.length.to_be_bytes());
    }

    // Prints the digests of what was lent.
    fn digests(&mut self, shown: Shown<'_>, buffer: &[u8])
        requires { self.old.end + lent_bytes * field_characters < line_room }
        ensures { self.new.end ≡ self.old.end + lent_bytes * field_characters }
    {
        self.digest(shown.flash);
        self.digest(shown.sram);
        self.digest(shown.usd);
        self.digest(buffer);
    }

    // Ends the line and writes it.
    fn write<W: Write>(self, to: &mut W) -> std::io::Result<()> {
        let end = self.end;
        let text = self.text;
        text[end] = LINE_FEED;
        to.write_all(&text[..end + 1])
    }
}

// The line that says what a call left: its cause, the reason of a NACK and its place, the reply, the session, and digests of what was lent.
fn answer<'a>(text: &'a mut [u8; ROOM], taken: Taken, shown: Shown<'_>, buffer: &[u8]) -> Line<'a>
    requires { length buffer.now ≤ reply_room }
{
    let mut line = Line::begun(text);
    line.numbers(taken);
    line.bytes(&buffer[..taken.length.min(buffer.len())]);
    line.session(taken.session);
    line.digests(shown, buffer);
    line
}

// Writes what a call left.
pub fn report<W: Write>(
    to: &mut W,
    taken: Taken,
    shown: Shown<'_>,
    buffer: &[u8],
) -> std::io::Result<()>
    requires { length buffer.now ≤ reply_room }
{
    let mut text = io::large_buffer();
    answer(&mut text, taken, shown, buffer).write(to)
}
