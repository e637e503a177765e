// The system's texts for errors, as they stand in front of their numbers.
ghost use Rattle.std.specs.Prelude.{◌≤◌, length};
ghost use Rattle.io.specs.Counts.{IsPrefixLen};

use std::fmt;
use std::fmt::Write;
use std::io::Error;

// How many characters a text has at most, with its number.
pub const ROOM: usize = 128;

// What std writes between a text and its number.
const BEHIND: &[u8] = b" (os error ";

// A room for characters, and how many it holds; what goes beyond it is left out.
#[derive(Drop)]
struct Text {
    room: [u8; ROOM],
    length: usize,
    ghost within: { length ≤ 128 },
}

impl fmt::Write for Text {
    fn write_str(&mut self, s: &str) -> fmt::Result {
        let free = &mut self.room[self.length..];
        let n = free.len().min(s.len());
        free[..n].copy_from_slice(&s.as_bytes()[..n]);
        self.length += n;
        Ok(())
    }
}

// How many characters of a text stand in front of its number: all, where it has none.
fn end(text: &[u8]) -> usize
    ensures { IsPrefixLen result text.now }
{
    text.windows(BEHIND.len())
        .position(|part| part == BEHIND)
        .unwrap_or(text.len())
}

// Puts the text of an error at the start of a room, and tells how long it is.
pub fn put(error: &Error, room: &mut [u8; ROOM]) -> usize
    ensures { IsPrefixLen result room.new }
{
    let mut text = Text {
        room: [0; ROOM],
        length: 0,
    };
    let _ = write!(text, "{error}");
    *room = text.room;
    end(&room[..text.length])
}
