// The line of a frame at the front of a text.
ghost use Rattle.std.specs.Prelude.{◌≤◌, T, IfSome, length, take};
ghost use Rattle.desk_lines.specs.Lines.{are_fields};
ghost use Rattle.desk_written.specs.First.{FrameFirst};

use desk_lines::line::{FRAME_LETTER, ID};
use desk_lines::{digits, line};
use words::{FIELD, SPACE};

// The character that ends a line.
pub const LINE_FEED: u8 = b'\n';

// The most characters of a line that writes a frame.
const LONGEST: usize = 1 + ID + FIELD * frames::CLASSIC;

// How many of the first characters are hex bytes, each after one space.
fn fields_first(rest: &[u8]) -> usize
    ensures { (result ≤ length rest.now) × T (are_fields (take result rest.now)) }
{
    let mut end = 0;
    for field in rest.chunks_exact(FIELD) {
        let good = line::is_field(field);
        if !good {
            return end;
        }
        end += FIELD;
    }
    end
}

// Where the first line ends, if it is one that writes a frame and its LF is there.
pub fn frame_first(text: &[u8]) -> Option<usize>
    ensures { IfSome result (λ end. FrameFirst text.now end) }
{
    let n = text.len();
    if n <= ID {
        return None;
    }
    let end = 1 + ID + fields_first(&text[1 + ID..]);
    if n <= end {
        return None;
    }
    let head = (text[0] == FRAME_LETTER) & (text[1] == SPACE);
    let id = digits::is_digit(text[2]) & digits::is_digit(text[3]) & digits::is_digit(text[4]);
    let good = head & id & (text[end] == LINE_FEED) & (end <= LONGEST);
    if good { Some(end) } else { None }
}
