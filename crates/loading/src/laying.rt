// Puts the data of lines into an image.
ghost use Rattle.std.specs.Prelude.{◌≡◌, ◌+◌, ◌≤◌, T, length};
ghost use Rattle.words.specs.Over.{put};
ghost use Rattle.board.specs.Board.{flash};
ghost use Rattle.records.specs.Digits.{are_pairs, bytes_in};
ghost use Rattle.records.specs.Records.{line_of};
ghost use Rattle.loading.specs.Loads.{loaded_by};

use crate::placing;
use records::{Line, digits, reading};

// Puts the bytes that pairs write into an image, from a place on.
fn decode(digits: &[u8], image: &mut [u8], at: usize)
    requires { T (are_pairs digits.now) × (at + length (bytes_in digits.now) ≤ length image.old) }
    ensures { image.new ≡ put image.old at (bytes_in digits.now) }
{
    for (i, pair) in digits.chunks_exact(2).enumerate() {
        image[at + i] = digits::byte_at(pair, 0);
    }
}

// Puts a line's data into an image, by what was read of the line; a bad line has none.
pub fn lay(line: &[u8], read: Option<Line>, shift: i16, image: &mut [u8])
    requires { (read ≡ line_of line.now) × (length image.old ≡ flash.bytes) }
    ensures { image.new ≡ loaded_by shift line.now image.old }
{
    match placing::place(read, shift) {
        Ok(Some(at)) => decode(reading::data_of_good(line), image, at),
        Ok(None) => {}
        Err(_) => {}
    }
}
