// Writes bytes as frames.
ghost use Rattle.std.specs.Prelude.{◌≡◌, ◌+◌, ◌≤◌, ◌<◌, length};
ghost use Rattle.words.specs.Lists.{cut};
ghost use Rattle.words.specs.Over.{put};
ghost use Rattle.frames.specs.Frames.{of_size, head_bytes, largest_byte, frame, frames};

use crate::HEAD;

// Writes a frame of an ID and a size: unused data bytes are 0.
pub fn put_frame(id: u16, bytes: &[u8], size: usize, buffer: &mut [u8], at: usize)
    requires { (length bytes.now ≤ size) × (size ≤ largest_byte) × (at + (head_bytes + size) ≤ length buffer.old) }
    ensures { buffer.new ≡ put buffer.old at (frame (of_size size) id bytes.now) }
{
    let n = bytes.len();
    let [high, low] = id.to_be_bytes();
    words::lay(buffer, at, &[high, low, n as u8]);
    words::lay(buffer, at + HEAD, bytes);
    words::fill(buffer, at + HEAD + n, size - n, 0);
}

// Writes bytes in frames of an ID and a size, so many to a frame and a last with what remains, and tells where they end.
pub fn put_frames(
    id: u16,
    bytes: &[u8],
    piece: usize,
    size: usize,
    buffer: &mut [u8],
    at: usize,
) -> usize
    requires { (0 < piece) × (piece ≤ size) × (size ≤ largest_byte)
        × (at + length (frames (of_size size) id (cut piece bytes.now)) ≤ length buffer.old) }
    ensures { (result ≡ at + length (frames (of_size size) id (cut piece bytes.now)))
        × (buffer.new ≡ put buffer.old at (frames (of_size size) id (cut piece bytes.now))) }
{
    let mut end = at;
    for part in bytes.chunks(piece) {
        put_frame(id, part, size, buffer, end);
        end += HEAD + size;
    }
    end
}
