// The bytes and the frames that the characters of a line write, and a line that writes a frame at the front of a text.
#![tactic(auto)]

pub mod first;

ghost use Rattle.std.specs.Prelude.{◌≡◌, ◌*◌, ◌≤◌, T, length};
ghost use Rattle.words.specs.Hex.{field_characters};
ghost use Rattle.words.specs.Over.{put};
ghost use Rattle.frames.specs.Frames.{classic, frame_bytes};
ghost use Rattle.desk_lines.specs.Lines.{are_fields, fields, are_frame, id_in, frame_written};

use desk_lines::digits;
use desk_lines::line::ID;
use words::FIELD;

// Puts the bytes that hex bytes write at the front of a slice, and tells how many they are.
pub fn bytes(rest: &[u8], out: &mut [u8]) -> usize
    requires { T (are_fields rest.now) × (length rest.now ≤ field_characters * length out.old) }
    ensures { (result ≡ length (fields rest.now)) × (out.new ≡ put out.old 0 (fields rest.now)) }
{
    let mut count = 0;
    for field in rest.chunks_exact(FIELD) {
        out[count] = digits::byte_in(field[1], field[2]);
        count += 1;
    }
    count
}

// The ID that the characters of a frame write.
pub fn id(rest: &[u8]) -> u16
    requires { T (are_frame rest.now) }
    ensures { result ≡ id_in rest.now }
{
    words::number2(digits::value(rest[1]), digits::byte_in(rest[2], rest[3]))
}

// Makes the frame that an ID and data write.
pub fn frame(rest: &[u8], out: &mut [u8])
    requires { T (are_frame rest.now) × (length out.old ≡ frame_bytes classic) }
    ensures { out.new ≡ frame_written rest.now }
{
    let mut data = [0u8; frames::CLASSIC];
    let n = bytes(&rest[ID..], &mut data);
    frames::put::put_frame(id(rest), &data[..n], frames::CLASSIC, out, 0);
}
