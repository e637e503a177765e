// Prints bytes, frames, numbers and texts.
// Kept: each prints by `(out, at) -> end`. A struct of the room and its end, `page.add(text)`, would promise the same `Adds`, and besides that it still
// lends the same room: `(page.new.room.ghost_name ≡ page.old.room.ghost_name) × Adds page.old.room.now page.old.end page.new.end page.new.room.now text`.
#![tactic(auto)]

ghost use Rattle.std.specs.Prelude.{◌≡◌, ◌∷◌, ◌+◌, ◌*◌, ◌%◌, ◌≤◌, ◌<◌, length};
ghost use Rattle.words.specs.Hex.{space, field_characters};
ghost use Rattle.words.specs.Over.{put};
ghost use Rattle.frames.specs.Frames.{classic, frame_bytes, frame_in};
ghost use Rattle.desk_print.specs.Adds.{Adds};
ghost use Rattle.desk_print.specs.Digits.{digit_of, digits_of, decimal};
ghost use Rattle.desk_print.specs.Prints.{spelled, unspaced, spelled_frame, spelled_frames, number_room};

use words::SPACE;

// The character between the ID of a frame and its data.
const COLON: u8 = b':';

// The most digits of a number.
const NUMBER_ROOM: usize = 20;

// How many hex digits a byte has.
const DIGITS: usize = 2;

// The hex digit of a value.
pub fn digit(value: u8) -> u8
    requires { value < 16 }
    ensures { result ≡ digit_of value }
{
    if value < 10 {
        b'0' + value
    } else {
        b'A' - 10 + value
    }
}

// The two hex digits of a byte.
fn digits(byte: u8) -> [u8; DIGITS]
    ensures { result ≡ digits_of byte }
{
    [digit(byte / 16), digit(byte % 16)]
}

// Adds characters at a place, and tells where they end.
pub fn add(text: &[u8], out: &mut [u8], at: usize) -> usize
    requires { at + length text.now ≤ length out.old }
    ensures { Adds out.old at result out.new text.now }
{
    words::lay(out, at, text);
    at + text.len()
}

// Prints the bytes of a reply, each after one space, and tells where they end.
pub fn bytes(reply: &[u8], out: &mut [u8], at: usize) -> usize
    requires { at + length reply.now * field_characters ≤ length out.old }
    ensures { (result ≡ at + length reply.now * field_characters) × (out.new ≡ put out.old at (spelled reply.now)) }
{
    let mut end = at;
    for b in reply {
        let [high, low] = digits(*b);
        end = add(&[SPACE, high, low], out, end);
    }
    end
}

// Prints a number in decimal, and tells where it ends.
pub fn number(n: u64, out: &mut [u8], at: usize) -> usize
    requires { at + number_room ≤ length out.old }
    ensures { (result ≡ at + length (decimal n)) × (result ≤ at + number_room) × (out.new ≡ put out.old at (decimal n)) }
{
    let mut text = [0u8; NUMBER_ROOM];
    let k = io::decimal(n, &mut text);
    add(&text[..k], out, at)
}

// Prints bytes in hex, unspaced, and tells where they end.
fn unspaced(bytes: &[u8], out: &mut [u8], at: usize) -> usize
    requires { at + length bytes.now * 2 ≤ length out.old }
    ensures { (result ≡ at + length bytes.now * 2) × (out.new ≡ put out.old at (unspaced bytes.now)) }
{
    let mut end = at;
    for b in bytes {
        end = add(&digits(*b), out, end);
    }
    end
}

// Prints a frame after one space, as ID:data with its DLC bytes, and tells where it ends.
fn frame(frame: &[u8], out: &mut [u8], at: usize) -> usize
    requires { (length frame.now ≡ frame_bytes classic) × (at + 2 * frame_bytes classic ≤ length out.old) }
    ensures { (result ≡ at + length (spelled_frame (frame_in frame.now))) × (result ≤ at + 2 * frame_bytes classic)
        × (out.new ≡ put out.old at (spelled_frame (frame_in frame.now))) }
{
    let high = frame[0];
    let low = frame[1];
    let dlc = frame[2];
    let [middle, last] = digits(low);
    let begun = add(&[SPACE, digit(high % 16), middle, last, COLON], out, at);
    let end = frames::HEAD + usize::from(dlc).min(frames::CLASSIC);
    unspaced(&frame[frames::HEAD..end], out, begun)
}

// Prints the frames of a reply, and tells where they end.
pub fn frames(reply: &[u8], out: &mut [u8], at: usize) -> usize
    requires { (length reply.now % frame_bytes classic ≡ 0) × (at + 2 * length reply.now ≤ length out.old) }
    ensures { (result ≡ at + length (spelled_frames reply.now)) × (result ≤ at + 2 * length reply.now)
        × (out.new ≡ put out.old at (spelled_frames reply.now)) }
{
    let mut end = at;
    for f in reply.chunks_exact(frames::BYTES) {
        end = frame(f, out, end);
    }
    end
}
