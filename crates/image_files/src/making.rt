// Makes an image of an S-record file, over erased flash or an older image.
ghost use Rattle.std.specs.Prelude.{◌≡◌, ◌≤◌, length};
ghost use Rattle.std.specs.Io.{ReadsAtMost};
ghost use Rattle.board.specs.Board.{flash};

use board::Board;
use files::Said;
use files::system::System;

// How many characters an S-record file has at most.
pub const TEXT: usize = 2097152;

// The bytes of a room for an image, of one for a text, and of one for what is said.
const IMAGE_ROOM: usize = Board::FLASH_BYTES + 1;

const TEXT_ROOM: usize = TEXT + 1;

const SAID_ROOM: usize = files::NAME + image_says::ROOM;

// The byte that erased flash holds.
const ERASED: u8 = 0xFF;

// Room for an image, erased, and a byte more.
pub fn erased() -> [u8; IMAGE_ROOM]
    ensures { 32769 ≡ length result }
{
    [ERASED; IMAGE_ROOM]
}

// Room for a text, and a character more.
pub fn text_room() -> [u8; TEXT_ROOM]
    ensures { 2097153 ≡ length result }
{
    words::zeros()
}

// Room for what is said.
pub fn said_room() -> [u8; SAID_ROOM]
    ensures { 4256 ≡ length result }
{
    words::zeros()
}

// Says that an S-record file is too long.
pub fn too_long<R: System>(rt: &R, name: &[u8]) {
    rt.complain(name);
    rt.complain(b": longer than 2097152 characters\n");
}

// The image that is begun with: erased flash, which the room holds, or the file of a name.
fn begin<R: System>(rt: &R, old: &[u8], room: &mut [u8]) -> Result<usize, Said>
    requires { flash.bytes ≤ length room.old }
    ensures { ReadsAtMost result room.new }
{
    if old.len() == 0 {
        return Ok(Board::FLASH_BYTES);
    }
    files::read(rt, old, room)
}

// Loads a text into an image and saves it, and says how that went: on standard output that the new file is there, on standard error why not.
fn load_and_save<R: System>(
    rt: &R,
    name: &[u8],
    text: &[u8],
    shift: i16,
    image: &mut [u8],
    new: &[u8],
) {
    if files::NAME < name.len() {
        return;
    }
    let mut out = said_room();
    match image_says::load(name, text, shift, image, &mut out) {
        Ok(end) => {
            if files::save(rt, new, image).is_ok() {
                let _ = rt.write_all(&out[..end]);
            }
        }
        Err(end) => rt.complain(&out[..end]),
    }
}

// Makes the image of an S-record file, from an old image where its name is not empty.
pub fn make<R: System>(rt: &R, file: &[u8], new: &[u8], shift: i16, old: &[u8]) {
    let mut image = erased();
    let Ok(bytes) = begin(rt, old, &mut image) else {
        return; // why is said
    };
    let mut text = text_room();
    let Ok(n) = files::read(rt, file, &mut text) else {
        return; // why is said
    };
    if TEXT < n {
        too_long(rt, file);
        return;
    }
    if bytes == Board::FLASH_BYTES {
        load_and_save(rt, file, &text[..n], shift, &mut image[..bytes], new);
    } else {
        load_and_save(rt, old, &text[..n], shift, &mut image[..bytes], new);
    }
}
