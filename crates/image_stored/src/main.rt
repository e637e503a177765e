// Loads S-record files one after another into one image, and prints what is said of each and the rows that it changed.
// Its arguments are threes: a file's name, a shift, and how many bytes of the image are lent.
#![tactic(auto)]

ghost use Rattle.std.specs.Prelude.{◌+◌, ◌^◌, ◌≤◌, ◌<◌, length};

use files::system::System;
use image_files::{arguments, making};

// How many bytes a row has.
const ROW: usize = 16;

// Prints a row: the offset of its first byte, and its bytes.
fn print_row<R: System>(rt: &R, at: usize, row: &[u8]) {
    if ROW < row.len() {
        return;
    }
    let mut out = [0u8; 64];
    out[0] = desk_print::digit((at / 4096 % 16) as u8);
    out[1] = desk_print::digit((at / 256 % 16) as u8);
    out[2] = desk_print::digit((at / 16 % 16) as u8);
    out[3] = desk_print::digit((at % 16) as u8);
    out[4] = b':';
    let end = desk_print::bytes(row, &mut out, 5);
    let _ = rt.write_all(&out[..end]);
    let _ = rt.write_all(b"\n");
}

// Prints the rows that have changed.
fn print_rows<R: System>(rt: &R, before: &[u8], after: &[u8]) {
    let rows = before.chunks(ROW).zip(after.chunks(ROW)).enumerate();
    for (k, (old, new)) in rows {
        if old != new {
            print_row(rt, k * ROW, new);
        }
    }
}

// Loads a text into the first bytes of the image, and prints what is said and which rows have changed.
fn load<R: System>(rt: &R, name: &[u8], text: &[u8], shift: i16, bytes: usize, image: &mut [u8]) {
    if files::NAME < name.len() {
        return;
    }
    if image.len() < bytes {
        return;
    }
    let mut before = making::erased();
    let kept = before.len().min(image.len());
    before[..kept].copy_from_slice(&image[..kept]);
    let mut out = making::said_room();
    let end = match image_says::load(name, text, shift, &mut image[..bytes], &mut out) {
        Ok(end) | Err(end) => end,
    };
    let _ = rt.write_all(&out[..end]);
    print_rows(rt, &before, image);
}

// What argument i writes by a function that reads it, if it writes such a thing.
fn written<R: System, T, F: FnOnce(&[u8]) -> Option<T>>(
    rt: &R,
    i: usize,
    called: &[u8],
    read: F,
) -> Option<T>
    requires { F.IsAlwaysCallable read }
{
    let mut word = io::buffer();
    let n = files::argument(rt, i, called, &mut word).unwrap_or(0);
    read(&word[..n])
}

// Loads the file of the three arguments from i on.
fn load_three<R: System>(rt: &R, i: usize, image: &mut [u8])
    requires { i + 2 < 2 ^ 64 }
{
    let mut name = io::buffer();
    let k = files::argument(rt, i, b"FILE", &mut name).unwrap_or(0);
    let mut text = making::text_room();
    let Ok(n) = files::read(rt, &name[..k], &mut text) else {
        return; // why is said
    };
    if making::TEXT < n {
        making::too_long(rt, &name[..k]);
        return;
    }
    load(
        rt,
        &name[..k],
        &text[..n],
        written(rt, i + 1, b"SHIFT", arguments::shift).unwrap_or(0),
        written(rt, i + 2, b"BYTES", arguments::number).unwrap_or(0) as usize,
        image,
    );
}

fn main(rt: HostRuntime) {
    let mut image = making::erased();
    let threes = files::argument_count(&rt) / 3;
    for k in 0..threes {
        load_three(&rt, 3 * k + 1, &mut image);
    }
}
