// Whole files, read into lent room and written from it. What a file holds no contract says.
#![tactic(auto)]

pub mod system;
pub mod texts;

ghost use Rattle.std.specs.Prelude.{◌+◌, ◌≤◌, length, IfSome};
ghost use Rattle.std.specs.Io.{ReadsAtMost};
ghost use Rattle.io.specs.Counts.{IsPrefixLen};

use std::env::FillError;
use std::fs;
use std::fs::{OpenFile, OpenOptions};
use std::io::{Error, ErrorKind, Read, Write};
use system::{INVALID_ARGUMENT, NAME_TOO_LONG, NO_TEXT, System};

// How many characters a name has at most, and what is added to it while a file is written.
pub const NAME: usize = 4096;

const PART: usize = 64;

// Something failed, and why it did is said.
#[derive(Clone, Copy, Debug, PartialEq, Eq)]
pub struct Said;

// Says what failed, as it is called, and the system's text for the error.
pub fn fail<R: System>(rt: &R, what: &[u8], error: &Error) -> Said {
    let mut room = [0u8; texts::ROOM];
    let n = texts::put(error, &mut room);
    rt.complain(what);
    rt.complain(b": ");
    rt.complain(&room[..n]);
    rt.complain(b"\n");
    Said
}

// The error of an argument that is not there, or for which there is no room.
pub fn error_of(error: FillError) -> Error {
    match error {
        FillError::NotPresent => Error::from_raw_os_error(INVALID_ARGUMENT),
        FillError::TooLong => Error::from_raw_os_error(NAME_TOO_LONG),
    }
}

// How long argument i of the program is, which is put into a room, unless it is not there, or longer than the room.
pub fn word<R: System>(rt: &R, i: usize, room: &mut [u8]) -> Option<usize>
    ensures { IfSome result (λ n. IsPrefixLen n room.new) }
{
    rt.arg(i, room).ok()
}

// Argument i of the program, or says what is wrong with it, by what it is called.
pub fn argument<R: System>(rt: &R, i: usize, called: &[u8], room: &mut [u8]) -> Result<usize, Said>
    ensures { ReadsAtMost result room.new }
{
    rt.arg(i, room)
        .map_err(|error| fail(rt, called, &error_of(error)))
}

// Whether the program has an argument i.
fn has_argument<R: System>(rt: &R, i: usize) -> bool {
    !matches!(rt.arg(i, &mut []), Err(FillError::NotPresent))
}

// How many arguments the program was started with, its own name among them.
pub fn argument_count<R: System>(rt: &R) -> usize {
    (0..usize::MAX)
        .position(|i| !has_argument(rt, i))
        .unwrap_or(usize::MAX)
}

// Opens the file of a name to read it.
pub fn open<R: System>(rt: &R, name: &[u8]) -> Result<R::File, Error> {
    match str::from_utf8(name) {
        Ok(text) => fs::open(rt, text),
        Err(_) => Err(Error::from_raw_os_error(NO_TEXT)),
    }
}

// Reads once, and tells how much came: nothing where the input has ended, or a read fails.
pub fn read_once<F: Read>(from: &mut F, room: &mut [u8]) -> usize
    ensures { IsPrefixLen result room.new }
{
    from.read(room).unwrap_or(0)
}

// Reads until the room is full, the file ends or a read fails.
fn read_all<F: Read>(file: &mut F, room: &mut [u8]) -> Result<usize, Error>
    ensures { ReadsAtMost result room.new }
{
    // Kept: a read tells how many bytes have come, so no iterator gives the places (d).
    let mut done = 0;
    while done < room.len() {
        let came = file.read(&mut room[done..])?;
        if came == 0 {
            return Ok(done);
        }
        done += came;
    }
    Ok(done)
}

// Reads the file of a name, or tells why it cannot.
fn read_named<R: System>(rt: &R, name: &[u8], room: &mut [u8]) -> Result<usize, Error>
    ensures { ReadsAtMost result room.new }
{
    let mut file = open(rt, name)?;
    read_all(&mut file, room)
}

// Reads the file of a name, or says why it cannot.
pub fn read<R: System>(rt: &R, name: &[u8], room: &mut [u8]) -> Result<usize, Said>
    ensures { ReadsAtMost result room.new }
{
    read_named(rt, name, room).map_err(|error| fail(rt, name, &error))
}

// Whether there is no file of a name.
pub fn is_missing<R: System>(rt: &R, name: &[u8]) -> bool {
    match open(rt, name) {
        Ok(_) => false,
        Err(error) => error.kind() == ErrorKind::NotFound,
    }
}

// The name under which a file is written before it has its own: its name, this process and an ending.
fn part_name<R: System>(rt: &R, name: &[u8], out: &mut [u8]) -> usize
    requires { length name.now + 64 ≤ length out.old }
    ensures { IsPrefixLen result out.new }
{
    let begun = desk_print::add(name, out, 0);
    let dot = desk_print::add(b".", out, begun);
    let number = desk_print::number(rt.process_number(), out, dot);
    desk_print::add(b".part", out, number)
}

// Makes the file of a name, only where it is missing.
fn create<R: System>(rt: &R, name: &[u8]) -> Result<R::File, Error> {
    match str::from_utf8(name) {
        Ok(text) => OpenOptions::new()
            .write(true)
            .create_new(true)
            .open(rt, text),
        Err(_) => Err(Error::from_raw_os_error(NO_TEXT)),
    }
}

// Writes bytes to a file, and waits until they have reached it.
fn write_down<F: Write + OpenFile>(file: &mut F, bytes: &[u8]) -> Result<(), Error> {
    file.write_all(bytes)?;
    file.sync_all()
}

// Removes the file of a name.
fn remove<R: System>(rt: &R, name: &[u8]) {
    if let Ok(text) = str::from_utf8(name) {
        let _ = fs::remove_file(rt, text);
    }
}

// Gives the file of a name another name.
fn rename<R: System>(rt: &R, from: &[u8], to: &[u8]) -> Result<(), Error> {
    match (str::from_utf8(from), str::from_utf8(to)) {
        (Ok(from), Ok(to)) => fs::rename(rt, from, to),
        _ => Err(Error::from_raw_os_error(NO_TEXT)),
    }
}

// Says why a file cannot be begun: of the name that it was to have, or of the one under which it is written, where that is taken.
fn say_unmade<R: System>(rt: &R, name: &[u8], part: &[u8], error: &Error) -> Said {
    if error.kind() == ErrorKind::AlreadyExists {
        fail(rt, part, error)
    } else {
        fail(rt, name, error)
    }
}

// Says a number in decimal.
pub fn say_number<R: System>(rt: &R, n: u64) {
    let mut text = [0u8; 20];
    let k = io::decimal(n, &mut text);
    rt.complain(&text[..k]);
}

// Says that a name is too long to write its file.
fn say_long<R: System>(rt: &R, name: &[u8]) -> Said {
    rt.complain(name);
    rt.complain(b": the name has more than ");
    say_number(rt, NAME as u64);
    rt.complain(b" characters\n");
    Said
}

// Writes a file that is made, and gives it its name.
fn fill<R: System>(
    rt: &R,
    file: R::File,
    part: &[u8],
    name: &[u8],
    bytes: &[u8],
) -> Result<(), Error> {
    let mut file = file;
    let written = write_down(&mut file, bytes);
    drop(file);
    written?;
    rename(rt, part, name)
}

// Writes a file that is made and gives it its name, or says why it cannot and removes it.
fn finish<R: System>(
    rt: &R,
    file: R::File,
    part: &[u8],
    name: &[u8],
    bytes: &[u8],
) -> Result<(), Said> {
    fill(rt, file, part, name, bytes).map_err(|error| {
        let said = fail(rt, name, &error);
        remove(rt, part);
        said
    })
}

// Writes the file of a name whole, or says why it cannot and leaves the name as it was.
pub fn save<R: System>(rt: &R, name: &[u8], bytes: &[u8]) -> Result<(), Said> {
    if NAME < name.len() {
        return Err(say_long(rt, name));
    }
    let mut space = [0u8; NAME + PART];
    let n = part_name(rt, name, &mut space);
    let part = &space[..n];
    let file = create(rt, part).map_err(|error| say_unmade(rt, name, part, &error))?;
    finish(rt, file, part, name, bytes)
}
