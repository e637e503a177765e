// The characters that are said of a file.
ghost use Rattle.std.specs.Prelude.{◌≡◌, ◌+◌, ◌≤◌, length};
ghost use Rattle.image_says.specs.Messages.{counted, said, line_in, named, message, is_short, line_numbered, is_short_at};
ghost use Rattle.words.specs.Texts.{characters};
ghost use Rattle.desk_print.specs.Adds.{Adds};
ghost use Rattle.image_says.specs.Messages.{amount as Messages·amount, outside as Messages·outside, wrong as Messages·wrong};

use crate::Tally;
use desk_print::add;
use loading::{Cause, Refused};
use records::ends;

// Adds so many things by their name.
fn counted(n: usize, thing: &[u8], out: &mut [u8], at: usize) -> usize
    requires { at + length thing.now + 22 ≤ length out.old }
    ensures added { Adds out.old at result out.new (counted n thing.now) }
    ensures short { result ≤ at + length thing.now + 22 }
{
    let digits = desk_print::number(n as u64, out, at);
    let blank = add(b" ", out, digits);
    let end = add(thing, out, blank);
    let one = n == 1;
    if one {
        return end;
    }
    add(b"s", out, end)
}

// Adds how much was loaded.
fn amount(tally: Tally, out: &mut [u8], at: usize) -> usize
    requires { at + 100 ≤ length out.old }
    ensures added { Adds out.old at result out.new (Messages·amount tally) }
    ensures short { result ≤ at + 100 }
{
    let bytes = tally.bytes;
    let sectors = tally.sectors;
    let first = counted(bytes, b"byte", out, at);
    let second = add(b" in ", out, first);
    counted(sectors, b"sector", out, second)
}

// Adds that an address is outside flash, and what to do about an S1 or S2 record.
fn outside(short: bool, out: &mut [u8], at: usize) -> usize
    requires { at + 100 ≤ length out.old }
    ensures added { Adds out.old at result out.new (Messages·outside short) }
    ensures short { result ≤ at + 100 }
{
    let end = add(b"address outside flash", out, at);
    let others = !short;
    if others {
        return end;
    }
    add(
        b": S1 and S2 records cannot reach it; link at 0x08000000 and write S3 records",
        out,
        end,
    )
}

// Adds what is wrong.
fn wrong(cause: Cause, short: bool, out: &mut [u8], at: usize) -> usize
    requires { at + 100 ≤ length out.old }
    ensures added { Adds out.old at result out.new (Messages·wrong cause short) }
    ensures short { result ≤ at + 100 }
{
    match cause {
        Cause::WrongLength => add(b"wrong image length: 32768 bytes wanted", out, at),
        Cause::BadLine => add(b"bad line", out, at),
        Cause::BadChecksum => add(b"bad checksum", out, at),
        Cause::OutsideFlash => outside(short, out, at),
        Cause::Overlap => add(b"overlap with an earlier line", out, at),
        Cause::NoEnd => add(b"no ending record", out, at),
    }
}

// Adds how much was loaded, or what is wrong.
fn say(answer: Result<(), Refused>, tally: Tally, short: bool, out: &mut [u8], at: usize) -> usize
    requires { at + 100 ≤ length out.old }
    ensures added { Adds out.old at result out.new (said answer tally short) }
    ensures short { result ≤ at + 100 }
{
    match answer {
        Ok(()) => amount(tally, out, at),
        Err(refused) => wrong(refused.cause, short, out, at),
    }
}

// The number of the line that has the cause, if one has it.
pub fn line_in(answer: Result<(), Refused>) -> Option<usize>
    ensures { result ≡ line_in answer }
{
    match answer {
        Ok(()) => None,
        Err(refused) => refused.line,
    }
}

// Begins with the file's name, and the number of the line that has the cause, if one has it.
fn name_line(name: &[u8], line: Option<usize>, out: &mut [u8]) -> usize
    requires { length name.now + 21 ≤ length out.old }
    ensures added { Adds out.old 0 result out.new (named name.now line) }
    ensures short { result ≤ length name.now + 21 }
{
    let end = add(name, out, 0);
    match line {
        None => end,
        Some(number) => {
            let colon = add(b":", out, end);
            desk_print::number(number as u64, out, colon)
        }
    }
}

// Puts the whole line that is said at the start of a buffer, and tells its length.
pub fn message(
    name: &[u8],
    answer: Result<(), Refused>,
    tally: Tally,
    short: bool,
    out: &mut [u8],
) -> usize
    requires { length name.now + 160 ≤ length out.old }
    ensures added { Adds out.old 0 result out.new (message name.now answer tally short) }
    ensures short { result ≤ length name.now + 160 }
{
    let named = name_line(name, line_in(answer), out);
    let begun = add(b": ", out, named);
    let end = say(answer, tally, short, out, begun);
    add(b"\n", out, end)
}

// Whether a line is an S1 or an S2 record, by its type digit.
fn is_short_line(line: &[u8]) -> bool
    ensures { result ≡ is_short line.now }
{
    matches!(line, [_, b'1' | b'2', ..])
}

// Whether the line of a number is an S1 or an S2 record.
pub fn is_short(text: &[u8], number: usize) -> bool
    ensures { result ≡ is_short (line_numbered number text.now) }
{
    let mut left = number;
    let mut at = 0;
    // Kept: text.split(|c| *c == LINE_FEED) gives one line more behind a last LF, and leaves the CR in a line; line_at gives the lines of R9.
    while at < text.len() {
        let span = ends::line_at(text, at);
        let here = left <= 1;
        if here {
            return is_short_line(&text[at..span.stop]);
        }
        left -= 1;
        at = span.next;
    }
    false
}

// Whether the line that has the cause is an S1 or an S2 record; where no line has it, there is none.
pub fn is_short_at(text: &[u8], line: Option<usize>) -> bool
    ensures { result ≡ is_short_at line text.now }
{
    match line {
        Some(number) => is_short(text, number),
        None => false,
    }
}
