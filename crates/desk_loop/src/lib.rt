// Reads a host's lines and writes the answers, over a reader and a writer: what is read and written is not proved, what is done with it is.
#![tactic(auto)]

ghost use Rattle.std.specs.Prelude.{◌≡◌, true, ◌+◌, ◌^◌, ◌≤◌, ◌<◌, T, length, IsErr, OnOk, OnErr};
ghost use Rattle.words.specs.Texts.{characters};
ghost use Rattle.memories.specs.Lent.{holds, had, has, Same};
ghost use Rattle.memories.specs.Memories.{proper};
ghost use Rattle.keeping.specs.Kept.{Fits, Kept, Begins};
ghost use Rattle.desk_answers.specs.Desk.{kept_characters, hears, input_ends};
ghost use Rattle.desk_answers.specs.Promise.{Tells};
ghost use Rattle.desk_hearing.specs.Promise.{desk_of};
ghost use Rattle.desk_loop.specs.Turns.{read_characters, out_characters, most_characters, Ready, Turns, HasHeard, LeftBy};

use boot::Session;
use desk_answers::CHARACTER_ROOM;
use desk_hearing::{Desk, KEPT_CHARACTERS, finish, hear};
use files::system::System;
use keeping::room::MEMORIES_BYTES;
use keeping::turns::{MOST, left};
use keeping::{Untold, begin, fresh, tell};
use memories::Lent;
use std::io::{Read, Write};

// How many characters are read at most at once.
const READ_CHARACTERS: usize = 4096;

// The room for what one read makes it print, whatever it is.
const OUT_CHARACTERS: usize = CHARACTER_ROOM * (KEPT_CHARACTERS + READ_CHARACTERS);

// Whether an argument asks for reasons.
pub fn asks_why(argument: &[u8]) -> bool
    ensures { (result ≡ true → argument.now ≡ characters "--why") × (argument.now ≡ characters "--why" → result ≡ true) }
{
    check::same(argument, b"--why")
}

// Room for the answers, of which only its length counts.
// Kept: of words::zeros at this length the check of `run` unfolds a million zeros, and does not end (c).
fn room() -> [u8; OUT_CHARACTERS]
    ensures { out_characters ≡ length result }
{
    [0; OUT_CHARACTERS]
}

// Has what came heard, be it nothing, and leaves the memories their lengths.
fn take_in(desk: Desk, text: &[u8], line: &mut [u8], lent: &mut Lent<'_>, out: &mut [u8]) -> Desk
    requires ready { Ready desk line.old out.old }
    requires text_len { length text.now ≤ read_characters }
    requires read_characters_bound { desk.lines + read_characters < 2 ^ 64 }
    requires lengths { T (proper (holds lent.old)) }
    ensures told { Tells (hears text.now (desk_of desk line.old (had lent))) desk.end out.old
        result.end out.new (desk_of result line.new (has lent)) }
    ensures fits { result.end ≤ length out.old }
    ensures counts { (result.kept ≤ kept_characters) × (result.lines ≤ desk.lines + length text.now) }
    ensures lengths { T (proper (has lent)) }
    ensures same { Same lent }
{
    hear(desk, text, line, lent, out)
}

// Reads once, has what came heard, be it nothing, keeps the memories and then writes the answers: it tells whether there may be more to read.
fn turn<R: System, F: Read, W: Write>(
    rt: &R,
    desk: &mut Desk,
    name: &[u8],
    from: &mut F,
    to: &mut W,
    line: &mut [u8],
    lent: &mut Lent<'_>,
    out: &mut [u8],
    kept: &mut [u8],
) -> Result<bool, Untold>
    requires ready_2 { Ready desk.old line.old out.old }
    requires read_characters_bound { desk.old.lines + read_characters < 2 ^ 64 }
    requires fits { Fits (holds lent.old) kept.old }
    requires kept_2 { Kept name.now (holds lent.old) kept.old }
    ensures ready { Ready desk.new line.new out.new }
    ensures few { desk.new.lines ≤ desk.old.lines + read_characters }
    ensures heard { Turns (desk_of desk.old line.old (had lent)) out.old
        (desk_of desk.new line.new (has lent)) out.new result }
    ensures lengths { T (proper (has lent)) }
    ensures kept { OnOk result (Kept name.now (has lent) kept.new) }
    ensures same { Same lent }
{
    let mut input = [0u8; READ_CHARACTERS];
    let n = files::read_once(from, &mut input);
    *desk = take_in(*desk, &input[..n], line, lent, out);
    let end = desk.end;
    desk.end = 0;
    tell(rt, Ok(()), name, lent.shown(), kept, to, &out[..end])?;
    Ok(0 < n)
}

// Reads until the input ends, or something could not be kept or written.
fn read_on<R: System, F: Read, W: Write>(
    rt: &R,
    desk: &mut Desk,
    name: &[u8],
    from: &mut F,
    to: &mut W,
    line: &mut [u8],
    lent: &mut Lent<'_>,
    out: &mut [u8],
    kept: &mut [u8],
) -> Result<(), Untold>
    requires ready_2 { Ready desk.old line.old out.old }
    requires no_lines { desk.old.lines ≡ 0 }
    requires fits { Fits (holds lent.old) kept.old }
    requires kept_2 { Kept name.now (holds lent.old) kept.old }
    ensures ready { Ready desk.new line.new out.new }
    ensures few { desk.new.lines ≤ 2 ^ 63 }
    ensures heard { HasHeard most_characters (desk_of desk.old line.old (had lent)) (desk_of desk.new line.new (has lent)) }
    ensures lengths { T (proper (has lent)) }
    ensures kept { OnOk result (Kept name.now (has lent) kept.new) }
    ensures same { Same lent }
{
    let mut turns = MOST;
    // Kept: of a `for` over the reads nothing states what `left` does of each, that some are left exactly where something came.
    while 0 < turns {
        let more = turn(rt, desk, name, from, to, line, lent, out, kept)?;
        turns = left(turns, more);
    }
    Ok(())
}

// Answers a last line that has no LF, if all before it could be kept and answered, and leaves the desk as it is then.
fn get_up<R: System, W: Write>(
    rt: &R,
    desk: &mut Desk,
    told: Result<(), Untold>,
    name: &[u8],
    to: &mut W,
    line: &mut [u8],
    lent: &mut Lent<'_>,
    out: &mut [u8],
    kept: &mut [u8],
) -> Result<(), Untold>
    requires ready { Ready desk.old line.old out.old }
    requires lines_bound { desk.old.lines + 1 < 2 ^ 64 }
    requires fits { Fits (holds lent.old) kept.old }
    requires kept_2 { OnOk told (Kept name.now (holds lent.old) kept.old) }
    ensures left { desk_of desk.new line.new (has lent)
        ≡ (input_ends (desk_of desk.old line.old (had lent))).state }
    ensures untold { OnErr told (IsErr result) }
    ensures kept { OnOk result (Kept name.now (has lent) kept.new) }
    ensures same { Same lent }
{
    *desk = finish(*desk, line, lent, out);
    tell(rt, told, name, lent.shown(), kept, to, &out[..desk.end])
}

// Reads until the input ends, answers a last line that has no LF, and hands back the desk that is left; where something could not be kept or written,
// it ends without the answer.
fn sit<R: System, F: Read, W: Write>(
    rt: &R,
    why: bool,
    name: &[u8],
    from: &mut F,
    to: &mut W,
    line: &mut [u8],
    lent: &mut Lent<'_>,
    out: &mut [u8],
    kept: &mut [u8],
) -> (Desk, Result<(), Untold>)
    requires line_len { length line.old ≡ kept_characters }
    requires out_characters_in_bounds { out_characters ≤ length out.old }
    requires begins { Begins name.now (holds lent.old) }
    requires fits { Fits (holds lent.old) kept.old }
    requires kept_2 { Kept name.now (holds lent.old) kept.old }
    ensures left { LeftBy most_characters why (had lent) (desk_of result.0 line.new (has lent)) }
    ensures kept { OnOk result.1 (Kept name.now (has lent) kept.new) }
    ensures same { Same lent }
{
    let mut desk = Desk {
        session: Session::power_on(),
        why: why,
        lines: 0,
        kept: 0,
        end: 0,
    };
    let told = read_on(rt, &mut desk, name, from, to, line, lent, out, kept);
    let told = get_up(rt, &mut desk, told, name, to, line, lent, out, kept);
    (desk, told)
}

// The program desk, asked for reasons or not: from the fresh board, or the memories that the file of a name holds, just powered, it reads lines until
// they end and writes the answers.
pub fn run<R: System, F: Read, W: Write>(rt: &R, why: bool, name: &[u8], from: &mut F, to: &mut W) {
    let mut flash = fresh::flash();
    let mut sram = fresh::sram();
    let mut usd = fresh::usd();
    let mut lent = Lent {
        flash: &mut flash,
        sram: &mut sram,
        usd: &mut usd,
    };
    let mut kept = words::zeros::<MEMORIES_BYTES>();
    let begun = begin(rt, name, &mut lent, &mut kept);
    if begun.is_err() {
        return; // why is said
    }
    let mut line = [0u8; KEPT_CHARACTERS];
    let mut out = room();
    let _ = sit(
        rt, why, name, from, to, &mut line, &mut lent, &mut out, &mut kept,
    );
}
