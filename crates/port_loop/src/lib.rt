// Reads UART bytes and writes the replies, over a reader and a writer: what is read and written is not proved, what is done with it is.
#![tactic(auto)]

pub mod hearing;
pub mod held;
pub mod st;

ghost use Rattle.std.specs.Prelude.{◌≡◌, true, ◌≤◌, T, length, OnOk};
ghost use Rattle.words.specs.Texts.{characters};
ghost use Rattle.memories.specs.Lent.{holds, had, has, Same};
ghost use Rattle.memories.specs.Memories.{proper};
ghost use Rattle.keeping.specs.Kept.{Fits, Kept, Begins};
ghost use Rattle.boot.specs.Promise.{state_of};
ghost use Rattle.port_loop.specs.Port.{Hears};
ghost use Rattle.port_loop.specs.Turns.{read_bytes, out_bytes, most_reads, sitting, Turns, HasHeard, LeftBy};

use boot::Session;
use files::system::System;
use hearing::{Heard, hear};
use keeping::room::MEMORIES_BYTES;
use keeping::turns::{MOST, left};
use keeping::{Untold, begin, fresh, tell};
use memories::Lent;
use std::io::{Read, Write};

// How many bytes are read at most at once.
const READ_BYTES: usize = 4096;

// The room for the replies to one read, whatever it is.
const OUT_BYTES: usize = uart::ROOM * READ_BYTES;

// Whether an argument asks for ST's dialect.
pub fn asks_st(argument: &[u8]) -> bool
    ensures { (result ≡ true → argument.now ≡ characters "--st") × (argument.now ≡ characters "--st" → result ≡ true) }
{
    check::same(argument, b"--st")
}

// Room for the replies, of which only its length counts.
// Kept: of words::zeros at this length the check of `run` unfolds a million zeros, and does not end (c).
fn room() -> [u8; OUT_BYTES]
    ensures { out_bytes ≡ length result }
{
    [0; OUT_BYTES]
}

// Has what came heard, be it nothing, and leaves the memories their lengths.
fn take_in(session: Session, st: bool, bytes: &[u8], lent: &mut Lent<'_>, out: &mut [u8]) -> Heard
    requires bytes_len { length bytes.now ≤ read_bytes }
    requires out_bytes_in_bounds { out_bytes ≤ length out.old }
    requires lengths { T (proper (holds lent.old)) }
    ensures within { result.length ≤ length out.old }
    ensures heard { Hears st bytes.now (state_of session (had lent)) out.old
        result.length out.new (state_of result.session (has lent)) }
    ensures lengths { T (proper (has lent)) }
    ensures same { Same lent }
{
    hear(session, st, bytes, lent, out)
}

// Reads once, has what came heard, be it nothing, keeps the memories and then writes what is said: it tells whether there may be more to read.
fn turn<R: System, F: Read, W: Write>(
    rt: &R,
    session: &mut Session,
    st: bool,
    name: &[u8],
    from: &mut F,
    to: &mut W,
    lent: &mut Lent<'_>,
    out: &mut [u8],
    kept: &mut [u8],
) -> Result<bool, Untold>
    requires out_bytes_in_bounds { out_bytes ≤ length out.old }
    requires fits { Fits (holds lent.old) kept.old }
    requires kept_2 { Kept name.now (holds lent.old) kept.old }
    ensures heard { Turns st (sitting (state_of session.old (had lent)) out.old)
        (sitting (state_of session.new (has lent)) out.new) result }
    ensures lengths { T (proper (has lent)) }
    ensures kept { OnOk result (Kept name.now (has lent) kept.new) }
    ensures same { Same lent }
{
    let mut input = [0u8; READ_BYTES];
    let n = files::read_once(from, &mut input);
    let heard = take_in(*session, st, &input[..n], lent, out);
    *session = heard.session;
    let end = heard.length;
    tell(rt, Ok(()), name, lent.shown(), kept, to, &out[..end])?;
    Ok(0 < n)
}

// Reads until the input ends, or something could not be kept or written.
fn read_on<R: System, F: Read, W: Write>(
    rt: &R,
    session: &mut Session,
    st: bool,
    name: &[u8],
    from: &mut F,
    to: &mut W,
    lent: &mut Lent<'_>,
    out: &mut [u8],
    kept: &mut [u8],
) -> Result<(), Untold>
    requires out_bytes_in_bounds { out_bytes ≤ length out.old }
    requires fits { Fits (holds lent.old) kept.old }
    requires kept_2 { Kept name.now (holds lent.old) kept.old }
    ensures heard { HasHeard st most_reads (sitting (state_of session.old (had lent)) out.old)
        (sitting (state_of session.new (has lent)) out.new) }
    ensures kept { OnOk result (Kept name.now (has lent) kept.new) }
    ensures same { Same lent }
{
    let mut turns = MOST;
    // Kept: of a `for` over the reads nothing states what `left` does of each, that some are left exactly where something came.
    while 0 < turns {
        let more = turn(rt, session, st, name, from, to, lent, out, kept)?;
        turns = left(turns, more);
    }
    Ok(())
}

// Reads until the input ends, or something could not be kept or written, and hands back the session that is left, and whether all could be.
fn sit<R: System, F: Read, W: Write>(
    rt: &R,
    st: bool,
    name: &[u8],
    from: &mut F,
    to: &mut W,
    lent: &mut Lent<'_>,
    out: &mut [u8],
    kept: &mut [u8],
) -> (Session, Result<(), Untold>)
    requires out_bytes_in_bounds { out_bytes ≤ length out.old }
    requires begins { Begins name.now (holds lent.old) }
    requires fits { Fits (holds lent.old) kept.old }
    requires kept_2 { Kept name.now (holds lent.old) kept.old }
    ensures left { LeftBy st most_reads (had lent) out.old
        (sitting (state_of result.0 (has lent)) out.new) }
    ensures kept { OnOk result.1 (Kept name.now (has lent) kept.new) }
    ensures same { Same lent }
{
    let mut session = Session::power_on();
    let told = read_on(rt, &mut session, st, name, from, to, lent, out, kept);
    (session, told)
}

// The program port, in ST's dialect or not: from the fresh board, or the memories that the file of a name holds, just powered, it reads bytes until they
// end and writes the replies.
pub fn run<R: System, F: Read, W: Write>(rt: &R, st: bool, name: &[u8], from: &mut F, to: &mut W) {
    let mut flash = fresh::flash();
    let mut sram = fresh::sram();
    let mut usd = fresh::usd();
    let mut lent = Lent {
        flash: &mut flash,
        sram: &mut sram,
        usd: &mut usd,
    };
    let mut kept = words::zeros::<MEMORIES_BYTES>();
    let begun = begin(rt, name, &mut lent, &mut kept);
    if begun.is_err() {
        return; // why is said
    }
    let mut out = room();
    let _ = sit(rt, st, name, from, to, &mut lent, &mut out, &mut kept);
}
