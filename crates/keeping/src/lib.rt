// Keeps a board's memories in a file, so that a board goes on where it ended. What a file holds no contract says.
#![tactic(auto)]

pub mod arguments;
pub mod fresh;
pub mod held;
pub mod room;
pub mod turns;

ghost use Rattle.std.specs.Prelude.{◌≡◌, ◌↔◌, true, false, T, length, ◌+◌, IsOk, IsErr, OnOk, OnErr};
ghost use Rattle.std.specs.Io.KnownBytes.{Appends};
ghost use Rattle.memories.specs.Lent.{holds, had, has, Same, shows};
ghost use Rattle.memories.specs.Memories.{proper};
ghost use Rattle.keeping.specs.declared.Untold.TheVariants.{Unkept};
ghost use Rattle.keeping.specs.Kept.{memories_bytes, in_bytes, memories_in, named, Fits, Kept};

use files::Said;
use files::system::System;
use memories::{Lent, Shown};
use room::{MEMORIES_BYTES, bring_back, is_held, take_down};
use std::io::Write;

// Why something could not be told: the memories could not be kept, which is said, or what was to be answered could not be written.
#[derive(Clone, Copy, Debug, PartialEq, Eq)]
pub enum Untold {
    Unkept,
    Unwritten,
}

impl From<Said> for Untold {
    ghost from_gives = { λ _ e. e ≡ Unkept };

    fn from(_said: Said) -> Untold {
        Untold::Unkept
    }
}

// Bytes have another length than a board's memories.
#[derive(Clone, Copy, Debug, PartialEq, Eq)]
struct WrongLength;

// Room for the bytes of a file, and a byte more, which tells that it is longer.
const FILE_ROOM: usize = MEMORIES_BYTES + 1;

// Says that a file has another length than a board's memories.
fn say_length<R: System>(rt: &R, name: &[u8], length: usize) -> Said {
    rt.complain(name);
    rt.complain(b": it has ");
    if MEMORIES_BYTES < length {
        rt.complain(b"more than ");
        files::say_number(rt, MEMORIES_BYTES as u64);
    } else {
        files::say_number(rt, length as u64);
    }
    rt.complain(b" bytes, and a board's memories are ");
    files::say_number(rt, MEMORIES_BYTES as u64);
    rt.complain(b"\n");
    Said
}

// Writes bytes to the file of a name, or says why it cannot: only once they are written they are what was kept last.
fn put_down<R: System>(rt: &R, name: &[u8], new: &[u8], kept: &mut [u8]) -> Result<(), Said>
    requires len { length new.now ≡ memories_bytes }
    requires kept_len { length kept.old ≡ memories_bytes }
    ensures written { OnOk result (kept.new ≡ new.now) }
    ensures unkept { OnErr result (kept.new ≡ kept.old) }
{
    files::save(rt, name, new)?;
    kept.copy_from_slice(new);
    Ok(())
}

// Makes the file of a name of the memories, only where it is missing.
fn make<R: System>(
    rt: &R,
    missing: bool,
    name: &[u8],
    shown: Shown<'_>,
    kept: &mut [u8],
) -> Result<(), Said>
    requires missing_value { missing ≡ true }
    requires fits { Fits (shows shown) kept.old }
    ensures made { OnOk result (kept.new ≡ in_bytes (shows shown.entry)) }
    ensures unkept { OnErr result (kept.new ≡ kept.old) }
{
    let first = take_down(shown);
    put_down(rt, name, &first, kept)
}

// Brings the memories back that some bytes are, and takes these down, if memories are so many bytes.
#[tactic(auto, using(crate::proofs::Rooms::proper_fit))]
fn restore(bytes: &[u8], lent: &mut Lent<'_>, kept: &mut [u8]) -> Result<(), WrongLength>
    requires { Fits (holds lent.old) kept.old }
    ensures all { IsOk result ↔ (length bytes.now ≡ memories_bytes) }
    ensures back { OnOk result (has lent ≡ memories_in bytes.now) }
    ensures kept { OnOk result (kept.new ≡ bytes.now) }
    ensures taken { OnOk result (kept.new ≡ in_bytes (has lent)) }
    ensures refused { OnErr result (has lent ≡ had lent) }
    ensures unkept { OnErr result (kept.new ≡ kept.old) }
    ensures lengths { T (proper (has lent)) }
    ensures same { Same lent }
{
    if bytes.len() != MEMORIES_BYTES {
        return Err(WrongLength);
    }
    bring_back(bytes, lent);
    kept.copy_from_slice(bytes);
    Ok(())
}

// Brings the memories back that the file of a name holds, or says why it cannot.
#[tactic(auto, using(crate::proofs::Rooms::proper_fit))]
fn go_on<R: System>(rt: &R, name: &[u8], lent: &mut Lent<'_>, kept: &mut [u8]) -> Result<(), Said>
    requires { Fits (holds lent.old) kept.old }
    ensures kept { OnOk result (kept.new ≡ in_bytes (has lent)) }
    ensures refused { OnErr result (has lent ≡ had lent) }
    ensures unkept { OnErr result (kept.new ≡ kept.old) }
    ensures lengths { T (proper (has lent)) }
    ensures same { Same lent }
{
    let mut bytes = words::zeros::<FILE_ROOM>();
    let n = files::read(rt, name, &mut bytes)?;
    match restore(&bytes[..n], lent, kept) {
        Ok(()) => Ok(()),
        Err(WrongLength) => Err(say_length(rt, name, n)),
    }
}

// Begins with a board: without a name with the memories as they are lent; else with those that the file of that name holds, which is made of
// the lent ones where it is missing. Where the board may not begin, it is said why not.
#[tactic(auto, using(crate::proofs::Rooms::proper_fit))]
pub fn begin<R: System>(
    rt: &R,
    name: &[u8],
    lent: &mut Lent<'_>,
    kept: &mut [u8],
) -> Result<(), Said>
    requires { Fits (holds lent.old) kept.old }
    ensures unnamed { named name.now ≡ false → IsOk result × (has lent ≡ had lent) }
    ensures refused { OnErr result (has lent ≡ had lent) }
    ensures kept { OnOk result (Kept name.now (has lent) kept.new) }
    ensures lengths { T (proper (has lent)) }
    ensures same { Same lent }
{
    if name.is_empty() {
        return Ok(()); // with the lent memories
    }
    let missing = files::is_missing(rt, name);
    if missing {
        make(rt, missing, name, lent.shown(), kept)
    } else {
        go_on(rt, name, lent, kept)
    }
}

// Keeps the memories in the file of a name, where they are not what was kept last, or says why it cannot; without a name it does nothing.
pub fn keep<R: System>(rt: &R, name: &[u8], shown: Shown<'_>, kept: &mut [u8]) -> Result<(), Said>
    requires { Fits (shows shown) kept.old }
    ensures kept { OnOk result (Kept name.now (shows shown.entry) kept.new) }
    ensures unkept { OnErr result (kept.new ≡ kept.old) }
    ensures same { Kept name.now (shows shown.entry) kept.old → IsOk result }
{
    if name.is_empty() {
        return Ok(());
    }
    let same = is_held(shown, kept);
    if same {
        return Ok(());
    }
    let new = take_down(shown);
    put_down(rt, name, &new, kept)
}

// Writes what is to be answered, once the memories are kept: only for that they are shown.
fn answer<W: Write>(
    name: &[u8],
    shown: Shown<'_>,
    kept: &[u8],
    to: &mut W,
    text: &[u8],
) -> Result<(), Untold>
    requires { Kept name.now (shows shown) kept.now }
    ensures { OnOk result (Appends (W.contents to.old) (W.contents to.new) text.now) }
{
    to.write_all(text).map_err(|_| Untold::Unwritten)
}

// Keeps the memories and then writes what is to be answered, if all before it could be.
pub fn tell<R: System, W: Write>(
    rt: &R,
    told: Result<(), Untold>,
    name: &[u8],
    shown: Shown<'_>,
    kept: &mut [u8],
    to: &mut W,
    text: &[u8],
) -> Result<(), Untold>
    requires { Fits (shows shown) kept.old }
    ensures untold { OnErr told (IsErr result) }
    ensures unwritten { OnErr told (W.contents to.new ≡ W.contents to.old) }
    ensures kept { OnOk result (Kept name.now (shows shown.entry) kept.new) }
    ensures written { OnOk result (Appends (W.contents to.old) (W.contents to.new) text.now) }
{
    told?;
    keep(rt, name, shown, kept)?;
    answer(name, shown, kept, to, text)
}
