// Why a command was refused: notes the reason and the place of each NACK, and says them in words.
// Kept: a NACK is noted as two numbers, since `makes` (desk_answers/specs/Answers) joins what is told of calls, replies as notes, as one list of numbers.
// Kept: reason 0 is none here too, as in `note_of` and in the `Taken` that C gets.
ghost use Rattle.std.specs.Prelude.{◌≡◌, ◌+◌, ◌*◌, ◌≤◌, ◌<◌, length};
ghost use Rattle.words.specs.Texts.{characters};
ghost use Rattle.desk_print.specs.Adds.{Adds};
ghost use Rattle.desk_answers.specs.Answers.{explained};
ghost use Rattle.desk_answers.specs.Promise.{note_numbers, note_room};
ghost use Rattle.desk_answers.specs.Why.{note_of, words_for, most_words, explanation};

use command::reason::NO_REASON;
use desk_print::add;

// How many numbers are noted of a NACK.
const NOTE_NUMBERS: usize = 2;

// Notes the reason and the place of a NACK behind others, if there is one, and tells where the notes end.
pub(crate) fn note(reason: u8, place: u16, notes: &mut [u16], at: usize) -> usize
    requires { at + note_numbers ≤ length notes.old }
    ensures noted { Adds notes.old at result notes.new (note_of reason place) }
    ensures few { result ≤ at + note_numbers }
{
    if reason == NO_REASON {
        return at;
    }
    notes[at] = u16::from(reason);
    notes[at + 1] = place;
    at + NOTE_NUMBERS
}

// Adds document 02's words for a reason.
fn words(reason: u16, out: &mut [u8], at: usize) -> usize
    requires { at + most_words ≤ length out.old }
    ensures added { Adds out.old at result out.new (words_for reason) }
    ensures short { result ≤ at + most_words }
{
    match reason {
        1 => add(b"bad complement or DLC", out, at),
        2 => add(b"unknown command", out, at),
        3 => add(b"access protected", out, at),
        4 => add(b"frame of another ID or empty frame", out, at),
        5 => add(b"bad checksum", out, at),
        6 => add(b"bad address", out, at),
        7 => add(b"bad count or range", out, at),
        8 => add(b"bad sector number", out, at),
        9 => add(b"write-protected sector", out, at),
        10 => add(b"unsupported erase", out, at),
        11 => add(b"bad speed", out, at),
        _ => at,
    }
}

// Adds the line of a NACK.
fn explain(reason: u16, place: u16, out: &mut [u8], at: usize) -> usize
    requires { at + note_numbers * note_room ≤ length out.old }
    ensures added { Adds out.old at result out.new (explanation reason place) }
    ensures short { result ≤ at + note_numbers * note_room }
{
    let mut end = add(b"! ", out, at);
    end = desk_print::number(u64::from(reason), out, end);
    end = add(b" ", out, end);
    end = desk_print::number(u64::from(place), out, end);
    end = add(b" ", out, end);
    end = words(reason, out, end);
    add(b"\n", out, end)
}

// Adds a line for each NACK that was noted, where reasons are asked for.
pub(crate) fn explain_all(why: bool, notes: &[u16], out: &mut [u8], at: usize) -> usize
    requires { at + note_room * length notes.now ≤ length out.old }
    ensures added { Adds out.old at result out.new (explained why notes.now) }
    ensures short { result ≤ at + note_room * length notes.now }
{
    let quiet = !why;
    if quiet {
        return at;
    }
    let mut end = at;
    for note in notes.chunks_exact(NOTE_NUMBERS) {
        end = explain(note[0], note[1], out, end);
    }
    end
}
