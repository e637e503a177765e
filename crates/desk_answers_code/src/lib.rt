// Answers one line: makes its calls, prints their replies and why they refused, or tells its number.
#![tactic(auto)]

mod why;

ghost use Rattle.std.specs.Prelude.{◌≡◌, [], ◌∷◌, map, ◌+◌, ◌*◌, ◌≤◌, ◌<◌, T, length, drop};
ghost use Rattle.words.specs.Hex.{field_characters};
ghost use Rattle.words.specs.Over.{put};
ghost use Rattle.memories.specs.Lent.{had, has, Same};
ghost use Rattle.boot.specs.Calls.{Byte, Framed};
ghost use Rattle.boot.specs.Promise.{state_of};
ghost use Rattle.desk_lines.specs.Lines.{most_characters, are_fields, fields, are_frame, frame_written, kind_of};
ghost use Rattle.desk_answers.specs.Answers.{desk_room, tells, notes as Answers·notes, calls_of, obeyed, notice, answer};
ghost use Rattle.desk_answers.specs.Promise.{Tells, Continues, note_numbers, notice_room, answer_room};

use boot::Session;
use desk_answers::{ANSWERED, NOT_UNDERSTOOD};
use desk_lines::line::MOST_CHARACTERS;
use desk_lines::{Kind, line};
use desk_written::first::LINE_FEED;
use memories::Lent;
use words::{FIELD, SPACE};

// The room for a reply: what either carrier needs.
const ROOM: usize = can::ROOM;

// The most bytes that a line writes.
const MOST_BYTES: usize = MOST_CHARACTERS / FIELD;

// What is so after an answer: the session, and where the text ends.
#[derive(Clone, Copy)]
pub struct Answered {
    pub session: Session,
    pub end: usize,
}

// What is so while calls are told: the session, where the text of their replies ends, and where the notes of their NACKs do.
#[derive(Clone, Copy)]
pub struct Telling {
    pub session: Session,
    pub end: usize,
    pub noted: usize,
}

// What is so after the front of some bytes was told, and how many bytes it had.
#[derive(Clone, Copy)]
pub struct ToldFront {
    pub told: Telling,
    pub count: usize,
}

// Makes the calls at the front of some bytes, those that are only gathered and one more, prints the reply and notes the NACK.
fn tell_front(
    begun: Telling,
    bytes: &[u8],
    lent: &mut Lent<'_>,
    out: &mut [u8],
    notes: &mut [u16],
) -> ToldFront
    requires bytes_nonzero { 0 < length bytes.now }
    requires field_characters_in_bounds { begun.end + desk_room * field_characters ≤ length out.old }
    requires note_numbers_in_bounds { begun.noted + note_numbers ≤ length notes.old }
    ensures some { (0 < result.count) × (result.count ≤ length bytes.now) }
    ensures told { Continues (tells (map (Byte desk_room) (drop result.count bytes.now)) (state_of result.told.session (has lent)))
        result.told.end out.new (tells (map (Byte desk_room) bytes.now) (state_of begun.session (had lent)))
        begun.end out.old }
    ensures noted { Continues
        (Answers·notes (map (Byte desk_room) (drop result.count bytes.now)) (state_of result.told.session (has lent)))
        result.told.noted notes.new (Answers·notes (map (Byte desk_room) bytes.now) (state_of begun.session (had lent)))
        begun.noted notes.old }
    ensures fits { (result.told.end ≤ begun.end + desk_room * field_characters) × (result.told.noted ≤ begun.noted + note_numbers) }
    ensures same { Same lent }
{
    let mut buffer = [0u8; ROOM];
    let session = begun.session;
    let front = session.take_front(bytes, lent, &mut buffer);
    let taken = front.taken;
    let end = desk_print::bytes(&buffer[..taken.length], out, begun.end);
    let noted = why::note(taken.reason, taken.place, notes, begun.noted);
    ToldFront {
        told: Telling {
            session: taken.session,
            end,
            noted,
        },
        count: front.silent + 1,
    }
}

// Makes the calls of bytes one after another, prints their replies and notes their NACKs.
fn tell_all(
    begun: Telling,
    bytes: &[u8],
    lent: &mut Lent<'_>,
    out: &mut [u8],
    notes: &mut [u16],
) -> Telling
    requires bytes_in_bounds { begun.end + desk_room * field_characters * length bytes.now ≤ length out.old }
    requires bytes_in_bounds_2 { begun.noted + note_numbers * length bytes.now ≤ length notes.old }
    ensures told { Tells (tells (map (Byte desk_room) bytes.now) (state_of begun.session (had lent)))
        begun.end out.old result.end out.new (state_of result.session (has lent)) }
    ensures noted { Tells (Answers·notes (map (Byte desk_room) bytes.now) (state_of begun.session (had lent)))
        begun.noted notes.old result.noted notes.new (state_of result.session (has lent)) }
    ensures fits { (result.end ≤ begun.end + desk_room * field_characters * length bytes.now)
        × (result.noted ≤ begun.noted + note_numbers * length bytes.now) }
    ensures same { Same lent }
{
    let mut told = begun;
    let mut left = bytes;
    while !left.is_empty() {
        let front = tell_front(told, left, lent, out, notes);
        told = front.told;
        left = &left[front.count..];
    }
    told
}

// Makes the calls of hex bytes one after another, prints their replies and notes their NACKs.
fn tell_bytes(
    begun: Telling,
    rest: &[u8],
    lent: &mut Lent<'_>,
    out: &mut [u8],
    notes: &mut [u16],
) -> Telling
    requires t { T (are_fields rest.now) × (length rest.now ≤ most_characters) }
    requires rest_in_bounds { begun.end + desk_room * length rest.now ≤ length out.old }
    requires rest_in_bounds_2 { begun.noted + length rest.now ≤ length notes.old }
    ensures told { Tells (tells (map (Byte desk_room) (fields rest.now)) (state_of begun.session (had lent)))
        begun.end out.old result.end out.new (state_of result.session (has lent)) }
    ensures noted { Tells (Answers·notes (map (Byte desk_room) (fields rest.now)) (state_of begun.session (had lent)))
        begun.noted notes.old result.noted notes.new (state_of result.session (has lent)) }
    ensures fits { (result.end ≤ begun.end + desk_room * length rest.now) × (result.noted ≤ begun.noted + length rest.now) }
    ensures same { Same lent }
{
    let mut written = [0u8; MOST_BYTES];
    let n = desk_written::bytes(rest, &mut written);
    tell_all(begun, &written[..n], lent, out, notes)
}

// Makes the call of the frame that characters write, prints the frames of its reply and notes its NACK.
fn tell_frame(
    begun: Telling,
    rest: &[u8],
    lent: &mut Lent<'_>,
    out: &mut [u8],
    notes: &mut [u16],
) -> Telling
    requires t { T (are_frame rest.now) }
    requires rest_in_bounds { begun.end + desk_room * length rest.now ≤ length out.old }
    requires rest_in_bounds_2 { begun.noted + length rest.now ≤ length notes.old }
    ensures told { Tells (tells (Framed desk_room (frame_written rest.now) ∷ []) (state_of begun.session (had lent)))
        begun.end out.old result.end out.new (state_of result.session (has lent)) }
    ensures noted { Tells
        (Answers·notes (Framed desk_room (frame_written rest.now) ∷ []) (state_of begun.session (had lent)))
        begun.noted notes.old result.noted notes.new (state_of result.session (has lent)) }
    ensures fits { (result.end ≤ begun.end + desk_room * length rest.now) × (result.noted ≤ begun.noted + length rest.now) }
    ensures same { Same lent }
{
    let mut input = [0u8; frames::BYTES];
    desk_written::frame(rest, &mut input);
    let mut buffer = [0u8; ROOM];
    let session = begun.session;
    let taken = session.take_frame(&input, lent, &mut buffer);
    let end = desk_print::frames(&buffer[..taken.length], out, begun.end);
    let noted = why::note(taken.reason, taken.place, notes, begun.noted);
    Telling {
        session: taken.session,
        end,
        noted,
    }
}

// Makes the calls of a line of a kind, prints their replies and notes their NACKs.
fn tell_line(
    begun: Telling,
    kind: Kind,
    line: &[u8],
    lent: &mut Lent<'_>,
    out: &mut [u8],
    notes: &mut [u16],
) -> Telling
    requires kind_value { (kind ≡ kind_of line.now) × (length line.now ≤ most_characters) }
    requires line_in_bounds { begun.end + desk_room * length line.now ≤ length out.old }
    requires line_in_bounds_2 { begun.noted + length line.now ≤ length notes.old }
    ensures told { Tells (tells (calls_of kind line.now) (state_of begun.session (had lent))) begun.end out.old
        result.end out.new (state_of result.session (has lent)) }
    ensures noted { Tells (Answers·notes (calls_of kind line.now) (state_of begun.session (had lent)))
        begun.noted notes.old result.noted notes.new (state_of result.session (has lent)) }
    ensures fits { (result.end ≤ begun.end + desk_room * length line.now) × (result.noted ≤ begun.noted + length line.now) }
    ensures same { Same lent }
{
    match kind {
        Kind::Bytes => tell_bytes(begun, &line[1..], lent, out, notes),
        Kind::Frame => tell_frame(begun, &line[1..], lent, out, notes),
        Kind::PowerOn => Telling {
            session: Session::power_on(),
            end: begun.end,
            noted: begun.noted,
        },
        Kind::Other => begun,
    }
}

// Answers a line of a kind by the replies of its calls, and says why they refused where reasons are asked for.
fn obey(
    session: Session,
    why: bool,
    kind: Kind,
    line: &[u8],
    lent: &mut Lent<'_>,
    out: &mut [u8],
    at: usize,
) -> Answered
    requires kind_value { kind ≡ kind_of line.now }
    requires line_len_bound { length line.now ≤ most_characters }
    requires line_in_bounds { at + answer_room (length line.now) ≤ length out.old }
    ensures told { Tells (obeyed why (calls_of kind line.now) (state_of session (had lent))) at out.old
        result.end out.new (state_of result.session (has lent)) }
    ensures fits { result.end ≤ at + answer_room (length line.now) }
    ensures same { Same lent }
{
    out[at] = ANSWERED;
    let begun = Telling {
        session,
        end: at + 1,
        noted: 0,
    };
    let mut notes = [0u16; MOST_CHARACTERS];
    let told = tell_line(begun, kind, line, lent, out, &mut notes);
    out[told.end] = LINE_FEED;
    Answered {
        session: told.session,
        end: why::explain_all(why, &notes[..told.noted], out, told.end + 1),
    }
}

// Answers another line by its number, and tells where the answer ends.
fn disobey(number: u64, out: &mut [u8], at: usize) -> usize
    requires { at + notice_room ≤ length out.old }
    ensures end { result ≡ at + length (notice number) }
    ensures fits { result ≤ at + notice_room }
    ensures text { out.new ≡ put out.old at (notice number) }
{
    let text = [NOT_UNDERSTOOD, SPACE];
    let begun = desk_print::add(&text, out, at);
    let end = desk_print::number(number, out, begun);
    desk_print::add(&[LINE_FEED], out, end)
}

// Answers a line of a number, with reasons where they are asked for.
pub fn answer(
    session: Session,
    why: bool,
    number: u64,
    line: &[u8],
    lent: &mut Lent<'_>,
    out: &mut [u8],
    at: usize,
) -> Answered
    requires { at + answer_room (length line.now) ≤ length out.old }
    ensures told { Tells (answer why number line.now (state_of session (had lent))) at out.old
        result.end out.new (state_of result.session (has lent)) }
    ensures fits { result.end ≤ at + answer_room (length line.now) }
    ensures same { Same lent }
{
    let kind = line::kind(line);
    match kind {
        Kind::Other => Answered {
            session,
            end: disobey(number, out, at),
        },
        _ => obey(session, why, kind, line, lent, out, at),
    }
}
