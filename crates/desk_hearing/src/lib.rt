// Takes characters in, and answers each line as it ends.
#![tactic(auto)]

ghost use Rattle.std.specs.Prelude.{◌≡◌, ◌+◌, ◌*◌, ◌^◌, ◌≤◌, ◌<◌, length, take, drop};
ghost use Rattle.memories.specs.Lent.{had, has, Same};
ghost use Rattle.desk_answers.specs.Told.{◌then◌};
ghost use Rattle.desk_answers.specs.Desk.{kept_characters, keep, line_ends, hears, input_ends};
ghost use Rattle.desk_answers.specs.Promise.{Tells, Continues, character_room, answer_room};
ghost use Rattle.desk_hearing.specs.Promise.{desk_of};

use boot::Session;
use desk_lines::line::MOST_CHARACTERS;
use desk_written::first::LINE_FEED;
use memories::Lent;

// What is kept of a line: one character more than it may have tells that it is too long.
pub const KEPT_CHARACTERS: usize = MOST_CHARACTERS + 1;

// What desk knows of its host between two characters: the session, whether it asks for reasons, how many lines were answered, how many characters are
// kept of the line that has begun, and where the text ends.
#[derive(Clone, Copy)]
pub struct Desk {
    pub session: Session,
    pub why: bool,
    pub lines: u64,
    pub kept: usize,
    pub end: usize,
}

// What is so after a line: the desk, and how many characters behind the line were taken with it.
#[derive(Clone, Copy)]
pub struct Heard {
    pub desk: Desk,
    pub characters: usize,
}

// Keeps a character of the line that has begun, and tells how many are kept.
fn keep(line: &mut [u8], kept: usize, character: u8) -> usize
    requires line_len { length line.old ≡ kept_characters }
    requires kept_le_kept_characters { kept ≤ kept_characters }
    ensures line { take result line.new ≡ keep (take kept line.old) character }
    ensures kept { (result ≤ kept_characters) × (result ≤ kept + 1) }
{
    if kept < KEPT_CHARACTERS {
        line[kept] = character;
        kept + 1
    } else {
        kept
    }
}

// Answers the line that has begun.
fn end_line(desk: Desk, line: &[u8], lent: &mut Lent<'_>, out: &mut [u8]) -> Desk
    requires kept_in_bounds { desk.kept ≤ length line.now }
    requires lines_bound { desk.lines + 1 < 2 ^ 64 }
    requires kept_in_bounds_2 { desk.end + answer_room desk.kept ≤ length out.old }
    ensures told { Tells (line_ends (desk_of desk line.now (had lent))) desk.end out.old
        result.end out.new (desk_of result line.now (has lent)) }
    ensures fits { result.end ≤ desk.end + answer_room desk.kept }
    ensures counts { (result.kept ≡ 0) × (result.lines ≡ desk.lines + 1) }
    ensures same { Same lent }
{
    let number = desk.lines + 1;
    let told = desk_answers_code::answer(
        desk.session,
        desk.why,
        number,
        &line[..desk.kept],
        lent,
        out,
        desk.end,
    );
    Desk {
        session: told.session,
        why: desk.why,
        lines: number,
        kept: 0,
        end: told.end,
    }
}

// Answers the line that has begun, and takes at once the lines behind it that write frames which are only gathered.
fn go_on(desk: Desk, line: &[u8], rest: &[u8], lent: &mut Lent<'_>, out: &mut [u8]) -> Heard
    requires kept_in_bounds { desk.kept ≤ length line.now }
    requires rest_bound { desk.lines + 1 + length rest.now < 2 ^ 64 }
    requires rest_in_bounds { desk.end + answer_room desk.kept + length rest.now ≤ length out.old }
    ensures told { Continues
        (hears (drop result.characters rest.now) (desk_of result.desk line.now (has lent))) result.desk.end out.new
        (line_ends (desk_of desk line.now (had lent)) then hears rest.now) desk.end out.old }
    ensures within { result.characters ≤ length rest.now }
    ensures fits { result.desk.end ≤ desk.end + answer_room desk.kept + result.characters }
    ensures counts { (result.desk.kept ≡ 0) × (result.desk.lines ≤ desk.lines + 1 + result.characters) }
    ensures same { Same lent }
{
    let next = end_line(desk, line, lent, out);
    let right = lent.lengths_right();
    let gathered = desk_passing::gather(next.session, rest, right);
    let end = desk_passing::nod(gathered.lines, out, next.end);
    Heard {
        desk: Desk {
            session: gathered.session,
            why: next.why,
            lines: next.lines + gathered.lines,
            kept: 0,
            end,
        },
        characters: gathered.characters,
    }
}

// Takes characters in, and answers each line as soon as its LF comes.
pub fn hear(desk: Desk, text: &[u8], line: &mut [u8], lent: &mut Lent<'_>, out: &mut [u8]) -> Desk
    requires line_len { length line.old ≡ kept_characters }
    requires kept_le_kept_characters { desk.kept ≤ kept_characters }
    requires text_bound { desk.lines + length text.now < 2 ^ 64 }
    requires text_in_bounds { desk.end + character_room * (desk.kept + length text.now) ≤ length out.old }
    ensures told { Tells (hears text.now (desk_of desk line.old (had lent))) desk.end out.old
        result.end out.new (desk_of result line.new (has lent)) }
    ensures fits { result.end ≤ length out.old }
    ensures counts { (result.kept ≤ kept_characters) × (result.lines ≤ desk.lines + length text.now) }
    ensures same { Same lent }
{
    let mut here = desk;
    let mut left = text;
    while let [character, rest @ ..] = left {
        left = rest;
        if *character == LINE_FEED {
            let heard = go_on(here, line, rest, lent, out);
            here = heard.desk;
            left = &rest[heard.characters..];
            continue;
        }
        let kept = here.kept;
        here.kept = keep(line, kept, *character);
    }
    here
}

// Answers at the end of the input a line that has begun.
pub fn finish(desk: Desk, line: &[u8], lent: &mut Lent<'_>, out: &mut [u8]) -> Desk
    requires kept_in_bounds { desk.kept ≤ length line.now }
    requires lines_bound { desk.lines + 1 < 2 ^ 64 }
    requires kept_in_bounds_2 { desk.end + answer_room desk.kept ≤ length out.old }
    ensures told { Tells (input_ends (desk_of desk line.now (had lent))) desk.end out.old
        result.end out.new (desk_of result line.now (has lent)) }
    ensures fits { result.end ≤ length out.old }
    ensures same { Same lent }
{
    if 0 < desk.kept {
        end_line(desk, line, lent, out)
    } else {
        desk
    }
}
