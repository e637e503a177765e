// Lines of frames that a session only gathers, which are taken many at a time.
#![tactic(auto)]

ghost use Rattle.std.specs.Prelude.{◌≡◌, ◌+◌, ◌≤◌, IfSome, length};
ghost use Rattle.words.specs.Over.{put};
ghost use Rattle.frames.specs.Frames.{classic};
ghost use Rattle.desk_passing.specs.Passing.{SilentLine, nods, PassesLines};

use boot::Session;
use desk_answers::ANSWERED;
use desk_lines::line::ID;
use desk_written::first;
use desk_written::first::LINE_FEED;

// A line of a frame that is only gathered: where it ends, and how many data bytes it has.
#[derive(Clone, Copy)]
pub struct Silent {
    pub end: usize,
    pub count: usize,
}

// What is so after lines were taken at once: the session, how many lines they were, and how many characters.
#[derive(Clone, Copy)]
pub struct Gathered {
    pub session: Session,
    pub lines: u64,
    pub characters: usize,
}

// The line at the front of a text, if it is of a frame that a step of CAN only gathers; its data bytes are put into a slice.
fn silent_line(
    step: u8,
    taken: usize,
    expected: usize,
    text: &[u8],
    new: &mut [u8],
) -> Option<Silent>
    requires taken_le_expected { taken ≤ expected }
    requires len { length new.old ≡ classic.largest }
    ensures { IfSome result (λ line. SilentLine step taken expected text.now line.end line.count new.new) }
{
    let end = first::frame_first(text)?;
    let count = desk_written::bytes(&text[1 + ID..end], new);
    let id = desk_written::id(&text[1..end]);
    let silent = boot::gathering::silent_frame(step, taken, expected, id, count);
    if silent {
        Some(Silent { end, count })
    } else {
        None
    }
}

// Takes at once the lines at the front of a text that write frames which the session only gathers, given whether the memories have their lengths.
pub fn gather(session: Session, text: &[u8], right: bool) -> Gathered
    ensures { PassesLines session right text.now result.session result.lines result.characters }
{
    let mut here = session;
    let mut lines = 0u64;
    let mut characters = 0;
    let hears = boot::gathering::hears_frames(session, right);
    if !hears {
        return Gathered {
            session,
            lines,
            characters,
        };
    }
    let mut new = [0u8; frames::CLASSIC];
    while let Some(line) = silent_line(
        here.step,
        here.taken,
        here.expected,
        &text[characters..],
        &mut new,
    ) {
        let at = here.taken;
        carriers::gather::stage(&mut here.staged, at, &new[..line.count]);
        here.taken = at + line.count;
        lines += 1;
        characters += line.end + 1;
    }
    Gathered {
        session: here,
        lines,
        characters,
    }
}

// Answers so many lines that have no reply, and tells where the answers end.
pub fn nod(lines: u64, out: &mut [u8], at: usize) -> usize
    requires { at + lines + lines ≤ length out.old }
    ensures end { result ≡ at + lines + lines }
    ensures text { out.new ≡ put out.old at (nods lines) }
{
    let mut end = at;
    for _ in 0..lines {
        end = desk_print::add(&[ANSWERED, LINE_FEED], out, end);
    }
    end
}
