// What one frame of a connected host decides, step by step.
#![tactic(auto, unfolding(can::specs::Conversation::obeyed, can::specs::Conversation::commanded, can::specs::Conversation::selected, can::specs::Conversation::erased_or_not, can::specs::Conversation::gathering, can::specs::Conversation::unless_extra, can::specs::Conversation::decided))]

mod obey;

ghost use Rattle.std.specs.Prelude.{◌≡◌, ◌≤◌, ◌<◌, T, length};
ghost use Rattle.board.specs.Board.{sectors};
ghost use Rattle.board.specs.Quantities.{largest_count};
ghost use Rattle.memories.specs.Effects.{staged_bytes};
ghost use Rattle.command.specs.Progress.{progress_of};
ghost use Rattle.frames.specs.Frames.{classic, counted_of};
ghost use Rattle.can.specs.Steps.{step_of, expects, expected_for_numbers};
ghost use Rattle.can.specs.Conversation.{decided};

use board::{Address, Sector, View};
use can::Step;
use command::{Decision, SoFar, code};
use frames::Counted;

// A frame that comes while a write's data are gathered.
fn write_frame(here: SoFar<'_>, view: View, frame: Counted<'_>) -> Decision
    requires { (here.taken < here.expected) × (here.expected ≤ largest_count) × (length frame.carried.now ≤ classic.largest) }
    ensures { result ≡ decided Step.WriteData (progress_of here.entry) view (counted_of frame.entry) }
{
    let done = rules_code::write::write(view, Address(here.address), here.expected);
    can::gathering(code::WRITE_MEMORY, here, frame, done)
}

// A frame that comes while an erase's numbers are gathered.
fn erase_frame(here: SoFar<'_>, view: View, frame: Counted<'_>) -> Decision
    requires { (here.taken < here.expected) × (here.expected ≤ expected_for_numbers sectors.count) × (length here.staged.now ≡ staged_bytes)
        × (length frame.carried.now ≤ classic.largest) }
    ensures { result ≡ decided Step.EraseList (progress_of here.entry) view (counted_of frame.entry) }
{
    let done = list_rules_code::erase::erase(
        view,
        here.staged,
        here.expected / Sector::NUMBER_BYTES,
    );
    can::gathering(
        code::ERASE,
        here,
        frame,
        can::unless_extra(here, frame, done),
    )
}

// A frame that comes while the indexes of 0x63 are gathered.
fn protect_frame(here: SoFar<'_>, frame: Counted<'_>) -> Decision
    requires { (here.taken < here.expected) × (here.expected ≤ largest_count) × (length here.staged.now ≡ staged_bytes)
        × (length frame.carried.now ≤ classic.largest) }
    ensures { (view : View) → result ≡ decided Step.ProtectList (progress_of here.entry) view (counted_of frame.entry) }
{
    let done = list_rules_code::protect::protect(here.staged, here.expected);
    can::gathering(
        code::PROGRAM_PROTECT,
        here,
        frame,
        can::unless_extra(here, frame, done),
    )
}

// What one frame of a connected host decides, given how far its session has come with the frame's data bytes taken.
pub fn heard(step: u8, here: SoFar<'_>, view: View, frame: Counted<'_>) -> Decision
    requires { (here.taken < here.expected) × T (expects (step_of step) here.expected) × (length here.staged.now ≡ staged_bytes)
        × (length frame.carried.now ≤ classic.largest) }
    ensures { result ≡ decided (step_of step) (progress_of here.entry) view (counted_of frame.entry) }
{
    match Step::of(step) {
        Step::Idle => obey::command_frame(view, frame),
        Step::WriteData => write_frame(here, view, frame),
        Step::EraseList => erase_frame(here, view, frame),
        Step::ProtectList => protect_frame(here, frame),
    }
}
