// What is said of a file that is loaded: how much, or where and why it is refused.
#![tactic(auto)]

pub mod counting;
pub mod held;
pub mod text;

ghost use Rattle.std.specs.Prelude.{◌≡◌, ◌+◌, ◌≤◌, length};
ghost use Rattle.words.specs.Over.{put};
ghost use Rattle.loading.specs.Loads.{answer_to, image_after};
ghost use Rattle.image_says.specs.Messages.{message_to, told};

use loading::Refused;

// How many bytes were loaded, and into how many sectors.
#[derive(Clone, Copy)]
pub struct Tally {
    pub bytes: usize,
    pub sectors: usize,
}

// The room for what is said, beside the name of the file.
pub const ROOM: usize = 160;

// How many characters are said, of a file that is accepted or of one that is refused.
fn told(answer: Result<(), Refused>, length: usize) -> Result<usize, usize>
    ensures { result ≡ told answer length }
{
    match answer {
        Ok(()) => Ok(length),
        Err(_) => Err(length),
    }
}

// Loads the S-records of a text into an image, as `loading::load` does, and says of the file with a name how that went: how many characters
// that is, of a file that is accepted or of one that is refused.
pub fn load(
    name: &[u8],
    text: &[u8],
    shift: i16,
    image: &mut [u8],
    out: &mut [u8],
) -> Result<usize, usize>
    requires { length name.now + 160 ≤ length out.old }
    ensures told { result ≡ told (answer_to shift text.now (length image.old)) (length (message_to name.now shift text.now (length image.old))) }
    ensures image { image.new ≡ image_after shift text.now image.old }
    ensures said { out.new ≡ put out.old 0 (message_to name.now shift text.now (length image.old)) }
    ensures short { length (message_to name.now shift text.now (length image.old)) ≤ length name.now + 160 }
{
    let mut touched = loading::no_marks();
    let answer = loading::load_marked(text, shift, image, &mut touched);
    let tally = counting::tally(&touched);
    let short = text::is_short_at(text, text::line_in(answer));
    let length = text::message(name, answer, tally, short, out);
    told(answer, length)
}
