// Loads the S-records of a text into an image of the flash.
#![tactic(auto)]

pub mod folding;
pub mod held;
pub mod judging;
pub mod laying;
pub mod placing;

ghost use Rattle.std.specs.Prelude.{◌≡◌, IfOk};
ghost use Rattle.records.specs.Ends.{lines_of};
ghost use Rattle.loading.specs.Promise.{Loads};
ghost use Rattle.loading.specs.Loads.{answer_no, line_no, untouched, all_touched};

use board::Board;

// Why a file is refused, in the order of the tests, each with its number; 0 is that of an accepted file.
#[derive(Clone, Copy)]
pub enum Cause {
    WrongLength = 1,
    BadLine = 2,
    BadChecksum = 3,
    OutsideFlash = 4,
    Overlap = 5,
    NoEnd = 6,
}

// The cause, and the number of the line that it has, from 1, if a line has it.
#[derive(Clone, Copy)]
pub struct Refused {
    pub cause: Cause,
    pub line: Option<usize>,
}

// The number of a file that is accepted.
const ACCEPTED: u8 = 0;

// The number of what is answered.
pub fn number(answer: Result<(), Refused>) -> u8
    ensures { result ≡ answer_no answer }
{
    match answer {
        Ok(()) => ACCEPTED,
        Err(refused) => refused.cause as u8,
    }
}

// The number of the line that has the cause, from 1; 0 where no line has it.
pub fn line_number(answer: Result<(), Refused>) -> usize
    ensures { result ≡ line_no answer }
{
    match answer {
        Ok(()) => 0,
        Err(refused) => refused.line.unwrap_or(0),
    }
}

// The marks before any line: none.
#[tactic(auto, unfolding(crate::specs::Loads::untouched))]
pub fn no_marks() -> [u8; Board::FLASH_BYTES]
    ensures { result ≡ untouched }
{
    words::zeros()
}

// Loads the S-records of a text into an image, a shift added to each address, and marks the bytes that it loads.
pub fn load_marked(
    text: &[u8],
    shift: i16,
    image: &mut [u8],
    touched: &mut [u8],
) -> Result<(), Refused>
    requires { touched.old ≡ untouched }
    ensures loads { Loads shift text.now image.old result image.new }
    ensures marks { IfOk result (λ _. touched.new ≡ all_touched shift (lines_of text.now) untouched) }
{
    let wrong = image.len() != Board::FLASH_BYTES;
    if wrong {
        return Err(Refused {
            cause: Cause::WrongLength,
            line: None,
        });
    }
    let mut copied = words::zeros::<{ Board::FLASH_BYTES }>();
    copied.copy_from_slice(image);
    folding::fold(text, shift, touched, &mut copied)?;
    image.copy_from_slice(&copied);
    Ok(())
}

// Loads the S-records of a text into an image, a shift added to each address. An error leaves the image as it was.
pub fn load(text: &[u8], shift: i16, image: &mut [u8]) -> Result<(), Refused>
    ensures { Loads shift text.now image.old result image.new }
{
    let mut touched = no_marks();
    load_marked(text, shift, image, &mut touched)
}
