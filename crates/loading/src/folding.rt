// Goes through the lines of a text, as the definition's fold does.
ghost use Rattle.std.specs.Prelude.{◌≡◌, false, IfOk, length};
ghost use Rattle.board.specs.Board.{flash};
ghost use Rattle.records.specs.Ends.{lines_of};
ghost use Rattle.records.specs.Records.{line_of};
ghost use Rattle.loading.specs.Loads.{ends_by, verdict_of, touched_by, all_touched, loaded_by, all_loaded, judged};

use crate::{Cause, Refused, judging, laying};
use records::{ends, reading};

// Judges a line behind others; one that is accepted is marked and laid, and whether it ends the file is told.
fn take(
    line: &[u8],
    shift: i16,
    ended: bool,
    touched: &mut [u8],
    image: &mut [u8],
) -> Result<bool, Cause>
    requires { (length touched.old ≡ flash.bytes) × (length image.old ≡ flash.bytes) }
    ensures answer { result ≡ ends_by (verdict_of shift ended touched.old (line_of line.now)) (line_of line.now) }
    ensures marks { IfOk result (λ _. touched.new ≡ touched_by shift (line_of line.now) touched.old) }
    ensures image { IfOk result (λ _. image.new ≡ loaded_by shift line.now image.old) }
{
    let read = reading::read(line);
    judging::judge(read, shift, ended, touched)?;
    judging::touch(read, shift, touched);
    laying::lay(line, read, shift, image);
    Ok(judging::is_end(read.map(|said| said.kind)))
}

// Judges, marks and lays line by line; the first faulty one decides, else whether there was an ending record.
pub fn fold(text: &[u8], shift: i16, touched: &mut [u8], image: &mut [u8]) -> Result<(), Refused>
    requires { (length touched.old ≡ flash.bytes) × (length image.old ≡ flash.bytes) }
    ensures answer { result ≡ judged shift 0 false touched.old (lines_of text.now) }
    ensures marks { IfOk result (λ _. touched.new ≡ all_touched shift (lines_of text.now) touched.old) }
    ensures image { IfOk result (λ _. image.new ≡ all_loaded shift (lines_of text.now) image.old) }
{
    let mut ended = false;
    let mut number = 0;
    let mut at = 0;
    // Kept: text.split(|c| *c == LINE_FEED) gives one line more behind a last LF, and leaves the CR in a line; line_at gives the lines of R9.
    while at < text.len() {
        let span = ends::line_at(text, at);
        number += 1;
        match take(&text[at..span.stop], shift, ended, touched, image) {
            Ok(end) => ended = ended | end,
            Err(cause) => {
                return Err(Refused {
                    cause,
                    line: Some(number),
                });
            }
        }
        at = span.next;
    }
    let no_end = Refused {
        cause: Cause::NoEnd,
        line: None,
    };
    if ended { Ok(()) } else { Err(no_end) }
}
