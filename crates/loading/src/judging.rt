// Whether a line is accepted behind others, and the marks of what it touches.
ghost use Rattle.std.specs.Prelude.{◌≡◌, eqb, false, length, option_map, unwrap_or};
ghost use Rattle.words.specs.Lists.{any};
ghost use Rattle.board.specs.Board.{flash};
ghost use Rattle.loading.specs.Loads.{mark, is_end, verdict_of, touched_by};

use crate::{Cause, placing};
use records::{Kind, Line};

// The mark of a byte that a line has touched.
pub const MARK: u8 = 1;

// Whether a line of a kind ends the file; a bad line, which has none, does not.
pub fn is_end(kind: Option<Kind>) -> bool
    ensures { result ≡ unwrap_or (option_map is_end kind) false }
{
    matches!(kind, Some(Kind::End))
}

// Whether some of the marks are set.
pub fn any_touched(touched: &[u8]) -> bool
    ensures { result ≡ any (eqb mark) touched.now }
{
    touched.iter().any(|byte| MARK == *byte)
}

// Refuses a line behind others by the first cause that holds of it.
pub fn judge(read: Option<Line>, shift: i16, ended: bool, touched: &[u8]) -> Result<(), Cause>
    requires { length touched.now ≡ flash.bytes }
    ensures { result ≡ verdict_of shift ended touched.now read }
{
    if ended {
        return Err(Cause::BadLine);
    }
    let read = read.ok_or(Cause::BadLine)?;
    let right = read.right;
    if !right {
        return Err(Cause::BadChecksum);
    }
    if let Some(at) = placing::place(Some(read), shift)? {
        let over = any_touched(&touched[at..at + read.bytes]);
        if over {
            return Err(Cause::Overlap);
        }
    }
    Ok(())
}

// Marks the bytes that a line touches; a bad line touches none.
pub fn touch(read: Option<Line>, shift: i16, touched: &mut [u8])
    requires { length touched.old ≡ flash.bytes }
    ensures { touched.new ≡ touched_by shift read touched.old }
{
    let Some(read) = read else { return };
    match placing::place(Some(read), shift) {
        Ok(Some(at)) => words::fill(touched, at, read.bytes, MARK),
        Ok(None) => {}
        Err(_) => {}
    }
}
