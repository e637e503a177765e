// Makes the commands of a range of flash one at a time in lent room, and judges their replies.
#![tactic(auto)]

pub mod judge;
pub mod parts;
pub mod putting;
pub mod refusals;

ghost use Rattle.std.specs.Prelude.{◌≡◌, ◌<◌};
ghost use Rattle.std.specs.Fn.{FnOnceTakesAtMut, FnOnceReturnsAtMut};
ghost use Rattle.host.specs.Promise.{MakesWrite, MakesRead, MakesErase};

use host::{LARGEST, Made, Refusal};

// Makes a command for some bytes of a range, by what puts it in a room and tells its length; for none it makes none.
fn unless_empty<P: FnOnce(&mut [u8]) -> usize>(carried: usize, room: &mut [u8], put: P) -> Made
    requires { 0 < carried → FnOnceTakesAtMut P.FnOnce put room.old }
    ensures carried { result.carried ≡ carried }
    ensures none { carried ≡ 0 → (result.length ≡ 0) × (room.new ≡ room.old) }
    ensures some { 0 < carried → FnOnceReturnsAtMut P.FnOnce put room.old result.length room.new }
{
    if carried == 0 {
        return Made::default();
    }
    let length = put(room);
    Made { length, carried }
}

// Makes the first write command of a range of an image at the front of a room.
pub fn next_write(
    image: &[u8],
    offset: usize,
    count: usize,
    room: &mut [u8],
) -> Result<Made, Refusal>
    ensures { MakesWrite image.now offset count room.old result room.new }
{
    refusals::of_write(image.len(), offset, count, room.len())?;
    let n = count.min(LARGEST);
    Ok(unless_empty(n, room, |room| putting::put_write(image, offset, n, room)))
}

// Makes the first read command of a range at the front of a room.
pub fn next_read(offset: usize, count: usize, room: &mut [u8]) -> Result<Made, Refusal>
    ensures { MakesRead offset count room.old result room.new }
{
    refusals::of_range(offset, count, room.len())?;
    let n = count.min(LARGEST);
    Ok(unless_empty(n, room, |room| putting::put_read(offset, n, room)))
}

// Makes the erase command of the sectors that a range touches at the front of a room.
pub fn only_erase(offset: usize, count: usize, room: &mut [u8]) -> Result<Made, Refusal>
    ensures { MakesErase offset count room.old result room.new }
{
    refusals::of_range(offset, count, room.len())?;
    Ok(unless_empty(count, room, |room| putting::put_erase(offset, count, room)))
}
