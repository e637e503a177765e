// Puts a command at the front of a room that is long enough for any.
// Kept: with a struct for such a room each call would wrap and unwrap it, and each clause say `room.old.bytes.now` in place of `room.old`.
ghost use Rattle.std.specs.Prelude.{◌≡◌, ◌+◌, ◌≤◌, ◌<◌, length};
ghost use Rattle.words.specs.Over.{put};
ghost use Rattle.board.specs.Board.{flash, sectors};
ghost use Rattle.board.specs.Quantities.{largest_count, sector, sectors_from};
ghost use Rattle.host.specs.Commands.{numbers_of};
ghost use Rattle.host.specs.Ranges.{write_of, read_of, erase_of};
ghost use Rattle.host.specs.Refusals.{command_room};
ghost use Rattle.host.specs.Promise.{Puts};

use crate::parts::head;
use board::Sector;
use command::code;
use host::HEAD;
use uart::COMPLEMENTED_BYTE;

// Where the numbers of an erase stand, behind the command and how many they are.
const NUMBERS_AT: usize = COMPLEMENTED_BYTE + Sector::NUMBER_BYTES;

// Puts the write command for n bytes of an image, and tells its length.
pub fn put_write(image: &[u8], offset: usize, n: usize, room: &mut [u8]) -> usize
    requires some { (0 < n) × (n ≤ largest_count) }
    requires inside { (offset + n ≤ flash.bytes) × (length image.now ≡ flash.bytes) }
    requires room { command_room ≤ length room.old }
    ensures { Puts (write_of image.now offset n) room.old result room.new }
{
    let less = (n - 1) as u8;
    let head = head(code::WRITE_MEMORY, offset, less);
    let data = &image[offset..offset + n];
    let sum = words::xor(less, data);
    words::lay(room, 0, &head);
    words::lay(room, HEAD, data);
    words::lay(room, HEAD + n, &[sum]);
    HEAD + n + 1
}

// Puts the read command for n bytes of flash, and tells its length.
pub fn put_read(offset: usize, n: usize, room: &mut [u8]) -> usize
    requires some { (0 < n) × (n ≤ largest_count) }
    requires inside { offset + n ≤ flash.bytes }
    requires room { command_room ≤ length room.old }
    ensures { Puts (read_of offset n) room.old result room.new }
{
    let less = (n - 1) as u8;
    let head = head(code::READ_MEMORY, offset, less);
    let complement = [!less];
    words::lay(room, 0, &head);
    words::lay(room, HEAD, &complement);
    HEAD + 1
}

// Puts the numbers of x sectors in order, from one on.
// Kept: for (place, k) in chunks_exact_mut(2).zip(first..first + x) leaves the bytes unknown, since a proof knows only the length of what was lent as chunks.
fn put_numbers(first: u16, x: u16, room: &mut [u8])
    requires { (first + x ≤ sectors.count) × (command_room ≤ length room.old) }
    ensures { room.new ≡ put room.old 4 (numbers_of (sectors_from (sector first) x)) }
{
    for i in 0..x {
        let number = (first + i).to_be_bytes();
        let at = NUMBERS_AT + Sector::NUMBER_BYTES * usize::from(i);
        words::lay(room, at, &number);
    }
}

// Puts the erase command for the sectors that some bytes of flash touch, and tells its length.
pub fn put_erase(offset: usize, count: usize, room: &mut [u8]) -> usize
    requires some { 0 < count }
    requires inside { offset + count ≤ flash.bytes }
    requires room { command_room ≤ length room.old }
    ensures { Puts (erase_of offset count) room.old result room.new }
{
    let first = Sector::at(offset).0;
    let last = Sector::at(offset + count - 1).0;
    let less = (last - first).to_be_bytes();
    let command = [code::ERASE, !code::ERASE, less[0], less[1]];
    words::lay(room, 0, &command);
    put_numbers(first, last - first + 1, room);
    let end = NUMBERS_AT + Sector::NUMBER_BYTES * (usize::from(last - first) + 1);
    let sum = words::xor(0, &room[COMPLEMENTED_BYTE..end]);
    words::lay(room, end, &[sum]);
    end + 1
}
