// Writes a reply: what is fixed, or what is read from a memory.
#![tactic(auto)]

pub mod in_bytes;
pub mod in_frames;

ghost use Rattle.std.specs.Prelude.{◌≡◌, List, ◌∷◌, ℕ, ◌+◌, ◌≤◌, T, length};
ghost use Rattle.words.specs.Bytes.{four_bytes};
ghost use Rattle.words.specs.Lists.{join, part};
ghost use Rattle.words.specs.Over.{put};
ghost use Rattle.board.specs.Board.{extent_of};
ghost use Rattle.board.specs.Quantities.{largest_count};
ghost use Rattle.word_crc.specs.Words.{word_crc};
ghost use Rattle.memories.specs.Lent.{shows};
ghost use Rattle.memories.specs.Memories.{proper, bytes_of};
ghost use Rattle.command.specs.Says.{reply_room, ack_byte, tells, says, sayable, fixed, Said};
ghost use Rattle.reply.specs.Fixed.{fixed_room, listing, Lists};

use board::{Board, Region};
use command::{FixedReply, Reply, code};
use memories::Shown;

// ACK and NACK.
pub const ACK: u8 = 0x79;

pub const NACK: u8 = 0x1F;

// The byte before the product ID.
const DEVICE_TOLD: u8 = 0x04;

// The bytes of the longest fixed reply, that to 0x00 on CAN.
pub const LONGEST: usize = 18;

// What 0x01 tells, between two ACKs.
const VERSION: &[u8] = &[
    ACK,
    Board::VERSION,
    Board::BID_FIRST,
    Board::BID_SECOND,
    ACK,
];

// What 0x02 tells, between two ACKs.
// Kept: the product by its bytes and not by `to_be_bytes`, since a constant's value calls no function.
const DEVICE: &[u8] = &[
    ACK,
    DEVICE_TOLD,
    (Board::PRODUCT / 256 % 256) as u8,
    (Board::PRODUCT % 256) as u8,
    (Board::PRODUCT / 16777216 % 256) as u8,
    (Board::PRODUCT / 65536 % 256) as u8,
    Board::PROJECT,
    ACK,
];

// The bytes of an answer to 0x00, with a count and two bytes behind the commands that both carriers have.
pub fn listing(count: u8, first: u8, second: u8) -> [u8; LONGEST]
    ensures { result ≡ listing count first second }
{
    [
        ACK,
        count,
        Board::VERSION,
        code::GET_COMMANDS,
        code::GET_VERSION,
        code::GET_DEVICE_ID,
        code::READ_MEMORY,
        code::JUMP,
        code::WRITE_MEMORY,
        code::ERASE,
        code::PROGRAM_PROTECT,
        code::PROGRAM_UNPROTECT,
        code::ACCESS_PROTECT,
        code::ACCESS_UNPROTECT,
        code::FIRMWARE_CRC,
        code::RESET_DEVICE,
        first,
        second,
    ]
}

// Writes ACK and bytes.
fn say_bytes(bytes: &[u8], buffer: &mut [u8]) -> usize
    requires { (length bytes.now ≤ largest_count) × (reply_room ≤ length buffer.old) }
    ensures { (result ≡ length bytes.now + 1) × (buffer.new ≡ put buffer.old 0 (ack_byte ∷ bytes.now)) }
{
    buffer[0] = ACK;
    words::lay(buffer, 1, bytes);
    bytes.len() + 1
}

// Writes ACK and the four bytes of a checksum, high first.
fn say_crc(value: u32, buffer: &mut [u8]) -> usize
    requires { reply_room ≤ length buffer.old }
    ensures { (result ≡ length (ack_byte ∷ four_bytes value)) × (buffer.new ≡ put buffer.old 0 (ack_byte ∷ four_bytes value)) }
{
    say_bytes(&value.to_be_bytes(), buffer)
}

// Writes x bytes of a region behind ACK.
fn say_data(region: Region, at: usize, x: usize, shown: Shown<'_>, buffer: &mut [u8]) -> usize
    requires { T (proper (shows shown)) × (x ≤ largest_count) × (at + x ≤ (extent_of region).bytes)
        × (reply_room ≤ length buffer.old) }
    ensures { (result ≡ x + 1) × (buffer.new ≡ put buffer.old 0 (ack_byte ∷ part at x (bytes_of region (shows shown.entry)))) }
{
    let memory: &[u8] = match region {
        Region::Flash => shown.flash,
        Region::Sram => shown.sram,
        Region::Usd => shown.usd,
    };
    say_bytes(&memory[at..at + x], buffer)
}

// The bytes of what is told whatever the memories hold, given what the carrier tells of its commands.
fn fixed_bytes(commands: &[u8], told: FixedReply) -> &[u8]
    requires { length commands.now ≤ fixed_room }
    ensures few { length result.now ≤ fixed_room }
    ensures told { (list : List ℕ) → Lists commands.now list → result.now ≡ join (tells list told) }
{
    match told {
        FixedReply::Silence => &[],
        FixedReply::Ack => &[ACK],
        FixedReply::AckAck => &[ACK, ACK],
        FixedReply::Nack(_) => &[NACK],
        FixedReply::AckNack(_) => &[ACK, NACK],
        FixedReply::Commands => commands,
        FixedReply::Version => VERSION,
        FixedReply::DeviceId => DEVICE,
    }
}

// Writes the checksum of bytes behind ACK.
fn say_sum(bytes: &[u8], buffer: &mut [u8]) -> usize
    requires { reply_room ≤ length buffer.old }
    ensures { (result ≡ length (ack_byte ∷ four_bytes (word_crc bytes.now)))
        × (buffer.new ≡ put buffer.old 0 (ack_byte ∷ four_bytes (word_crc bytes.now))) }
{
    say_crc(word_crc::crc(bytes), buffer)
}

// Writes the bytes of a reply that can be given, message behind message, and tells how many; what a carrier tells of its commands is given.
pub fn say(commands: &[u8], reply: Reply, shown: Shown<'_>, buffer: &mut [u8]) -> usize
    requires { (length commands.now ≤ fixed_room) × T (proper (shows shown)) × T (sayable reply) × (reply_room ≤ length buffer.old) }
    ensures { ((list : List ℕ) → Lists commands.now list → Said (join (says list reply (shows shown.entry))) result buffer.old buffer.new)
        × (result ≤ reply_room) × (T (fixed reply) → result ≤ fixed_room) }
{
    match reply {
        Reply::Data(region, at, x) => say_data(region, at, x, shown, buffer),
        Reply::Crc(at, n) => say_sum(&shown.flash[at..at + n], buffer),
        Reply::Fixed(told) => {
            let bytes = fixed_bytes(commands, told);
            words::lay(buffer, 0, bytes);
            bytes.len()
        }
    }
}
