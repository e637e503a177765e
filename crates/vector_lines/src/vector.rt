// Reads a vector (docs/VECTORS.md).
ghost use Rattle.std.specs.Prelude.{◌≡◌, ◌+◌, ◌≤◌, length, get_or, IfSome};
ghost use Rattle.numbers.specs.Numbers.{short_bytes};
ghost use Rattle.words.specs.Over.{put};
ghost use Rattle.vector_lines.specs.Sizes.{vector_bytes};
ghost use Rattle.vector_lines.specs.Vectors.{filled, extent, flash_in, sram_in, usd_in, buffer_in, session_said, Takes, Written};

use crate::FIELDS;
use board::Board;
use boot::Session;
use desk_lines::line;
use numbers::SHORT;
use std::io::Read;
use words::FIELD;

// How many bytes a vector has, and where its parts stand: first a session's numbers, as they are lent.
pub const BYTES: usize = 83;

const STAGED: usize = session_bytes::STAGED;

const STAGED_FRONT: usize = 25;

pub const FLASH: usize = 41;

pub const SRAM: usize = 47;

pub const USD: usize = 53;

const PROTECTION: usize = 59;

const SECTORS: usize = 60;

pub const BUFFER: usize = 64;

pub const BYTE: usize = 69;

pub const FRAME_LENGTH: usize = 70;

pub const FRAME: usize = 71;

const FRAME_BYTES: usize = BYTES - FRAME;

// Where, behind a memory's length, its seed and its stride stand.
const SEED: usize = SHORT;

const STRIDE: usize = SEED + 1;

// Where a vector's bytes end in its line, and how many characters that has with its LF.
const FIELDS_END: usize = FIELDS + FIELD * BYTES;

const LINE: usize = FIELDS_END + 1;

// The letter of a vector whose call takes a byte.
const TAKES_BYTE: u8 = b'B';

// A vector: the letter of its line, and its bytes.
#[derive(Clone, Copy)]
pub struct Vector {
    pub letter: u8,
    pub bytes: [u8; BYTES],
}

// What the call of a vector takes.
#[derive(Clone, Copy)]
pub enum Input<'a> {
    Byte(u8),
    Frame(&'a [u8]),
}

// Fills a memory by a seed and a stride from each byte to the next.
fn fill(memory: &mut [u8], seed: u8, stride: u8)
    ensures { memory.new ≡ filled seed stride (length memory.old) }
{
    let mut value = seed;
    for slot in memory.iter_mut() {
        *slot = value;
        value = value.wrapping_add(stride);
    }
}

// Lays bytes over a memory from a place on, as far as it reaches.
fn lay(memory: &mut [u8], at: usize, bytes: &[u8])
    ensures { memory.new ≡ put memory.old at bytes.now }
{
    if at < memory.len() {
        let n = bytes.len().min(memory.len() - at);
        words::lay(memory, at, &bytes[..n]);
    }
}

impl Vector {
    // The vector that the next line writes.
    pub fn read<F: Read>(from: &mut F) -> Option<Vector>
        ensures { IfSome result (λ v. Written (F.remaining from.old) (F.remaining from.new) v.letter v.bytes) }
    {
        let mut text = [0u8; LINE];
        from.read_exact(&mut text).ok()?;
        let fields = &text[FIELDS..FIELDS_END];
        let good = line::are_fields(fields);
        if !good {
            return None;
        }
        let mut bytes = [0u8; BYTES];
        desk_written::bytes(fields, &mut bytes);
        Some(Vector {
            letter: text[0],
            bytes,
        })
    }

    // The session: its numbers as they are lent, and its staged bytes by seed and stride and one by one.
    pub fn session(&self) -> Session
        ensures { result ≡ session_said self.now.bytes }
    {
        let mut staged = memories::none_staged();
        fill(&mut staged, self.bytes[STAGED], self.bytes[STAGED + 1]);
        lay(&mut staged, 0, &self.bytes[STAGED_FRONT..FLASH]);
        let mut lent = [0u8; session_bytes::LENGTH];
        words::lay(&mut lent, 0, &self.bytes[..STAGED]);
        words::lay(&mut lent, STAGED, &staged);
        session_bytes::read(&lent)
    }

    // As much of a room as is said at a place, filled by the seed behind that and a stride.
    fn memory<'a>(&self, at: usize, stride: u8, room: &'a mut [u8]) -> &'a mut [u8]
        requires { at + short_bytes + 1 ≤ vector_bytes }
        ensures { result.now ≡ filled (get_or self.now.bytes (at + short_bytes) 0) stride (extent at self.now.bytes (length room.old)) }
    {
        let n = (numbers::short_at(&self.bytes, at) as usize).min(room.len());
        let memory = &mut room[..n];
        fill(memory, self.bytes[at + SEED], stride);
        memory
    }

    // The flash, in a room for it.
    pub fn flash<'a>(&self, room: &'a mut [u8]) -> &'a mut [u8]
        ensures { result.now ≡ flash_in self.now.bytes (length room.old) }
    {
        self.memory(FLASH, self.bytes[FLASH + STRIDE], room)
    }

    // The SRAM, in a room for it.
    pub fn sram<'a>(&self, room: &'a mut [u8]) -> &'a mut [u8]
        ensures { result.now ≡ sram_in self.now.bytes (length room.old) }
    {
        self.memory(SRAM, self.bytes[SRAM + STRIDE], room)
    }

    // User system data, in a room for it: by seed and stride, and by the bytes that are said one by one.
    pub fn usd<'a>(&self, room: &'a mut [u8]) -> &'a mut [u8]
        ensures { result.now ≡ usd_in self.now.bytes (length room.old) }
    {
        let usd = self.memory(USD, self.bytes[USD + STRIDE], room);
        lay(usd, Board::PROTECTION, &self.bytes[PROTECTION..SECTORS]);
        lay(usd, Board::SECTOR_BITS, &self.bytes[SECTORS..BUFFER]);
        usd
    }

    // The reply buffer, in a room for it, whose bytes are all one value.
    pub fn buffer<'a>(&self, room: &'a mut [u8]) -> &'a mut [u8]
        ensures said { result.now ≡ buffer_in self.now.bytes (length room.old) }
        ensures fits { length result.now ≤ length room.old }
    {
        self.memory(BUFFER, 0, room)
    }

    // What the call takes, of which the letter tells whether it is a byte.
    pub fn input(&self) -> Input<'_>
        ensures { Takes self.now.letter self.now.bytes result }
    {
        if self.letter == TAKES_BYTE {
            return Input::Byte(self.bytes[BYTE]);
        }
        let n = usize::from(self.bytes[FRAME_LENGTH]).min(FRAME_BYTES);
        Input::Frame(&self.bytes[FRAME..FRAME + n])
    }
}
