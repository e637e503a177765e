// Makes single calls that vectors describe, each on a session, memories and a reply buffer of its own, and prints what each left (docs/VECTORS.md).
#![tactic(auto)]

use memories::Lent;
use std::io::{Read, Write};
use vector_lines::report;
use vector_lines::vector::{Input, Vector};

// How many vectors are read at most, a number that no run uses up.
const TURNS: u64 = 0x0008_0000_0000_0000;

// Makes the call of a vector in rooms that are larger, and prints what it left. Rooms are cleared as a function begins: behind an early return they
// would be so twice.
fn answer<W: Write>(to: &mut W, vector: &Vector) -> std::io::Result<()> {
    let mut flash = io::large_buffer();
    let mut sram = io::large_buffer();
    let mut usd = io::buffer();
    let mut buffer = io::buffer();
    let mut lent = Lent {
        flash: vector.flash(&mut flash),
        sram: vector.sram(&mut sram),
        usd: vector.usd(&mut usd),
    };
    let buffer = vector.buffer(&mut buffer);
    let before = vector.session();
    let taken = match vector.input() {
        Input::Byte(byte) => before.take_byte(byte, &mut lent, buffer),
        Input::Frame(frame) => before.take_frame(frame, &mut lent, buffer),
    };
    report::report(to, taken, lent.shown(), buffer)
}

// Reads a vector and answers it, if there was one and it could.
fn turn<F: Read, W: Write>(from: &mut F, to: &mut W) -> Option<()> {
    let vector = Vector::read(from)?;
    answer(to, &vector).ok()
}

fn main(rt: HostRuntime) {
    let mut from = rt.stdin();
    let mut to = rt.stdout();
    for _ in 0..TURNS {
        if turn(&mut from, &mut to).is_none() {
            return;
        }
    }
}
