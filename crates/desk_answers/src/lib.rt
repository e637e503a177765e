// What desk answers to a line, and to a whole input, which specs/ says.
#![tactic(auto)]

pub mod held;

// The characters that begin an answer.
pub const ANSWERED: u8 = b'>';

pub const NOT_UNDERSTOOD: u8 = b'?';

// The most characters that a character of a line may make desk print: of each field a whole reply, a byte in three characters, and what is noted of it.
pub const CHARACTER_ROOM: usize = can::ROOM + NOTE_ROOM;

// The most characters that a number which is noted of a NACK makes desk print.
const NOTE_ROOM: usize = 40;
