// The kinds of lines that desk hears.
#![tactic(auto)]

pub mod digits;
pub mod line;

// What a line asks for.
#[derive(Clone, Copy)]
pub enum Kind {
    Bytes,
    Frame,
    PowerOn,
    Other,
}
