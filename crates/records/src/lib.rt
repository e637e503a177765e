// The lines of a text of S-records: where each ends, what it says, and its data's digits as a part of it.
#![tactic(auto)]

pub mod digits;
pub mod ends;
pub mod held;
pub mod reading;

// What a line is that is not bad.
#[derive(Clone, Copy)]
pub enum Kind {
    Header,
    Data,
    Count,
    End,
}

// What a line that is not bad says beside its data: its kind, its address, how many data bytes it has, and whether its checksum is right.
#[derive(Clone, Copy)]
pub struct Line {
    pub kind: Kind,
    pub address: u32,
    pub bytes: usize,
    pub right: bool,
}
