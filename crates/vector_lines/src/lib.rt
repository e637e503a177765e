// Reading a vector, and saying what its call left (docs/VECTORS.md).
#![tactic(auto)]

pub mod report;
pub mod vector;

// Where the bytes begin in the line of a vector or of an answer.
pub const FIELDS: usize = 1;
