// What the programs that make images of S-record files share: their arguments' numbers, and how an image is made.
#![tactic(auto)]

pub mod arguments;
pub mod making;
