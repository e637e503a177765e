// The rules of the commands, which specs/ says; here is what an erase may ask for.
#![tactic(auto)]

pub mod held;

use board::LessOne;

// What the two selector bytes of an erase ask for.
#[derive(Clone, Copy)]
pub enum Selector {
    // A list of so many sectors.
    Listed(LessOne),
    // All flash, or an erase that this board has not.
    Special(u16),
    Impossible,
}
