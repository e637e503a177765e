// What a list of sectors decides, as the rules of Erase and of Program Protect say: of the board only a view is seen.
#![tactic(auto)]

pub mod erase;
pub mod protect;
