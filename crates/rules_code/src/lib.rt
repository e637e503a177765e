// What each command decides that names no list of sectors, as the rules say: of the board only a view is seen.
#![tactic(auto)]

pub mod at_once;
pub mod jump;
pub mod protected;
pub mod read;
pub mod sent;
pub mod sum;
pub mod write;
