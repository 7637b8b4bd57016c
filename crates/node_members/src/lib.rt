//! Whether a position is a member of a lowered tree, asking every node anew.
#![tactic(auto)]

mod asking;
mod looks;

pub use asking::holds;
