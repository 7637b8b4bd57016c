//! Where a lowered tree may change next, told by its leaves alone.
#![tactic(auto)]

mod laws;
mod places;
mod turns;

pub use laws::room_laws;
pub use places::is_moment;
pub use turns::{Turn, either_turn, next_turn, with_candidate};
