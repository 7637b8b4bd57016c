//! Trees made ready for searches, and the plain search that asks every node anew at each step and
//! keeps nothing.
#![tactic(auto)]

mod frames;
mod laws;
mod ready;
mod search;

pub use frames::frame_of;
pub use laws::ready_laws;
pub use lowered_tree::{PlanFault, SETTLE_LIMIT, lawful_laws, settle_laws};
pub use ready::Ready;
pub use search::sweep;
