//! The runs of a set, found by searches of its plan: where they begin and end, and their bounds.
#![tactic(auto)]

mod finding;
mod items;
mod laws;

pub use finding::{Begun, first_of_run, first_past_gap, holds, last_of_run};
pub use items::item_from;
pub use laws::{ample_place_laws, endless_laws, run_laws};
