//! The neighbours of a moment among the runs of a set, found by searches of its plan.
#![tactic(auto)]

mod closeness;
mod laws;
mod neighbours;
mod searches;

pub use laws::{budget_laws, endless_laws, neighbour_laws};
pub use neighbours::{closest, contains, current, next, previous};
