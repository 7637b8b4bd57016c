//! The plan of a set: what walks and queries ask, one search after another.
#![tactic(auto)]

mod plan;

pub use plan::Plan;
