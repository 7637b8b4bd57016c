//! What searches over trees of sets owe: from where on a tree repeats, where it may change, which
//! stops are due, and which budgets are ample.
#![tactic(auto)]

mod laws;

pub use laws::{ample_laws, candidate_laws, counting_laws, due_laws, tree_frame_laws};
