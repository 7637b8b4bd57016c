//! Walks: the items of a set in a window in order, either way, from any place; and the items of a
//! window from both ends.
#![tactic(auto)]

mod both;
mod laws;
mod steps;
mod tokens;
mod walk;

pub use both::{Items, both_ends, both_laws};
pub use laws::{ample_step_laws, items_laws, step_laws};
pub use span_core::token_fits;
pub use tokens::window_token;
pub use walk::{Walk, walk_laws};
