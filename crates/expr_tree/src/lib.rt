//! Trees of sets: what a set is made of, and whether its parts fit together.
#![tactic(auto)]

mod laws;
mod lists;
mod sorting;
mod tree;

pub use laws::{member_laws, tree_laws};
pub use lists::{Name, Stamps};
pub use sorting::{NODE_LIMIT, PATH_LIMIT, Sort, SortFault, sort_of};
pub use tree::{Expr, Kind, Program, Shown};
