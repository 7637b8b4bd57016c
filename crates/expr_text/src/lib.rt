//! The text of the expression language, read.
#![tactic(auto)]

mod building;
mod fault;
mod finding;
mod laws;
mod reading;
mod rules;
mod sorted;

pub use fault::{LONGEST, TextFault};
pub use laws::reading_laws;
pub use reading::{read_program, read_sorted};
pub use sorted::{SortedProgram, SortedSet};
