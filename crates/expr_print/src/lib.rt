//! The printed form of the expression language.
#![tactic(auto)]

mod fields;
mod printing;

pub use printing::{write_expr, write_program};
