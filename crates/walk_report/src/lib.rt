//! The report of a walk: the lines of its items and a last line, each by one write.
#![tactic(auto)]

mod laws;
mod writing;

pub use laws::report_laws;
pub use writing::write_walk;
