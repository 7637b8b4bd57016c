//! Recurrences: sets of moments that are searched by their candidates; the guard that counts their
//! answers, and the book of those that a caller hands in, each under a name.
#![tactic(auto)]

mod catalog;
mod guarded;
mod laws;
mod members;
mod recurrence;

pub use catalog::Book;
pub use guarded::Guarded;
pub use laws::recurrence_laws;
pub use members::Members;
pub use moment_core::Step;
pub use recurrence::Recurrence;
