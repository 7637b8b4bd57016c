//! What a query over a text is answered with: a status and lines, or the line of a refusal.
#![tactic(auto)]

mod laws;
mod preparing;
mod refusals;
mod replying;
mod reporting;
mod searching;
mod walking;
mod writing;

pub use laws::reply_laws;
pub use refusals::refuse;
pub use replying::reply;
pub use writing::put;
