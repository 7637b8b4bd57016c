//! The texts of RFC 5545 rules.
#![tactic(auto)]

mod fault;
mod laws;
mod names;
mod pieces;
mod reading;
mod writing;

pub use fault::RruleFault;
pub use laws::text_laws;
pub use reading::read_rrule;
pub use writing::write_rrule;
