//! Rules of RFC 5545 made ready to be searched, and the last member that a COUNT allows.
#![tactic(auto)]

mod days;
mod frames;
mod laws;
mod leaf;
mod lowering;
mod outcome;
mod settling;
mod times;
mod units;
mod values;

pub use laws::{ical_laws, ical_leaf_laws};
pub use leaf::IcalLeaf;
pub use lowering::{lower_ical, lower_uncounted};
pub use outcome::{Settled, Unsettled};
pub use settling::{settle, settling_laws};
