//! Sieves of moments: sets that are given by tests of the day and the time of day, by an interval
//! of units, and by a rank within a unit (RFC 5545 3.3.10).
#![tactic(auto)]

mod bits;
mod candidates;
mod days;
mod known;
mod laws;
mod members;
mod ranks;
mod seek;
mod tables;
mod times;
mod units;

pub use known::KnownRanks;
pub use laws::sieve_laws;
pub use moment_core::{Step, Unit};
pub use tables::{DayTest, RankSet, Sieve};
pub use units::number as unit_number;
