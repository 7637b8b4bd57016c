//! The text of moments.
//!
//! A moment literal is the extended form of ISO 8601: an optional `-`, four digits of the year,
//! `-`, two digits of the month, `-`, two digits of the day, `T`, two digits each of the hour, the
//! minute and the second with `:` between them, and an optional `Z`. With `Z` the moment is
//! absolute, without it floating. The date is one of the proleptic Gregorian calendar, in which the
//! year 0 is the one before the year 1. `-0000` is no year and 60 no second, so that each moment
//! has one literal.
#![tactic(auto)]

mod laws;
mod parts;
mod reading;
mod writing;

pub use laws::literal_laws;
pub use reading::{read_moment, shaped_front};
pub use writing::write_literal;
