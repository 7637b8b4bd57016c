//! The date, time of day and week of a moment, the moment of a date and a time of day or of the nth
//! weekday of a month, and the months one after another.
//!
//! The calendar is the proleptic Gregorian one, by the words and laws of `moment_core`; its dates
//! are `jiff`'s.
#![tactic(auto)]

mod dates;
mod from_fields;
mod months;
mod nth_days;
mod parts;
mod weeks;

pub use from_fields::moment;
pub use months::{CivilMonth, month_at};
pub use nth_days::nth_weekday;
pub use parts::{CivilParts, fields};
