//! Recurrence rules: field rules, and the rules of RFC 5545 (3.3.10).
#![tactic(auto)]

mod faults;
mod field;
mod ical;
mod laws;
mod lists;
mod part;
mod rows;

pub use field::{Counted, FieldRule};
pub use ical::IcalRule;
pub use laws::rule_laws;
pub use lists::{DayItem, DayItems, Signed};
pub use part::{Freq, Part, RuleFault};
pub use rows::{field_rows, ical_rows};
