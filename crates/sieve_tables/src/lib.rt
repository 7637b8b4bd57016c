//! Builders of a sieve's tables and masks from lists of values.
#![tactic(auto)]

mod laws;
mod masks;
mod tables;
mod weekdays;

pub use laws::{lowering_laws, table_laws};
pub use masks::{full_mask, listed_mask, mask_of, plain_mask};
pub use tables::fill;
pub use weekdays::weekday_tables;
