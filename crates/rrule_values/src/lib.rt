//! The values of RFC 5545 rules (3.3.10), read and written: names, numbers, lists and UNTIL.
#![tactic(auto)]

mod laws;
mod lists;
mod names;
mod numbers;
mod until;
mod writing;

pub use laws::value_laws;
pub use lists::{are_items, are_numbers, items_in, numbers_in};
pub use names::{day_name, day_named, freq_name, freq_named};
pub use numbers::number;
pub use until::{ends_with_z, is_until_text, put_date_time, until_at};
pub use writing::{put_items, put_number, put_numbers};
