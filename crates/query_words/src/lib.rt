//! The words of the command line.
//!
//! The first word is the command, and each later one `key=value` with one of the command's keys, as
//! in `next at=2024-01-01T00:00:00Z budget=5`. They are read whole into a query, or the first bad
//! word is told by its number.
#![tactic(auto)]

mod commands;
mod laws;
mod queries;
mod reading;
mod settings;
mod values;

pub use commands::{Command, Key};
pub use laws::words_laws;
pub use queries::{Neighbour, Query, WordsFault};
pub use reading::read_words;
pub use values::{DEFAULT_BUDGET, DEFAULT_LIMIT, MAX_BUDGET, MAX_LIMIT};
