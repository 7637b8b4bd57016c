//! The lines of output, each with its line feed.
//!
//! A moment is written as its literal, with a `Z` on the absolute clock. A run is written as its
//! bounds with ` .. ` between them, a bracket at a closed bound and a parenthesis at an open one. A
//! bound without a moment is `-inf` or `inf` where the run goes on for ever, and `-edge` or `edge`
//! where nothing is said past the calendar range.
#![tactic(auto)]

mod items;
mod lines;
mod neighbours;
mod parts;
mod pieces;
mod refusals;

pub use items::{line_item, line_more};
pub use lines::{LINE_FEED, Line};
pub use moment_text::read_moment;
pub use neighbours::{line_near, line_test};
pub use refusals::{Refusal, line_refusal};
pub use token_text::read_token;
