//! The texts of tokens, which are the places of walks.
//!
//! A token is written as its direction, its place, the first position of the run in which it stands
//! or `-`, and the end of its window, with `:` between them, as `fore:1942855201:-:500556326398`.
#![tactic(auto)]

mod laws;
mod reading;
mod writing;

pub use laws::token_laws;
pub use reading::read_token;
pub use writing::{LONGEST_TOKEN, TokenText, write_token};
