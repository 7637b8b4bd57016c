//! What the program says on standard error of a query that it didn't answer, or not to its end.
//!
//! A message is made after the query has ended, from its words, the text that was read, the status
//! and the line that was written last. It says what is wrong, where, and what would be right.
//! Nothing of it is proved but that it is made safely: what messages say is tested.
#![tactic(auto)]

mod dates;
mod ended;
mod grammar;
mod kept;
mod places;
mod rrules;
mod rules;
mod sets;
mod texts;
mod tokens;
mod words;

pub use ended::{CUT_OFF, Ended, NO_MEMORY, UNREADABLE_WORDS, WAITING, message, unread};
pub use kept::{KeptReader, KeptSink};
