//! Bounds, spans and runs of positions, and the answers that searches give.
#![tactic(auto)]

mod answers;
mod bounds;
mod ends;
mod laws;
mod stretch;
mod tokens;

pub use answers::{Answer, Audited, Extreme, Item, Near, Stop, Test, Token, Total, Vacant, Why};
pub use bounds::{Bound, Run, run_of};
pub use ends::{is_up_to, one_back, one_on, range_begin, range_end};
pub use laws::{answer_laws, bound_laws};
pub use stretch::{Empty, Span};
pub use tokens::token_fits;
