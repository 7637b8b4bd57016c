//! The tokens of the expression language.
#![tactic(auto)]

mod class;
mod fault;
mod laws;
mod names;
mod reading;
mod token;

pub use fault::TokenFault;
pub use laws::{token_laws, writing_laws};
pub use reading::{STRING_LIMIT, tokens};
pub use token::{Token, Word};
