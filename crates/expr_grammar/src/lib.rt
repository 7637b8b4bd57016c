//! The grammar of the expression language: from tokens to syntax trees.
#![tactic(auto)]

mod calls;
mod fault;
mod fields;
mod laws;
mod parser;
mod syntax;

pub use fault::ParseFault;
pub use laws::grammar_laws;
pub use parser::{NESTING_LIMIT, parse};
pub use syntax::{BinaryOp, Field, Key, SpanBound, SyntaxTree, SyntaxTrees};
