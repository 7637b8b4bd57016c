//! The calls that take an expression.

ghost use Rattle.std.specs.Prelude.{◌≡◌};
ghost use Rattle.expr_grammar.specs.Calls.{takes_expression, unary_named};

use expr_tokens::Word;
use moment_core::UnaryOp;

/// Whether the word is the name of a call that takes an expression.
pub(crate) fn takes_expression(word: Word) -> bool
    ensures { result ≡ takes_expression word }
{
    matches!(
        word,
        Word::During | Word::Pairs | Word::Starts | Word::Ends | Word::Shift
    )
}

/// What the call of this name makes of one expression, with the number behind it if there is one.
pub(crate) fn unary_named(name: Word, number: Option<i64>) -> Option<UnaryOp>
    ensures { result ≡ unary_named name number }
{
    match (name, number) {
        (Word::During, Some(n)) => Some(UnaryOp::During(n)),
        (Word::Starts, None) => Some(UnaryOp::Starts),
        (Word::Ends, None) => Some(UnaryOp::Ends),
        (Word::Shift, Some(n)) => Some(UnaryOp::Shift(n)),
        _ => None,
    }
}
