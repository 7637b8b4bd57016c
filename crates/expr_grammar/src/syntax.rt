ghost use Rattle.std.specs.Prelude.{◌≡◌, [], ◌∷◌, ◌++◌, IfOk};
ghost use Rattle.expr_grammar.specs.Form.{Binary, Span, Unary};
ghost use Rattle.expr_grammar.specs.Syntax.{form_of, places_of};

use moment_core::{Op, Stamp, UnaryOp};
use rule_core::Freq;
use std::alloc::{AllocError, Global};

/// A bound of a span as it was written: closed by `start` or `end`, open by `after` or `before`.
#[derive(Clone, Copy, Debug, PartialEq, Eq)]
pub struct SpanBound {
    pub closed: bool,
    /// None where the literal names no moment of the calendar range.
    pub stamp: Option<Stamp>,
}

/// A key of a rule's field that has numbers.
#[derive(Clone, Copy, Debug, PartialEq, Eq)]
pub enum Key {
    Months,
    Weeks,
    Days,
    Hours,
    Minutes,
    Seconds,
    Interval,
    WeekStart,
}

/// A field of a rule as it was written.
#[derive(Debug, Drop)]
pub enum Field {
    /// `days=1,-1`: a key and its numbers, of which `interval` and `week_start` have just one.
    Values(Key, Vec<i64>),
    /// `start=..`, with None where the literal names no moment of the calendar range.
    Start(Option<Stamp>),
}

/// What makes an expression of two others.
#[derive(Clone, Copy, Debug)]
pub enum BinaryOp {
    /// The operator between them.
    Infix(Op),
    /// `pairs(.., ..)`
    Pairs,
}

/// An expression as it was written, with what its tokens held.
#[derive(Debug)]
pub enum SyntaxTree {
    /// `empty()`
    Empty,
    /// `{ .. }`, with None where a literal names no moment of the calendar range.
    List(Vec<Option<Stamp>>),
    /// `span( .. )`
    Span {
        /// The first byte of the name `span`.
        place: usize,
        low: Option<SpanBound>,
        high: Option<SpanBound>,
    },
    /// `weekly( .. )` and its like, with the fields in the order of the text and each key at most
    /// once.
    Rule {
        freq: Freq,
        fields: Vec<Field>,
    },
    /// `rrule("..", ..)`: the text of a recurrence rule of RFC 5545, and its first moment, with
    /// None where the literal names no moment of the calendar range.
    Rrule {
        text: Vec<u8>,
        start: Option<Stamp>,
    },
    /// What is made of one expression.
    Unary(UnaryOp, Box<SyntaxTree>),
    /// What is made of two.
    Binary(BinaryOp, Box<SyntaxTree>, Box<SyntaxTree>),
}

// A loop, so that a long chain of operators doesn't run out of stack.
impl Drop for SyntaxTree {
    fn drop(mut self) {
        loop {
            match self {
                SyntaxTree::Empty => return,
                SyntaxTree::List(_) => return,
                SyntaxTree::Span {
                    place: _,
                    low: _,
                    high: _,
                } => return,
                SyntaxTree::Rule { freq: _, fields: _ } => return,
                SyntaxTree::Rrule { text: _, start: _ } => return,
                SyntaxTree::Unary(_, inner) => self = Box::into_inner(inner),
                SyntaxTree::Binary(_, left, _) => self = Box::into_inner(left),
            }
        }
    }
}

/// One expression, or two with a `;` between them.
#[derive(Debug, Drop)]
pub struct SyntaxTrees {
    pub first: SyntaxTree,
    pub second: Option<SyntaxTree>,
}

/// A span with its name at the place.
pub(crate) fn spanned(place: usize, low: Option<SpanBound>, high: Option<SpanBound>) -> SyntaxTree
    ensures form { form_of result ≡ Span low high }
    ensures places { places_of result ≡ place ∷ [] }
{
    SyntaxTree::Span { place, low, high }
}

/// What is made of one expression.
pub(crate) fn unary(alloc: Global, op: UnaryOp, a: SyntaxTree) -> Result<SyntaxTree, AllocError>
    ensures form { IfOk result (λ t. form_of t ≡ Unary op (form_of a)) }
    ensures places { IfOk result (λ t. places_of t ≡ places_of a) }
{
    Ok(SyntaxTree::Unary(op, Box::new(alloc, a)?))
}

/// What is made of two expressions.
pub(crate) fn binary(
    alloc: Global,
    op: BinaryOp,
    a: SyntaxTree,
    b: SyntaxTree,
) -> Result<SyntaxTree, AllocError>
    ensures form { IfOk result (λ t. form_of t ≡ Binary op (form_of a) (form_of b)) }
    ensures places { IfOk result (λ t. places_of t ≡ places_of a ++ places_of b) }
{
    let a = Box::new(alloc, a)?;
    let b = Box::new(alloc, b)?;
    Ok(SyntaxTree::Binary(op, a, b))
}
