use crate::lists::Stamps;
use moment_core::Clock;
use rule_core::{FieldRule, IcalRule};
use span_core::Span;

/// Whether a set is made of moments alone.
#[derive(Clone, Copy, Debug, PartialEq, Eq)]
pub enum Kind {
    Moments,
    Spans,
}

/// Which of the moments that show one local time a zone keeps.
#[derive(Clone, Copy, Debug, PartialEq, Eq)]
pub enum Shown {
    Both,
    First,
}

/// A set of positions.
#[derive(Debug)]
pub enum Expr {
    /// No position.
    Empty,
    /// The listed moments.
    List(Stamps),
    /// The positions of the span, with the clocks of its low and its high bound; a bound that isn't
    /// given has any clock.
    Span(Span, Clock, Clock),
    /// The moments of a field rule.
    Field(FieldRule),
    /// The moments of a rule of RFC 5545 (3.3.10).
    Rrule(IcalRule),
    /// The positions of either set.
    Union(Box<Expr>, Box<Expr>),
    /// The positions of both sets.
    Meet(Box<Expr>, Box<Expr>),
    /// The positions of the first set that the second doesn't have.
    Minus(Box<Expr>, Box<Expr>),
    /// The positions that the set doesn't have.
    Not(Box<Expr>),
    /// From each moment of the set the positions of so many seconds: `2t <= p < 2(t + seconds)`.
    During(Box<Expr>, i64),
    /// From each moment of the first set, but for those below the calendar range, the positions up
    /// to the next later moment of the second.
    Pairs(Box<Expr>, Box<Expr>),
    /// The moments at which the runs of the set begin, closed or open.
    Starts(Box<Expr>),
    /// The moments at which they end, closed or open.
    Ends(Box<Expr>),
    /// The positions of the set, so many seconds later.
    Shift(Box<Expr>, i64),
}

// A loop, so that a long chain of operators doesn't run out of stack.
impl Drop for Expr {
    fn drop(mut self) {
        loop {
            match self {
                Expr::Empty => return,
                Expr::List(_) => return,
                Expr::Span(_, _, _) => return,
                Expr::Field(_) => return,
                Expr::Rrule(_) => return,
                Expr::Union(left, _) => self = Box::into_inner(left),
                Expr::Meet(left, _) => self = Box::into_inner(left),
                Expr::Minus(left, _) => self = Box::into_inner(left),
                Expr::Not(inner) => self = Box::into_inner(inner),
                Expr::During(inner, _) => self = Box::into_inner(inner),
                Expr::Pairs(left, _) => self = Box::into_inner(left),
                Expr::Starts(inner) => self = Box::into_inner(inner),
                Expr::Ends(inner) => self = Box::into_inner(inner),
                Expr::Shift(inner, _) => self = Box::into_inner(inner),
            }
        }
    }
}

/// One set, or two for a command that compares them.
#[derive(Debug, Drop)]
pub struct Program {
    pub first: Expr,
    pub second: Option<Expr>,
}
