//! A walk over a set.

ghost use Rattle.std.specs.Prelude.{◌≤◌};
ghost use Rattle.span_core.specs.Tokens.{IsFit, IsFit-prop};

use expr_tree::Kind;
use moment_core::Clock;
use plan_core::Plan;
use span_core::Token;

/// What a command walks over: a set from a token on, with so many items at most and a budget for
/// each search, for lines on a clock.
#[derive(Drop)]
pub(crate) struct Walking<'b> {
    pub(crate) plan: Plan<'b>,
    pub(crate) from: Token,
    pub(crate) kind: Kind,
    pub(crate) clock: Clock,
    pub(crate) limit: u64,
    pub(crate) budget: u64,
    ghost fit: { IsFit from } by { IsFit-prop from },
    ghost positive: { 1 ≤ budget },
}
