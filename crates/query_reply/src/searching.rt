//! What is asked of a set by a moment.

ghost use Rattle.std.specs.Prelude.{◌≤◌};
ghost use Rattle.moment_core.specs.Line.{IsCalendarMoment};

use expr_tree::Kind;
use moment_core::{Clock, Moment};
use plan_core::Plan;
use query_words::Neighbour;

/// What a command asks of a set by a moment of the calendar range, with a budget, for a line on a
/// clock.
#[derive(Drop)]
pub(crate) struct Search<'b> {
    pub(crate) plan: Plan<'b>,
    pub(crate) side: Neighbour,
    pub(crate) kind: Kind,
    pub(crate) clock: Clock,
    pub(crate) at: Moment,
    pub(crate) budget: u64,
    ghost in_range: { IsCalendarMoment at.0 },
    ghost positive: { 1 ≤ budget },
}
