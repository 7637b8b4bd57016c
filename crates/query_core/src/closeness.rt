ghost use Rattle.std.specs.Prelude.{◌≡◌, ◌-ℤ◌, unsigned_abs};
ghost use Rattle.query_core.specs.Neighbours.{closer_of, closer_run, moment_at};

use moment_core::Moment;
use span_core::{Bound, Near, Run};

/// The moment of a bound, where it has one.
fn moment_at(bound: Bound) -> Option<Moment>
    ensures { result ≡ moment_at bound }
{
    match bound {
        Bound::Closed(t) => Some(t),
        Bound::Open(t) => Some(t),
        Bound::Inf => None,
        Bound::Edge => None,
    }
}

/// How many seconds lie between two moments.
fn away(a: Moment, b: Moment) -> u64
    ensures { result ≡ unsigned_abs (a.0 -ℤ b.0) }
{
    a.0.abs_diff(b.0)
}

/// Of two runs before and after a moment the nearer one, by their bounds on its side; the earlier
/// one on a tie.
fn closer_run(at: Moment, before: Run, after: Run) -> Run
    ensures { result ≡ closer_run at.0 before after }
{
    match (moment_at(before.last), moment_at(after.first)) {
        (Some(left), Some(right)) if away(right, at) < away(at, left) => after,
        _ => before,
    }
}

/// The closer one of what is found before and after a moment.
pub(crate) fn closer_of(at: Moment, before: Near, after: Near) -> Near
    ensures { result ≡ closer_of at.0 before after }
{
    match (before, after) {
        (Near::Found(before), Near::Found(after)) => Near::Found(closer_run(at, before, after)),
        (Near::Found(before), Near::None(_)) => Near::Found(before),
        (Near::Found(before), Near::Edge) => Near::Found(before),
        (Near::None(_), after) => after,
        (Near::Edge, Near::Found(after)) => Near::Found(after),
        _ => Near::Edge,
    }
}
