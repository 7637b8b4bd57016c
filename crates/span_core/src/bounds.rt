ghost use Rattle.std.specs.Prelude.{◌≡◌, ◌≤ℤ◌, IfSome};
ghost use Rattle.moment_core.specs.Line.{is_moment, position_of};
ghost use Rattle.moment_core.specs.declared.line.TheConstants.{HIGH, LOW};
ghost use Rattle.span_core.specs.Bounds.{IsGiven, first_from, high_bound, last_to, low_bound, run_between};

use moment_core::{Moment, Pos, floor, of};

/// Where a run or a span begins or ends.
#[derive(Clone, Copy, Debug, PartialEq, Eq)]
pub enum Bound {
    /// At the moment, which is a member.
    Closed(Moment),
    /// At the moment, which is no member.
    Open(Moment),
    /// Nowhere: it goes on for ever.
    Inf,
    /// At the end of the calendar range, past which nothing is said.
    Edge,
}

impl Bound {
    /// The first position from this low bound of a span on, if there is one.
    pub fn first_position(self) -> Option<Pos>
        requires { IsGiven self }
        ensures value { result ≡ first_from self }
        ensures in_range { IfSome result (λ first. position_of LOW ≤ℤ first.0) }
    {
        match self {
            Bound::Closed(t) => Some(of(t)),
            Bound::Open(t) => Some(Pos(of(t).0 + 1)),
            Bound::Inf | Bound::Edge => None,
        }
    }

    /// The last position up to this high bound of a span, if there is one.
    pub fn last_position(self) -> Option<Pos>
        requires { IsGiven self }
        ensures value { result ≡ last_to self }
        ensures in_range { IfSome result (λ last. last.0 ≤ℤ position_of HIGH) }
    {
        match self {
            Bound::Closed(t) => Some(of(t)),
            Bound::Open(t) => Some(Pos(of(t).0 - 1)),
            Bound::Inf | Bound::Edge => None,
        }
    }
}

/// A maximal stretch of members.
#[derive(Clone, Copy, Debug, PartialEq, Eq)]
pub struct Run {
    pub first: Bound,
    pub last: Bound,
}

/// The run of the positions from `first` to `last`: closed at a moment, open at an open second.
pub fn run_of(first: Pos, last: Pos) -> Run
    requires { first.0 ≤ℤ last.0 }
    ensures { result ≡ run_between first.0 last.0 }
{
    Run {
        first: low_bound(first),
        last: high_bound(last),
    }
}

fn low_bound(first: Pos) -> Bound
    ensures { result ≡ low_bound first.0 }
{
    if is_moment(first) {
        Bound::Closed(floor(first))
    } else {
        Bound::Open(floor(first))
    }
}

fn high_bound(last: Pos) -> Bound
    ensures { result ≡ high_bound last.0 }
{
    let moment = floor(last);
    if is_moment(last) {
        Bound::Closed(moment)
    } else {
        Bound::Open(Moment(moment.0 + 1))
    }
}

/// Whether the position is a moment, and no open second.
fn is_moment(p: Pos) -> bool
    ensures { result ≡ is_moment p.0 }
{
    2 * floor(p).0 == p.0
}
