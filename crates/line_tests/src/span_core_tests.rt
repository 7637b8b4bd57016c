ghost use Rattle.span_core.specs.Bounds.{IsGiven};

use moment_core::{Moment, Pos, in_range};
use span_core::{Bound, Empty, Run, Span, run_of};
use std::test::Fail;

/// A span from the moment 0 to `high`, and one from `low` to the moment 20.
fn two_spans(high: Bound, low: Bound) -> Result<(Span, Span), Empty>
    requires high { IsGiven high }
    requires low { IsGiven low }
{
    let below = Span::new(Bound::Closed(Moment(0)), high)?;
    let above = Span::new(low, Bound::Closed(Moment(20)))?;
    Ok((below, above))
}

fn touches(high: Bound, low: Bound) -> Result<bool, Empty>
    requires high { IsGiven high }
    requires low { IsGiven low }
{
    let (below, above) = two_spans(high, low)?;
    Ok(below.touch(&above) && above.touch(&below))
}

#[test]
fn spans_touch_where_no_moment_and_no_open_second_is_left_out(rt: HostRuntime) {
    let closed = Bound::Closed(Moment(10));
    let open = Bound::Open(Moment(10));
    assert_eq!(rt; touches(closed, closed), Ok(true));
    assert_eq!(rt; touches(closed, open), Ok(true));
    assert_eq!(rt; touches(open, closed), Ok(true));
    assert_eq!(rt; touches(open, open), Ok(false));
    assert_eq!(rt; touches(closed, Bound::Closed(Moment(11))), Ok(false));
    assert_eq!(rt; touches(Bound::Open(Moment(11)), open), Ok(true));
}

#[test]
fn spans_meet_between_the_inner_bounds(rt: HostRuntime) -> Result<(), Fail> {
    let (below, above) = two_spans(Bound::Open(Moment(10)), Bound::Open(Moment(5)))?;
    let inner = Span::new(Bound::Open(Moment(5)), Bound::Open(Moment(10)))?;
    assert_eq!(rt; below.meet(&above), Some(inner));
    assert!(rt;
        !inner.holds(Pos(10))
            && inner.holds(Pos(11))
            && inner.holds(Pos(19))
            && !inner.holds(Pos(20))
    );
    let (below, above) = two_spans(Bound::Open(Moment(10)), Bound::Closed(Moment(10)))?;
    assert_eq!(rt; below.meet(&above), None);
    Ok(())
}

#[test]
fn no_span_is_empty(rt: HostRuntime) {
    let closed = Bound::Closed(Moment(-1));
    let open = Bound::Open(Moment(-1));
    assert!(rt; Span::new(closed, closed).is_ok());
    assert_eq!(rt; Span::new(closed, open), Err(Empty));
    assert_eq!(rt; Span::new(open, closed), Err(Empty));
    assert_eq!(rt; Span::new(open, open), Err(Empty));
    assert!(rt; Span::new(open, Bound::Open(Moment(0))).is_ok());
    assert!(rt; Span::new(Bound::Inf, Bound::Inf).is_ok());
}

#[test]
fn runs_are_closed_at_moments_and_open_at_open_seconds(rt: HostRuntime) {
    let closed = |t: i64| Bound::Closed(Moment(t));
    let open = |t: i64| Bound::Open(Moment(t));
    assert_eq!(rt;
        run_of(Pos(4), Pos(6)),
        Run {
            first: closed(2),
            last: closed(3)
        }
    );
    assert_eq!(rt;
        run_of(Pos(5), Pos(5)),
        Run {
            first: open(2),
            last: open(3)
        }
    );
    assert_eq!(rt;
        run_of(Pos(-3), Pos(-2)),
        Run {
            first: open(-2),
            last: closed(-1)
        }
    );
    assert_eq!(rt;
        run_of(Pos(-4), Pos(-3)),
        Run {
            first: closed(-2),
            last: open(-1)
        }
    );
    let whole = Run {
        first: closed(-4_611_686_018_427_387_904),
        last: open(4_611_686_018_427_387_904),
    };
    assert_eq!(rt; run_of(Pos(i64::MIN), Pos(i64::MAX)), whole);
}

/// The moments at which a span begins and ends, neither of them its own, or None where it goes on
/// for ever.
type Ends = (Option<i64>, Option<i64>);

/// The open bound at a moment of the calendar range, or no bound.
fn open_at(end: Option<i64>) -> Bound
    ensures { IsGiven result }
{
    match end {
        Some(t) if in_range(Moment(t)) => Bound::Open(Moment(t)),
        _ => Bound::Inf,
    }
}

#[test]
fn spans_that_go_on_for_ever_meet_between_the_ends_that_are_given(
    rt: HostRuntime,
) -> Result<(), Fail> {
    let rows: [(Ends, Ends, Option<Ends>); 7] = [
        ((None, Some(10)), (Some(5), None), Some((Some(5), Some(10)))),
        ((Some(5), None), (None, Some(10)), Some((Some(5), Some(10)))),
        ((None, None), (None, Some(10)), Some((None, Some(10)))),
        ((Some(5), None), (None, None), Some((Some(5), None))),
        ((None, None), (None, None), Some((None, None))),
        ((None, Some(6)), (Some(5), None), Some((Some(5), Some(6)))),
        ((None, Some(5)), (Some(5), None), None),
    ];
    for (one, other, want) in rows {
        let one = Span::new(open_at(one.0), open_at(one.1))?;
        let other = Span::new(open_at(other.0), open_at(other.1))?;
        let ends = one.meet(&other).map(|both| (both.low(), both.high()));
        assert_eq!(rt; ends, want.map(|ends| (open_at(ends.0), open_at(ends.1))));
    }
    Ok(())
}
