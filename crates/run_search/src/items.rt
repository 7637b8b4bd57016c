ghost use Rattle.std.specs.Prelude.{◌≡◌};
ghost use Rattle.moment_core.specs.Line.{IsCalendarPosition};
ghost use Rattle.plan_core.specs.Plans.{window_of_plan};
ghost use Rattle.run_search.specs.Runs.{beyond, high_end, item_between, item_from, low_end};

use cert_audit::frame_of;
use frame_core::window;
use moment_core::{Dir, HIGH, LOW, Pos};
use plan_core::Plan;
use span_core::{Bound, Run, run_of};

/// The run of the members from a near to a far position in the direction, whichever they are. Its
/// bounds are closed at moments and open at open seconds; at the calendar range's own end there is
/// none, `Inf`, where nothing differs past the other position for ever, by the set's frame, and
/// else `Edge`.
pub fn item_from(plan: &Plan, dir: Dir, near: Pos, far: Pos) -> Run
    requires near { IsCalendarPosition near.0 }
    requires far { IsCalendarPosition far.0 }
    ensures { result ≡ item_from (window_of_plan plan.now) dir near.0 far.0 }
{
    match dir {
        Dir::Fore => item_between(plan, near, far),
        Dir::Back => item_between(plan, far, near),
    }
}

fn item_between(plan: &Plan, low: Pos, high: Pos) -> Run
    requires low { IsCalendarPosition low.0 }
    requires high { IsCalendarPosition high.0 }
    ensures { result ≡ item_between (window_of_plan plan.now) low.0 high.0 }
{
    Run {
        first: low_end(plan, low, high),
        last: high_end(plan, low, high),
    }
}

fn low_end(plan: &Plan, low: Pos, high: Pos) -> Bound
    requires low { IsCalendarPosition low.0 }
    ensures { result ≡ low_end (window_of_plan plan.now) low.0 high.0 }
{
    if low.0 == 2 * LOW {
        beyond(plan, Dir::Back, high)
    } else {
        run_of(low, low).first
    }
}

fn high_end(plan: &Plan, low: Pos, high: Pos) -> Bound
    requires high { IsCalendarPosition high.0 }
    ensures { result ≡ high_end (window_of_plan plan.now) low.0 high.0 }
{
    if high.0 == 2 * HIGH {
        beyond(plan, Dir::Fore, low)
    } else {
        run_of(high, high).last
    }
}

/// The bound at the range's own end of a run whose other end is the position.
fn beyond(plan: &Plan, dir: Dir, p: Pos) -> Bound
    ensures { result ≡ beyond (window_of_plan plan.now dir p.0) }
{
    match frame_of(plan.ready()) {
        Some(frame) => match window(frame, p, dir) {
            Some(_) => Bound::Inf,
            None => Bound::Edge,
        },
        None => Bound::Edge,
    }
}
