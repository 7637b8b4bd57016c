ghost use Rattle.std.specs.Prelude.{◌≡◌, ◌≤◌, false, IfErr, IfOk};
ghost use Rattle.moment_core.specs.Line.{IsCalendarMoment, position_of};
ghost use Rattle.moment_core.specs.declared.line.Dir.TheVariants.{Back, Fore};
ghost use Rattle.span_core.specs.Answers.{IsCalendarNear};
ghost use Rattle.search_core.specs.Due.{IsTestOf};
ghost use Rattle.plan_core.specs.Plans.{due_of_plan, meant_of_plan, members_of_plan, window_of_plan};
ghost use Rattle.run_search.specs.Places.{IsAmpleAt, IsStopAt};
ghost use Rattle.query_core.specs.Answering.{AnswersOrStops, IsAnswered, PlacesBeside, PlacesOfClosest, PlacesOfCurrent, PlacesOfNext, told};
ghost use Rattle.query_core.specs.Endless.{IsForEver, IsForEverClosest, IsForEverCurrent};
ghost use Rattle.query_core.specs.Neighbours.{IsClosestRun, IsCurrentRun, IsNextRun, IsRunBeside};

use crate::closeness::closer_of;
use crate::laws::endless_laws;
use crate::searches::{around, past, past_gap};
use cert_audit::ready_laws;
use moment_core::{Dir, Moment, Steps, of};
use plan_core::Plan;
use run_search::holds;
use span_core::{Near, Stop, Test};
use std::sync::ledger::Ledger;

/// The first run that begins after the moment, by searches of the set forwards, each with the
/// budget.
///
/// Where none begins up to the end of the calendar range, `None` gives the window after which the
/// set repeats, in which nothing differs, so that none ever begins, and `Edge` says nothing of what
/// lies past the range. A run without a last bound never ends. `Budget` comes only where one of the
/// searches stops: from the moment, from the end of its run, or from the beginning of the next one.
pub fn next<L: Ledger>(plan: &mut Plan, at: Moment, budget: u64, steps: &mut Steps<L>) -> Near
    requires range { IsCalendarMoment at.0 }
    requires budget { 1 ≤ budget }
    ensures answer { AnswersOrStops
        (IsNextRun (members_of_plan plan.old) (window_of_plan plan.old) Fore at.0)
        (PlacesOfNext (members_of_plan plan.old) Fore at.0) (due_of_plan plan.old) budget result }
    ensures complete { IsAmpleAt (PlacesOfNext (members_of_plan plan.old) Fore at.0)
        (due_of_plan plan.old) budget → IsAnswered result }
    ensures for_ever { IsForEver (members_of_plan plan.old) Fore (position_of at.0) result }
    ensures in_range { IsCalendarNear result }
    ensures same { meant_of_plan plan.new ≡ meant_of_plan plan.old }
    ensures counted { steps.old ≤ steps.new }
{
    neighbour(plan, Dir::Fore, at, budget, steps)
}

/// The last run that ends before the moment, by searches of the set backwards: the same as `next`,
/// the other way.
pub fn previous<L: Ledger>(plan: &mut Plan, at: Moment, budget: u64, steps: &mut Steps<L>) -> Near
    requires range { IsCalendarMoment at.0 }
    requires budget { 1 ≤ budget }
    ensures answer { AnswersOrStops
        (IsNextRun (members_of_plan plan.old) (window_of_plan plan.old) Back at.0)
        (PlacesOfNext (members_of_plan plan.old) Back at.0) (due_of_plan plan.old) budget result }
    ensures complete { IsAmpleAt (PlacesOfNext (members_of_plan plan.old) Back at.0)
        (due_of_plan plan.old) budget → IsAnswered result }
    ensures for_ever { IsForEver (members_of_plan plan.old) Back (position_of at.0) result }
    ensures in_range { IsCalendarNear result }
    ensures same { meant_of_plan plan.new ≡ meant_of_plan plan.old }
    ensures counted { steps.old ≤ steps.new }
{
    neighbour(plan, Dir::Back, at, budget, steps)
}

/// The run that holds the moment, else what `previous` gives.
///
/// Where the moment is a member, both ends of its run are searched for from there, each with the
/// budget.
pub fn current<L: Ledger>(plan: &mut Plan, at: Moment, budget: u64, steps: &mut Steps<L>) -> Near
    requires range { IsCalendarMoment at.0 }
    requires budget { 1 ≤ budget }
    ensures answer { AnswersOrStops
        (IsCurrentRun (members_of_plan plan.old) (window_of_plan plan.old) at.0)
        (PlacesOfCurrent (members_of_plan plan.old) at.0) (due_of_plan plan.old) budget result }
    ensures complete { IsAmpleAt (PlacesOfCurrent (members_of_plan plan.old) at.0)
        (due_of_plan plan.old) budget → IsAnswered result }
    ensures for_ever { IsForEverCurrent (members_of_plan plan.old) at.0 result }
    ensures in_range { IsCalendarNear result }
    ensures same { meant_of_plan plan.new ≡ meant_of_plan plan.old }
    ensures counted { steps.old ≤ steps.new }
{
    ready_laws(plan.ready());
    endless_laws();
    told(current_at(plan, at, budget, steps))
}

/// The run that holds the moment, else of what `previous` and `next` give the run that is nearer to
/// it, by the moments of the bounds on its side; the earlier one on a tie.
///
/// Where one of the two is found alone, it is that one. Where neither is, it is `Edge` if either
/// is, else the `None` of `next`.
pub fn closest<L: Ledger>(plan: &mut Plan, at: Moment, budget: u64, steps: &mut Steps<L>) -> Near
    requires range { IsCalendarMoment at.0 }
    requires budget { 1 ≤ budget }
    ensures answer { AnswersOrStops
        (IsClosestRun (members_of_plan plan.old) (window_of_plan plan.old) at.0)
        (PlacesOfClosest (members_of_plan plan.old) at.0) (due_of_plan plan.old) budget result }
    ensures complete { IsAmpleAt (PlacesOfClosest (members_of_plan plan.old) at.0)
        (due_of_plan plan.old) budget → IsAnswered result }
    ensures for_ever { IsForEverClosest (members_of_plan plan.old) at.0 result }
    ensures in_range { IsCalendarNear result }
    ensures same { meant_of_plan plan.new ≡ meant_of_plan plan.old }
    ensures counted { steps.old ≤ steps.new }
{
    ready_laws(plan.ready());
    endless_laws();
    told(closest_at(plan, at, budget, steps))
}

/// Whether the moment is a member. `Budget` comes only where a node had to look back from the
/// moment, with at least `budget` candidates and no member on the way.
pub fn contains<L: Ledger>(plan: &mut Plan, at: Moment, budget: u64, steps: &mut Steps<L>) -> Test
    requires range { IsCalendarMoment at.0 }
    requires budget { 1 ≤ budget }
    ensures value { IsTestOf (meant_of_plan plan.old) (position_of at.0) budget result }
    ensures same { meant_of_plan plan.new ≡ meant_of_plan plan.old }
    ensures counted { steps.old ≤ steps.new }
{
    plan.test(of(at), budget, steps)
}

/// The nearest run past the moment, either way.
fn neighbour<L: Ledger>(
    plan: &mut Plan,
    dir: Dir,
    at: Moment,
    budget: u64,
    steps: &mut Steps<L>,
) -> Near
    requires range { IsCalendarMoment at.0 }
    requires budget { 1 ≤ budget }
    ensures answer { AnswersOrStops
        (IsNextRun (members_of_plan plan.old) (window_of_plan plan.old) dir at.0)
        (PlacesOfNext (members_of_plan plan.old) dir at.0) (due_of_plan plan.old) budget result }
    ensures complete { IsAmpleAt (PlacesOfNext (members_of_plan plan.old) dir at.0)
        (due_of_plan plan.old) budget → IsAnswered result }
    ensures for_ever { IsForEver (members_of_plan plan.old) dir (position_of at.0) result }
    ensures in_range { IsCalendarNear result }
    ensures same { meant_of_plan plan.new ≡ meant_of_plan plan.old }
    ensures counted { steps.old ≤ steps.new }
{
    ready_laws(plan.ready());
    endless_laws();
    told(past(plan, dir, of(at), budget, steps))
}

/// The run that holds the moment, else the last one before it.
fn current_at<L: Ledger>(
    plan: &mut Plan,
    at: Moment,
    budget: u64,
    steps: &mut Steps<L>,
) -> Result<Near, Stop>
    requires range { IsCalendarMoment at.0 }
    requires budget { 1 ≤ budget }
    ensures answer { IfOk result
        (IsCurrentRun (members_of_plan plan.old) (window_of_plan plan.old) at.0) }
    ensures stop { IfErr result (IsStopAt (PlacesOfCurrent (members_of_plan plan.old) at.0)
        (due_of_plan plan.old) budget) }
    ensures same { meant_of_plan plan.new ≡ meant_of_plan plan.old }
    ensures counted { steps.old ≤ steps.new }
{
    let p = of(at);
    match holds(plan, p, budget, steps) {
        Ok(true) => around(plan, p, budget, steps),
        Ok(false) => past_gap(plan, Dir::Back, p, budget, steps),
        Err(stop) => Err(stop),
    }
}

/// The run that holds the moment, else the closer one of its neighbours.
fn closest_at<L: Ledger>(
    plan: &mut Plan,
    at: Moment,
    budget: u64,
    steps: &mut Steps<L>,
) -> Result<Near, Stop>
    requires range { IsCalendarMoment at.0 }
    requires budget { 1 ≤ budget }
    ensures answer { IfOk result
        (IsClosestRun (members_of_plan plan.old) (window_of_plan plan.old) at.0) }
    ensures stop { IfErr result (IsStopAt (PlacesOfClosest (members_of_plan plan.old) at.0)
        (due_of_plan plan.old) budget) }
    ensures same { meant_of_plan plan.new ≡ meant_of_plan plan.old }
    ensures counted { steps.old ≤ steps.new }
{
    let p = of(at);
    match holds(plan, p, budget, steps) {
        Ok(true) => around(plan, p, budget, steps),
        Ok(false) => beside(plan, at, budget, steps),
        Err(stop) => Err(stop),
    }
}

/// The closer one of the neighbours of a moment that is no member.
fn beside<L: Ledger>(
    plan: &mut Plan,
    at: Moment,
    budget: u64,
    steps: &mut Steps<L>,
) -> Result<Near, Stop>
    requires range { IsCalendarMoment at.0 }
    requires budget { 1 ≤ budget }
    requires gap { members_of_plan plan.old (position_of at.0) ≡ false }
    ensures answer { IfOk result
        (IsRunBeside (members_of_plan plan.old) (window_of_plan plan.old) at.0) }
    ensures stop { IfErr result (IsStopAt (PlacesBeside (members_of_plan plan.old) at.0)
        (due_of_plan plan.old) budget) }
    ensures same { meant_of_plan plan.new ≡ meant_of_plan plan.old }
    ensures counted { steps.old ≤ steps.new }
{
    let p = of(at);
    match past_gap(plan, Dir::Back, p, budget, steps) {
        Ok(before) => match past_gap(plan, Dir::Fore, p, budget, steps) {
            Ok(after) => Ok(closer_of(at, before, after)),
            Err(stop) => Err(stop),
        },
        Err(stop) => Err(stop),
    }
}

/// What was found, or the stop.
fn told(found: Result<Near, Stop>) -> Near
    ensures { result ≡ told found }
{
    match found {
        Ok(near) => near,
        Err(stop) => Near::Budget(stop),
    }
}
