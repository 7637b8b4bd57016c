ghost use Rattle.std.specs.Prelude.{◌≡◌, ◌≤◌, false, true, IfErr, IfOk};
ghost use Rattle.moment_core.specs.Line.{IsCalendarPosition};
ghost use Rattle.plan_core.specs.Plans.{due_of_plan, meant_of_plan, members_of_plan, window_of_plan};
ghost use Rattle.run_search.specs.Places.{IsStopAt, PlacesWithin};
ghost use Rattle.query_core.specs.Answering.{PlacesAround};
ghost use Rattle.query_core.specs.Neighbours.{IsNextPast, IsRunAround, IsRunFrom};

use moment_core::{Dir, Pos, Steps};
use plan_core::Plan;
use run_search::{holds, item_from, last_of_run};
use span_core::{Answer, Near, Run, Stop, range_end};
use std::sync::ledger::Ledger;

/// The nearest run past the position, in the direction.
pub(crate) fn past<L: Ledger>(
    plan: &mut Plan,
    dir: Dir,
    p: Pos,
    budget: u64,
    steps: &mut Steps<L>,
) -> Result<Near, Stop>
    requires range { IsCalendarPosition p.0 }
    requires budget { 1 ≤ budget }
    ensures answer { IfOk result
        (IsNextPast (members_of_plan plan.old) (window_of_plan plan.old) dir p.0) }
    ensures stop { IfErr result (IsStopAt (PlacesWithin (members_of_plan plan.old) dir 2 p.0)
        (due_of_plan plan.old) budget) }
    ensures same { meant_of_plan plan.new ≡ meant_of_plan plan.old }
    ensures counted { steps.old ≤ steps.new }
{
    match holds(plan, p, budget, steps) {
        Ok(true) => past_member(plan, dir, p, budget, steps),
        Ok(false) => past_gap(plan, dir, p, budget, steps),
        Err(stop) => Err(stop),
    }
}

/// The nearest run past a member: past the far end of that member's run.
fn past_member<L: Ledger>(
    plan: &mut Plan,
    dir: Dir,
    p: Pos,
    budget: u64,
    steps: &mut Steps<L>,
) -> Result<Near, Stop>
    requires range { IsCalendarPosition p.0 }
    requires budget { 1 ≤ budget }
    requires member { members_of_plan plan.old p.0 ≡ true }
    ensures answer { IfOk result
        (IsNextPast (members_of_plan plan.old) (window_of_plan plan.old) dir p.0) }
    ensures stop { IfErr result (IsStopAt (PlacesWithin (members_of_plan plan.old) dir 2 p.0)
        (due_of_plan plan.old) budget) }
    ensures same { meant_of_plan plan.new ≡ meant_of_plan plan.old }
    ensures counted { steps.old ≤ steps.new }
{
    match plan.change(p, dir, budget, steps) {
        Answer::At(gap) => past_gap(plan, dir, gap, budget, steps),
        Answer::None(window) => Ok(Near::None(window)),
        Answer::Edge => Ok(Near::Edge),
        Answer::Budget(stop) => Err(stop),
    }
}

/// The nearest run past a position that is no member.
pub(crate) fn past_gap<L: Ledger>(
    plan: &mut Plan,
    dir: Dir,
    p: Pos,
    budget: u64,
    steps: &mut Steps<L>,
) -> Result<Near, Stop>
    requires range { IsCalendarPosition p.0 }
    requires budget { 1 ≤ budget }
    requires gap { members_of_plan plan.old p.0 ≡ false }
    ensures answer { IfOk result
        (IsNextPast (members_of_plan plan.old) (window_of_plan plan.old) dir p.0) }
    ensures stop { IfErr result (IsStopAt (PlacesWithin (members_of_plan plan.old) dir 1 p.0)
        (due_of_plan plan.old) budget) }
    ensures same { meant_of_plan plan.new ≡ meant_of_plan plan.old }
    ensures counted { steps.old ≤ steps.new }
{
    match plan.change(p, dir, budget, steps) {
        Answer::At(first) => match run_from(plan, dir, first, budget, steps) {
            Ok(run) => Ok(Near::Found(run)),
            Err(stop) => Err(stop),
        },
        Answer::None(window) => Ok(Near::None(window)),
        Answer::Edge => Ok(Near::Edge),
        Answer::Budget(stop) => Err(stop),
    }
}

/// The run whose near end is the position.
fn run_from<L: Ledger>(
    plan: &mut Plan,
    dir: Dir,
    first: Pos,
    budget: u64,
    steps: &mut Steps<L>,
) -> Result<Run, Stop>
    requires range { IsCalendarPosition first.0 }
    requires budget { 1 ≤ budget }
    requires member { members_of_plan plan.old first.0 ≡ true }
    ensures answer { IfOk result
        (IsRunFrom (members_of_plan plan.old) (window_of_plan plan.old) dir first.0) }
    ensures stop { IfErr result (due_of_plan plan.old dir first.0 budget) }
    ensures same { meant_of_plan plan.new ≡ meant_of_plan plan.old }
    ensures counted { steps.old ≤ steps.new }
{
    let last = last_of_run(plan, dir, first, range_end(dir), budget, steps)?;
    Ok(item_from(plan, dir, first, last))
}

/// The run that holds the position.
pub(crate) fn around<L: Ledger>(
    plan: &mut Plan,
    p: Pos,
    budget: u64,
    steps: &mut Steps<L>,
) -> Result<Near, Stop>
    requires range { IsCalendarPosition p.0 }
    requires budget { 1 ≤ budget }
    requires member { members_of_plan plan.old p.0 ≡ true }
    ensures answer { IfOk result
        (IsRunAround (members_of_plan plan.old) (window_of_plan plan.old) p.0) }
    ensures stop { IfErr result (IsStopAt (PlacesAround p.0) (due_of_plan plan.old) budget) }
    ensures same { meant_of_plan plan.new ≡ meant_of_plan plan.old }
    ensures counted { steps.old ≤ steps.new }
{
    let low = last_of_run(plan, Dir::Back, p, range_end(Dir::Back), budget, steps)?;
    let high = last_of_run(plan, Dir::Fore, p, range_end(Dir::Fore), budget, steps)?;
    Ok(Near::Found(item_from(plan, Dir::Fore, low, high)))
}
