ghost use Rattle.std.specs.Prelude.{◌≡◌, ◌≤◌, ◌⊎◌, false, true, IfErr, IfOk};
ghost use Rattle.moment_core.specs.Line.{IsCalendarPosition};
ghost use Rattle.moment_core.specs.Sets.{ahead, IsUpTo, range_end};
ghost use Rattle.plan_core.specs.Plans.{due_of_plan, meant_of_plan, members_of_plan, window_of_plan};
ghost use Rattle.run_search.specs.Finding.{BeginsBy, TellsWhy};
ghost use Rattle.run_search.specs.Places.{IsStopFrom, IsTestStop};
ghost use Rattle.run_search.specs.Runs.{IsFirstRun};

use moment_core::{Dir, Pos, Steps};
use plan_core::Plan;
use search_core::due_laws;
use span_core::{Answer, Stop, Test, Why, is_up_to, one_back, one_on, range_end};
use std::sync::ledger::Ledger;

/// Where the next run begins, or why none does, or that a search stopped.
#[derive(Clone, Copy, Debug, PartialEq, Eq)]
pub enum Begun {
    At(Pos),
    Done(Why),
    Stopped(Stop),
}

/// Whether the position is a member, or that looking back from it stopped.
pub fn holds<L: Ledger>(
    plan: &mut Plan,
    p: Pos,
    budget: u64,
    steps: &mut Steps<L>,
) -> Result<bool, Stop>
    requires range { IsCalendarPosition p.0 }
    requires budget { 1 ≤ budget }
    ensures value { IfOk result (λ member. member ≡ members_of_plan plan.old p.0) }
    ensures stop { IfErr result (λ s. IsTestStop (due_of_plan plan.old) p.0 budget s) }
    ensures same { meant_of_plan plan.new ≡ meant_of_plan plan.old }
    ensures counted { steps.old ≤ steps.new }
{
    due_laws();
    match plan.test(p, budget, steps) {
        Test::In => Ok(true),
        Test::Out => Ok(false),
        Test::Budget(stop) => Err(stop),
    }
}

/// Whether a stop isn't due, since searches are cut at an end before it.
fn is_cut(dir: Dir, end: Pos, stop: Stop) -> bool
    requires { stop.node ≡ 0 → IsCalendarPosition stop.at.0 }
    ensures due { result ≡ false → stop.node ≡ 0
        → (end.0 ≡ range_end dir) ⊎ IsUpTo dir end.0 (ahead dir stop.at.0 1) }
    ensures cut { result ≡ true → IsUpTo dir stop.at.0 end.0 }
    ensures search { result ≡ true → stop.node ≡ 0 }
    ensures end { result ≡ true → end.0 ≡ range_end dir → ⊥ }
{
    stop.node == 0 && end != range_end(dir) && !is_up_to(dir, end, one_on(dir, stop.at))
}

/// The last position, up to the end, of the run of a member.
///
/// A search isn't cut at the end, but a stop at or past it is none: nothing differs up to there.
pub fn last_of_run<L: Ledger>(
    plan: &mut Plan,
    dir: Dir,
    p: Pos,
    end: Pos,
    budget: u64,
    steps: &mut Steps<L>,
) -> Result<Pos, Stop>
    requires range { IsCalendarPosition p.0 }
    requires end { IsCalendarPosition end.0 }
    requires within { IsUpTo dir end.0 p.0 }
    requires budget { 1 ≤ budget }
    requires member { members_of_plan plan.old p.0 ≡ true }
    ensures last { IfOk result
        (λ far. IsFirstRun (members_of_plan plan.old) dir p.0 end.0 p.0 far.0) }
    ensures stop { IfErr result
        (λ s. IsStopFrom (members_of_plan plan.old) (due_of_plan plan.old) dir p.0 end.0 budget s) }
    ensures same { meant_of_plan plan.new ≡ meant_of_plan plan.old }
    ensures counted { steps.old ≤ steps.new }
{
    due_laws();
    match plan.change(p, dir, budget, steps) {
        Answer::At(q) => {
            if is_up_to(dir, end, q) {
                Ok(one_back(dir, q))
            } else {
                Ok(end)
            }
        }
        Answer::None(_) => Ok(end),
        Answer::Edge => Ok(end),
        Answer::Budget(stop) => {
            if is_cut(dir, end, stop) {
                Ok(end)
            } else {
                Err(stop)
            }
        }
    }
}

/// The first member from the position up to the end, or why there is none.
pub fn first_of_run<L: Ledger>(
    plan: &mut Plan,
    dir: Dir,
    p: Pos,
    end: Pos,
    budget: u64,
    steps: &mut Steps<L>,
) -> Begun
    requires range { IsCalendarPosition p.0 }
    requires end { IsCalendarPosition end.0 }
    requires within { IsUpTo dir end.0 p.0 }
    requires budget { 1 ≤ budget }
    ensures answer { BeginsBy (members_of_plan plan.old) (due_of_plan plan.old)
        (window_of_plan plan.old) dir p.0 end.0 budget result }
    ensures same { meant_of_plan plan.new ≡ meant_of_plan plan.old }
    ensures counted { steps.old ≤ steps.new }
{
    match holds(plan, p, budget, steps) {
        Ok(true) => Begun::At(p),
        Ok(false) => first_past_gap(plan, dir, p, end, budget, steps),
        Err(stop) => Begun::Stopped(stop),
    }
}

/// The first member past a position that is none, up to the end, or why there is none.
pub fn first_past_gap<L: Ledger>(
    plan: &mut Plan,
    dir: Dir,
    p: Pos,
    end: Pos,
    budget: u64,
    steps: &mut Steps<L>,
) -> Begun
    requires range { IsCalendarPosition p.0 }
    requires end { IsCalendarPosition end.0 }
    requires within { IsUpTo dir end.0 p.0 }
    requires budget { 1 ≤ budget }
    requires gap { members_of_plan plan.old p.0 ≡ false }
    ensures answer { BeginsBy (members_of_plan plan.old) (due_of_plan plan.old)
        (window_of_plan plan.old) dir p.0 end.0 budget result }
    ensures same { meant_of_plan plan.new ≡ meant_of_plan plan.old }
    ensures counted { steps.old ≤ steps.new }
{
    due_laws();
    match plan.change(p, dir, budget, steps) {
        Answer::At(q) => {
            if is_up_to(dir, end, q) {
                Begun::At(q)
            } else {
                Begun::Done(Why::To)
            }
        }
        Answer::None(window) => Begun::Done(why(dir, end, Why::None(window))),
        Answer::Edge => Begun::Done(why(dir, end, Why::Edge)),
        Answer::Budget(stop) => {
            if is_cut(dir, end, stop) {
                Begun::Done(Why::To)
            } else {
                Begun::Stopped(stop)
            }
        }
    }
}

/// Why no run begins: the answer, where the end is the range's own.
fn why(dir: Dir, end: Pos, answer: Why) -> Why
    ensures { TellsWhy dir end.0 answer result }
{
    if end == range_end(dir) {
        answer
    } else {
        Why::To
    }
}
