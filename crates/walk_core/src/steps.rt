ghost use Rattle.std.specs.Prelude.{◌≡◌, ◌≤◌, false, true, IfErr, IfOk, None, Some};
ghost use Rattle.moment_core.specs.Line.{IsCalendarPosition};
ghost use Rattle.moment_core.specs.Sets.{ahead, IsUpTo};
ghost use Rattle.span_core.specs.Tokens.{IsFit};
ghost use Rattle.plan_core.specs.Plans.{due_of_plan, meant_of_plan, members_of_plan, window_of_plan};
ghost use Rattle.run_search.specs.Places.{IsPlaceWithin};
ghost use Rattle.run_search.specs.Runs.{IsFirstMember, item_from};
ghost use Rattle.walk_core.specs.Found.{GoesOnTo, IsOpenStop, StepsTo};
ghost use Rattle.walk_core.specs.Items.{IsHonest};
ghost use Rattle.walk_core.specs.Tokens.{token_at, token_past};
ghost use Rattle.walk_core.specs.declared.steps.Found.TheVariants.{Given, Stopped, Done as Ended};

use moment_core::{Pos, Steps};
use plan_core::Plan;
use run_search::{Begun, first_of_run, first_past_gap, holds, item_from, last_of_run};
use span_core::{Run, Stop, Token, Why, is_up_to, one_on};
use std::sync::ledger::Ledger;

/// The next item, or why none is left, or that a search stopped.
#[derive(Clone, Copy)]
pub(crate) enum Found {
    Given(Run),
    Done(Why),
    Stopped(Stop),
}

/// What was found, and the token to go on from.
#[derive(Clone, Copy)]
pub(crate) struct Stepped {
    pub(crate) found: Found,
    pub(crate) next: Token,
}

/// The next item from a token on.
pub(crate) fn step_from<L: Ledger>(
    plan: &mut Plan,
    t: Token,
    budget: u64,
    steps: &mut Steps<L>,
) -> Stepped
    requires fit { IsFit t }
    requires budget { 1 ≤ budget }
    ensures answer { StepsTo (members_of_plan plan.old) (due_of_plan plan.old)
        (window_of_plan plan.old) budget t result.found result.next }
    ensures fit { IsFit result.next }
    ensures honest { IsHonest (members_of_plan plan.old) t
        → IsHonest (members_of_plan plan.old) result.next }
    ensures same { meant_of_plan plan.new ≡ meant_of_plan plan.old }
    ensures counted { steps.old ≤ steps.new }
{
    match t.begun {
        Some(first) => go_on(plan, t, first, budget, steps),
        None => begin(plan, t, budget, steps),
    }
}

/// The item of an open run.
fn go_on<L: Ledger>(
    plan: &mut Plan,
    t: Token,
    first: Pos,
    budget: u64,
    steps: &mut Steps<L>,
) -> Stepped
    requires fit { IsFit t }
    requires begun { t.begun ≡ Some first }
    requires budget { 1 ≤ budget }
    ensures answer { StepsTo (members_of_plan plan.old) (due_of_plan plan.old)
        (window_of_plan plan.old) budget t result.found result.next }
    ensures fit { IsFit result.next }
    ensures honest { IsHonest (members_of_plan plan.old) t
        → IsHonest (members_of_plan plan.old) result.next }
    ensures same { meant_of_plan plan.new ≡ meant_of_plan plan.old }
    ensures counted { steps.old ≤ steps.new }
{
    match last_of_open(plan, t, budget, steps) {
        Ok(last) => given(plan, t, first, last),
        Err(stop) => stopped(t, stop, Some(first)),
    }
}

/// The last position, up to the end, of an open run, which has its place as a member whether the
/// set has or not.
fn last_of_open<L: Ledger>(
    plan: &mut Plan,
    t: Token,
    budget: u64,
    steps: &mut Steps<L>,
) -> Result<Pos, Stop>
    requires place { IsCalendarPosition t.place.0 }
    requires end { IsCalendarPosition t.end.0 }
    requires within { IsUpTo t.dir t.end.0 t.place.0 }
    requires budget { 1 ≤ budget }
    ensures last { IfOk result
        (λ far. GoesOnTo (members_of_plan plan.old) t.dir t.place.0 t.end.0 far.0) }
    ensures stop { IfErr result
        (λ s. IsOpenStop (members_of_plan plan.old) (due_of_plan plan.old) t budget s) }
    ensures same { meant_of_plan plan.new ≡ meant_of_plan plan.old }
    ensures counted { steps.old ≤ steps.new }
{
    match holds(plan, t.place, budget, steps) {
        Ok(true) => last_of_run(plan, t.dir, t.place, t.end, budget, steps),
        Ok(false) => last_past_gap(plan, t, budget, steps),
        Err(stop) => Err(stop),
    }
}

/// The same where the place is no member, as only a token made by hand may have it.
fn last_past_gap<L: Ledger>(
    plan: &mut Plan,
    t: Token,
    budget: u64,
    steps: &mut Steps<L>,
) -> Result<Pos, Stop>
    requires place { IsCalendarPosition t.place.0 }
    requires end { IsCalendarPosition t.end.0 }
    requires within { IsUpTo t.dir t.end.0 t.place.0 }
    requires budget { 1 ≤ budget }
    requires gap { members_of_plan plan.old t.place.0 ≡ false }
    ensures last { IfOk result
        (λ far. GoesOnTo (members_of_plan plan.old) t.dir t.place.0 t.end.0 far.0) }
    ensures stop { IfErr result
        (λ s. IsOpenStop (members_of_plan plan.old) (due_of_plan plan.old) t budget s) }
    ensures same { meant_of_plan plan.new ≡ meant_of_plan plan.old }
    ensures counted { steps.old ≤ steps.new }
{
    let next = one_on(t.dir, t.place);
    if is_up_to(t.dir, t.end, next) {
        last_past(plan, t, next, budget, steps)
    } else {
        Ok(t.place)
    }
}

/// The same where the position right past the place is not past the end.
fn last_past<L: Ledger>(
    plan: &mut Plan,
    t: Token,
    next: Pos,
    budget: u64,
    steps: &mut Steps<L>,
) -> Result<Pos, Stop>
    requires place { IsCalendarPosition t.place.0 }
    requires end { IsCalendarPosition t.end.0 }
    requires place_within { IsUpTo t.dir t.end.0 t.place.0 }
    requires next { next.0 ≡ ahead t.dir t.place.0 1 }
    requires within { IsUpTo t.dir t.end.0 next.0 }
    requires budget { 1 ≤ budget }
    requires gap { members_of_plan plan.old t.place.0 ≡ false }
    ensures last { IfOk result
        (λ far. GoesOnTo (members_of_plan plan.old) t.dir t.place.0 t.end.0 far.0) }
    ensures stop { IfErr result
        (λ s. IsOpenStop (members_of_plan plan.old) (due_of_plan plan.old) t budget s) }
    ensures same { meant_of_plan plan.new ≡ meant_of_plan plan.old }
    ensures counted { steps.old ≤ steps.new }
{
    match first_past_gap(plan, t.dir, t.place, t.end, budget, steps) {
        Begun::At(first) => {
            if first == next {
                last_of_run(plan, t.dir, first, t.end, budget, steps)
            } else {
                Ok(t.place)
            }
        }
        Begun::Done(_) => Ok(t.place),
        Begun::Stopped(stop) => {
            if stop.node == 0 {
                Ok(t.place)
            } else {
                Err(stop)
            }
        }
    }
}

/// The first item from a place outside an open run.
fn begin<L: Ledger>(plan: &mut Plan, t: Token, budget: u64, steps: &mut Steps<L>) -> Stepped
    requires fit { IsFit t }
    requires begun { t.begun ≡ None }
    requires budget { 1 ≤ budget }
    ensures answer { StepsTo (members_of_plan plan.old) (due_of_plan plan.old)
        (window_of_plan plan.old) budget t result.found result.next }
    ensures fit { IsFit result.next }
    ensures honest { IsHonest (members_of_plan plan.old) t
        → IsHonest (members_of_plan plan.old) result.next }
    ensures same { meant_of_plan plan.new ≡ meant_of_plan plan.old }
    ensures counted { steps.old ≤ steps.new }
{
    if is_up_to(t.dir, t.end, t.place) {
        first_from(plan, t, budget, steps)
    } else {
        done(t, Why::To)
    }
}

/// The same where the place is not past the end.
fn first_from<L: Ledger>(plan: &mut Plan, t: Token, budget: u64, steps: &mut Steps<L>) -> Stepped
    requires fit { IsFit t }
    requires begun { t.begun ≡ None }
    requires within { IsUpTo t.dir t.end.0 t.place.0 }
    requires budget { 1 ≤ budget }
    ensures answer { StepsTo (members_of_plan plan.old) (due_of_plan plan.old)
        (window_of_plan plan.old) budget t result.found result.next }
    ensures fit { IsFit result.next }
    ensures honest { IsHonest (members_of_plan plan.old) t
        → IsHonest (members_of_plan plan.old) result.next }
    ensures same { meant_of_plan plan.new ≡ meant_of_plan plan.old }
    ensures counted { steps.old ≤ steps.new }
{
    match first_of_run(plan, t.dir, t.place, t.end, budget, steps) {
        Begun::At(first) => close(plan, t, first, budget, steps),
        Begun::Done(why) => done(t, why),
        Begun::Stopped(stop) => stopped(t, stop, None),
    }
}

/// The item that begins at the first member.
fn close<L: Ledger>(
    plan: &mut Plan,
    t: Token,
    first: Pos,
    budget: u64,
    steps: &mut Steps<L>,
) -> Stepped
    requires fit { IsFit t }
    requires begun { t.begun ≡ None }
    requires budget { 1 ≤ budget }
    requires first { IsFirstMember (members_of_plan plan.old) t.dir t.place.0 t.end.0 first.0 }
    requires place { IsPlaceWithin (members_of_plan plan.old) t.dir 1 t.place.0 first.0 }
    requires range { IsCalendarPosition first.0 }
    ensures answer { StepsTo (members_of_plan plan.old) (due_of_plan plan.old)
        (window_of_plan plan.old) budget t result.found result.next }
    ensures fit { IsFit result.next }
    ensures honest { IsHonest (members_of_plan plan.old) t
        → IsHonest (members_of_plan plan.old) result.next }
    ensures same { meant_of_plan plan.new ≡ meant_of_plan plan.old }
    ensures counted { steps.old ≤ steps.new }
{
    match last_of_run(plan, t.dir, first, t.end, budget, steps) {
        Ok(last) => given(plan, t, first, last),
        Err(stop) => stopped(t, stop, Some(first)),
    }
}

/// An item, and the token right past it.
fn given(plan: &Plan, t: Token, near: Pos, far: Pos) -> Stepped
    requires near { IsCalendarPosition near.0 }
    requires far { IsCalendarPosition far.0 }
    ensures found { result.found
        ≡ Given (item_from (window_of_plan plan.now) t.dir near.0 far.0) }
    ensures next { result.next ≡ token_at t.dir (ahead t.dir far.0 1) None t.end }
{
    let found = Found::Given(item_from(plan, t.dir, near, far));
    let next = Token {
        dir: t.dir,
        place: one_on(t.dir, far),
        begun: None,
        end: t.end,
    };
    Stepped { found, next }
}

/// No item is left.
fn done(t: Token, why: Why) -> Stepped
    ensures found { result.found ≡ Ended why }
    ensures next { result.next ≡ t }
{
    Stepped {
        found: Found::Done(why),
        next: t,
    }
}

/// A stop: the token stands there, with the open run given, if the search itself stopped; else it
/// stays.
fn stopped(t: Token, stop: Stop, begun: Option<Pos>) -> Stepped
    ensures found { result.found ≡ Stopped stop }
    ensures next { result.next ≡ token_past t stop begun }
{
    let next = if stop.node == 0 {
        Token {
            dir: t.dir,
            place: stop.at,
            begun,
            end: t.end,
        }
    } else {
        t
    };
    Stepped {
        found: Found::Stopped(stop),
        next,
    }
}
