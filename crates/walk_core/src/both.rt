ghost use Rattle.std.specs.Prelude.{◌≡◌, ◌≤◌, ◌≤ℤ◌, ◌<ℤ◌, IfSome, IfNone, OnSome, ◌<◌, false, List};
ghost use Rattle.moment_core.specs.Line.{IsCalendarPosition};
ghost use Rattle.span_core.specs.Tokens.{IsFit};
ghost use Rattle.plan_core.specs.Plans.{meant_of_plan};
ghost use Rattle.walk_core.specs.Both.{AreCalls, Call, CallsShare, TakesAt, items_left, meant_of_items};
ghost use Rattle.walk_core.specs.Stretch.{IsStretch, window_from};
ghost use Rattle.walk_core.specs.Tokens.{window_token};

use crate::steps::{Found, step_from};
use crate::tokens::window_token;
use moment_core::{Dir, Pos, Steps, Window};
use plan_core::Plan;
use span_core::{Run, Stop, Token};
use std::marker::Model;
use std::sync::ledger::Ledger;

/// The positions that are left of a window, maybe none. Contracts see them as a window.
#[derive(Drop)]
struct Left {
    window: Window,
}

impl Model for Left {
    ghost use Rattle.moment_core.specs.declared.line.Window.{Window};
    ghost use Rattle.walk_core.specs.Stretch.{IsStretch};

    ghost Value = { Window };

    ghost view = { λ p. p.window };

    ghost invariant = { λ p. IsStretch p.window };
}

impl Left {
    fn of(window: Window) -> Left
        requires { IsStretch window }
        ensures { result ≡ window }
    {
        Left { window }
    }

    /// The token from one end to the other, where some position is left.
    fn token(&self, dir: Dir) -> Option<Token>
        ensures some { IfSome result
            (λ t. (t ≡ window_token self.now dir) × IsFit t × (self.now.lo.0 ≤ℤ self.now.hi.0)) }
        ensures none { IfNone result (self.now.hi.0 <ℤ self.now.lo.0) }
        ensures stretch { IsStretch self.now }
    {
        if self.window.hi < self.window.lo {
            None
        } else {
            Some(window_token(self.window, dir))
        }
    }

    /// What is left from a place on, in the direction.
    fn from(&self, dir: Dir, place: Pos) -> Left
        requires { IsStretch (window_from self.now dir place) }
        ensures { result ≡ window_from self.now dir place }
    {
        let Window { lo, hi } = self.window;
        match dir {
            Dir::Fore => Left::of(Window { lo: place, hi }),
            Dir::Back => Left::of(Window { lo, hi: place }),
        }
    }
}

/// A budget of at least 1.
#[derive(Drop)]
struct Budget {
    candidates: u64,
}

impl Model for Budget {
    ghost use Rattle.std.specs.Prelude.{ℕ, ◌≤◌};

    ghost Value = { ℕ };

    ghost view = { λ b. b.candidates };

    ghost invariant = { λ b. 1 ≤ b.candidates };
}

impl Budget {
    fn get(&self) -> u64
        ensures value { result ≡ self.now }
        ensures some { 1 ≤ result }
    {
        self.candidates
    }
}

/// The items of a window in ascending order, from both ends: each comes once, from the front or
/// from the back. Where a search stops for its budget, the stop is given, and then nothing more. It
/// takes no memory.
#[derive(Drop)]
pub struct Items<'p, 'b, L: Ledger> {
    plan: &'p mut Plan<'b>,
    left: Left,
    budget: Budget,
    stopped: bool,
    steps: &'p mut Steps<L>,
}

/// The items of a window, from both ends. A window with its ends the wrong way round has none.
pub fn both_ends<'p, 'b, L: Ledger>(
    plan: &'p mut Plan<'b>,
    w: Window,
    budget: u64,
    steps: &'p mut Steps<L>,
) -> Items<'p, 'b, L>
    requires lo { IsCalendarPosition w.lo.0 }
    requires hi { IsCalendarPosition w.hi.0 }
    requires budget { 1 ≤ budget }
    ensures meant { meant_of_items result ≡ meant_of_plan plan.old }
    ensures left { result.left ≡ w }
    ensures budget { result.budget ≡ budget }
    ensures stopped { result.stopped ≡ false }
{
    Items {
        plan,
        left: Left::of(w),
        budget: Budget { candidates: budget },
        stopped: false,
        steps,
    }
}

impl<'p, 'b, L: Ledger> Items<'p, 'b, L> {
    /// Takes the item at the end from which the direction leads.
    fn take(&mut self, dir: Dir) -> Option<Result<Run, Stop>>
        ensures takes { TakesAt dir self.old result self.new }
        ensures fewer { OnSome result (items_left self.new < items_left self.old) }
        ensures meant { meant_of_items self.new ≡ meant_of_items self.old }
        ensures budget { self.new.budget ≡ self.old.budget }
    {
        if self.stopped {
            return None;
        }
        let Some(t) = self.left.token(dir) else {
            return None;
        };
        let stepped = step_from(self.plan, t, self.budget.get(), self.steps);
        match stepped.found {
            Found::Given(run) => {
                self.left = self.left.from(dir, stepped.next.place);
                Some(Ok(run))
            }
            Found::Done(_) => None,
            Found::Stopped(stop) => {
                self.stopped = true;
                Some(Err(stop))
            }
        }
    }
}

impl<'p, 'b, L: Ledger> Iterator for Items<'p, 'b, L> {
    type Item = Result<Run, Stop>;

    ghost use Rattle.std.specs.Iterator.{at_most};
    ghost use Rattle.moment_core.specs.declared.line.Dir.TheVariants.{Fore, Back};
    ghost use Rattle.walk_core.specs.Both.{Takes, items_left};

    ghost next_gives = { λ s r t. Takes Fore s r t };

    ghost remaining = { λ s. at_most (items_left s) };

    fn next(&mut self) -> Option<Result<Run, Stop>> {
        self.take(Dir::Fore)
    }
}

impl<'p, 'b, L: Ledger> DoubleEndedIterator for Items<'p, 'b, L> {
    ghost use Rattle.moment_core.specs.declared.line.Dir.TheVariants.{Fore, Back};
    ghost use Rattle.walk_core.specs.Both.{Takes, items_left};

    ghost next_back_gives = { λ s r t. Takes Back s r t };

    fn next_back(&mut self) -> Option<Result<Run, Stop>> {
        self.take(Dir::Back)
    }
}

/// After any calls at both ends, what the front gave, then what is left, then what the back gave in
/// reverse is what was left at first. It does nothing.
pub fn both_laws<L: Ledger>()
    ensures { (s t : Items L) (calls : List (Call L)) → AreCalls s calls t
        → CallsShare s calls t }
{}
