ghost use Rattle.std.specs.Prelude.{◌≡◌, ◌≤◌};
ghost use Rattle.expr_tree.specs.Lists.{has_listed};

use crate::moments::Moments;
use moment_core::{Moment, Step, Steps};
use std::sync::ledger::Ledger;
use stored_pair::{Guarded, Recurrence};

/// A set of moments that a search steps along: a rule, or a list.
pub trait Leaf {
    ghost use Rattle.std.specs.Prelude.{◌≡◌, ◌≤◌, ℤ, Bool};
    ghost use Rattle.moment_core.specs.Line.{IsWorkingMoment};
    ghost use Rattle.moment_core.specs.Steps.{IsNext, IsPrevious};
    ghost use Rattle.stored_pair.specs.Recurrences.{AreCandidates, SkipsNoEarlierMember, SkipsNoMember};

    /// Whether a whole number is a member.
    ghost has: { Self → ℤ → Bool };

    /// Whether it is a candidate.
    ghost cand: { Self → ℤ → Bool };

    /// Whether the moment is a member.
    fn test<L: Ledger>(&self, t: Moment, steps: &mut Steps<L>) -> bool
        requires { IsWorkingMoment t.0 }
        ensures value { result ≡ has self.now t.0 }
        ensures candidates { AreCandidates (has self.now) (cand self.now) }
        ensures counted { steps.old ≤ steps.new };

    /// The nearest candidate after the moment.
    fn after<L: Ledger>(&self, t: Moment, steps: &mut Steps<L>) -> Step
        requires { IsWorkingMoment t.0 }
        ensures next { IsNext (has self.now) (cand self.now) t.0 result }
        ensures members { SkipsNoMember (has self.now) t.0 result }
        ensures counted { steps.old ≤ steps.new };

    /// The nearest candidate before the moment.
    fn before<L: Ledger>(&self, t: Moment, steps: &mut Steps<L>) -> Step
        requires { IsWorkingMoment t.0 }
        ensures next { IsPrevious (has self.now) (cand self.now) t.0 result }
        ensures members { SkipsNoEarlierMember (has self.now) t.0 result }
        ensures counted { steps.old ≤ steps.new };
}

/// A rule: each answer is a step.
impl<R: Recurrence> Leaf for Guarded<R> {
    ghost has = { λ l. R.has l.inner };

    ghost cand = { λ l. R.cand l.inner };

    fn test<L: Ledger>(&self, t: Moment, steps: &mut Steps<L>) -> bool {
        Guarded::test(self, t, steps)
    }

    fn after<L: Ledger>(&self, t: Moment, steps: &mut Steps<L>) -> Step {
        Guarded::after(self, t, steps)
    }

    fn before<L: Ledger>(&self, t: Moment, steps: &mut Steps<L>) -> Step {
        Guarded::before(self, t, steps)
    }
}

/// A list: its moments are the candidates, and no answer is a step.
impl Leaf for Moments {
    ghost has = { λ m. has_listed m };

    ghost cand = { λ m. has_listed m };

    fn test<L: Ledger>(&self, t: Moment, _steps: &mut Steps<L>) -> bool {
        Moments::test(self, t)
    }

    fn after<L: Ledger>(&self, t: Moment, _steps: &mut Steps<L>) -> Step {
        Moments::after(self, t)
    }

    fn before<L: Ledger>(&self, t: Moment, _steps: &mut Steps<L>) -> Step {
        Moments::before(self, t)
    }
}
