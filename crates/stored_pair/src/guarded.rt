ghost use Rattle.std.specs.Prelude.{◌≡◌, ◌+◌, ◌≤◌, IfSome};
ghost use Rattle.frame_core.specs.Frames.{IsPeriod, RepeatsIfFramed};
ghost use Rattle.moment_core.specs.Counter.{capped};
ghost use Rattle.moment_core.specs.Line.{IsWorkingMoment};
ghost use Rattle.moment_core.specs.Sets.{moments_in};
ghost use Rattle.moment_core.specs.Steps.{IsNext, IsPrevious};
ghost use Rattle.moment_core.specs.declared.line.Dir.TheVariants.{Fore, Back};
ghost use Rattle.stored_pair.specs.Recurrences.{AreCandidates, AreModest, IsNextMember, SkipsNoEarlierMember, SkipsNoMember};

use crate::members::Members;
use crate::recurrence::Recurrence;
use frame_core::Frame;
use moment_core::{Moment, Step, Steps};
use std::sync::ledger::Ledger;

/// A recurrence of which nothing is seen but its answers. Each of them but the frame adds one step.
#[derive(Drop)]
pub struct Guarded<R> {
    inner: R,
}

impl<R: Recurrence> Guarded<R> {
    /// Guards a recurrence.
    pub fn new(inner: R) -> Guarded<R>
        ensures { result.inner ≡ inner }
    {
        Guarded { inner }
    }

    /// Whether the moment of the working range is a member. One step.
    pub fn test<L: Ledger>(&self, t: Moment, steps: &mut Steps<L>) -> bool
        requires { IsWorkingMoment t.0 }
        ensures value { result ≡ R.has self.now.inner t.0 }
        ensures candidates { AreCandidates (R.has self.now.inner) (R.cand self.now.inner) }
        ensures cost { steps.new ≡ capped (steps.old + 1) }
        ensures counted { steps.old ≤ steps.new }
    {
        steps.tick();
        self.inner.test(t)
    }

    /// The nearest candidate after the moment of the working range. One step.
    pub fn after<L: Ledger>(&self, t: Moment, steps: &mut Steps<L>) -> Step
        requires { IsWorkingMoment t.0 }
        ensures next { IsNext (R.has self.now.inner) (R.cand self.now.inner) t.0 result }
        ensures members { SkipsNoMember (R.has self.now.inner) t.0 result }
        ensures cost { steps.new ≡ capped (steps.old + 1) }
        ensures counted { steps.old ≤ steps.new }
    {
        steps.tick();
        self.inner.after(t)
    }

    /// The nearest candidate before the moment of the working range. One step.
    pub fn before<L: Ledger>(&self, t: Moment, steps: &mut Steps<L>) -> Step
        requires { IsWorkingMoment t.0 }
        ensures next { IsPrevious (R.has self.now.inner) (R.cand self.now.inner) t.0 result }
        ensures members { SkipsNoEarlierMember (R.has self.now.inner) t.0 result }
        ensures cost { steps.new ≡ capped (steps.old + 1) }
        ensures counted { steps.old ≤ steps.new }
    {
        steps.tick();
        self.inner.before(t)
    }

    /// The frame, by which the members repeat. No step.
    pub fn frame(&self) -> Option<Frame>
        ensures value { result ≡ R.frame self.now.inner }
        ensures period { IfSome result (λ f. IsPeriod f.period) }
        ensures ends { IfSome result AreModest }
        ensures repeats { RepeatsIfFramed (moments_in (R.has self.now.inner)) result }
    {
        self.inner.frame()
    }
}

impl<R: Members> Guarded<R> {
    /// The nearest member after the moment of the working range. One step.
    pub fn next_member<L: Ledger>(&self, t: Moment, steps: &mut Steps<L>) -> Option<Moment>
        requires { IsWorkingMoment t.0 }
        ensures next { IsNextMember (R.has self.now.inner) Fore t.0 result }
        ensures candidates { AreCandidates (R.has self.now.inner) (R.cand self.now.inner) }
        ensures cost { steps.new ≡ capped (steps.old + 1) }
        ensures counted { steps.old ≤ steps.new }
    {
        steps.tick();
        self.inner.next_member(t)
    }

    /// The nearest member before the moment of the working range. One step.
    pub fn previous_member<L: Ledger>(&self, t: Moment, steps: &mut Steps<L>) -> Option<Moment>
        requires { IsWorkingMoment t.0 }
        ensures next { IsNextMember (R.has self.now.inner) Back t.0 result }
        ensures candidates { AreCandidates (R.has self.now.inner) (R.cand self.now.inner) }
        ensures cost { steps.new ≡ capped (steps.old + 1) }
        ensures counted { steps.old ≤ steps.new }
    {
        steps.tick();
        self.inner.previous_member(t)
    }
}
