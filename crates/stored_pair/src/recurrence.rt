use frame_core::Frame;
use moment_core::{Moment, Step};

/// A set of moments, and the candidates among which its members are found.
///
/// Every member in the working range is a candidate. The moments given to `test`, `after` and
/// `before` are any of the working range.
pub trait Recurrence: Drop {
    ghost use Rattle.std.specs.Prelude.{◌≡◌, ℤ, Bool, Option, IfSome};
    ghost use Rattle.frame_core.specs.Frames.{IsPeriod, RepeatsIfFramed};
    ghost use Rattle.frame_core.specs.declared.frames.Frame.{Frame};
    ghost use Rattle.moment_core.specs.Line.{IsWorkingMoment};
    ghost use Rattle.moment_core.specs.Sets.{moments_in};
    ghost use Rattle.moment_core.specs.Steps.{IsNext, IsPrevious};
    ghost use Rattle.stored_pair.specs.Recurrences.{AreCandidates, AreModest, SkipsNoMember, SkipsNoEarlierMember};

    /// Whether a whole number is a member.
    ghost has: { Self → ℤ → Bool };

    /// Whether it is a candidate.
    ghost cand: { Self → ℤ → Bool };

    /// From where on, and by which period, the members repeat.
    ghost frame: { Self → Option Frame };

    /// Whether the moment is a member. A member is a candidate.
    fn test(&self, t: Moment) -> bool
        requires { IsWorkingMoment t.0 }
        ensures value { result ≡ has self.now t.0 }
        ensures candidates { AreCandidates (has self.now) (cand self.now) };

    /// The least candidate after the moment in the working range: `Hit` where it is a member,
    /// `Pass` where it isn't, and `End` where there is none. Neither a candidate nor a member lies
    /// between.
    fn after(&self, t: Moment) -> Step
        requires { IsWorkingMoment t.0 }
        ensures next { IsNext (has self.now) (cand self.now) t.0 result }
        ensures members { SkipsNoMember (has self.now) t.0 result };

    /// The greatest candidate before the moment in the working range, in the same way.
    fn before(&self, t: Moment) -> Step
        requires { IsWorkingMoment t.0 }
        ensures next { IsPrevious (has self.now) (cand self.now) t.0 result }
        ensures members { SkipsNoEarlierMember (has self.now) t.0 result };

    /// The frame, by which the members repeat; its ends are from -2^40 to 2^40.
    fn frame(&self) -> Option<Frame>
        ensures value { result ≡ frame self.now }
        ensures period { IfSome result (λ f. IsPeriod f.period) }
        ensures ends { IfSome result AreModest }
        ensures repeats { RepeatsIfFramed (moments_in (has self.now)) result };
}
