use crate::recurrence::Recurrence;
use moment_core::Moment;

/// A recurrence that finds its members at once, and not by going from candidate to candidate.
pub trait Members: Recurrence {
    ghost use Rattle.moment_core.specs.Line.{IsWorkingMoment};
    ghost use Rattle.moment_core.specs.declared.line.Dir.TheVariants.{Fore, Back};
    ghost use Rattle.stored_pair.specs.Recurrences.{AreCandidates, IsNextMember};

    /// The least member after the moment in the working range, or None where there is none.
    fn next_member(&self, t: Moment) -> Option<Moment>
        requires { IsWorkingMoment t.0 }
        ensures next { IsNextMember (Self.has self.now) Fore t.0 result }
        ensures candidates { AreCandidates (Self.has self.now) (Self.cand self.now) };

    /// The greatest member before the moment in the working range, in the same way.
    fn previous_member(&self, t: Moment) -> Option<Moment>
        requires { IsWorkingMoment t.0 }
        ensures next { IsNextMember (Self.has self.now) Back t.0 result }
        ensures candidates { AreCandidates (Self.has self.now) (Self.cand self.now) };
}
