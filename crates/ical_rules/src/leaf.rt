ghost use Rattle.ical_rules.specs.Leaves.{HasCounted, IsFramed, IsFramed-prop, has_counted};

use frame_core::Frame;
use moment_core::{Moment, Step};
use sieve_core::{KnownRanks, Sieve, sieve_laws};
use stored_pair::{Members, Recurrence, recurrence_laws};

/// A rule of RFC 5545 made ready to be searched.
#[derive(Clone, Copy, Debug, Drop)]
pub struct IcalLeaf {
    sieve: Sieve,
    /// The rule's UNTIL and COUNT. The sieve doesn't know COUNT where the working range ends before
    /// the COUNT-th member.
    until: Option<Moment>,
    count: Option<i64>,
    frame: Option<Frame>,
    ghost counted: { HasCounted sieve until count },
    ghost framed: { IsFramed (has_counted sieve until count) frame } by { IsFramed-prop _ frame },
}

impl IcalLeaf {
    ghost use Rattle.std.specs.Prelude.{◌≡◌, IfSome};
    ghost use Rattle.moment_core.specs.Line.{IsWorkingMoment};
    ghost use Rattle.moment_core.specs.Steps.{IsNext};
    ghost use Rattle.sieve_core.specs.Known.{IsKnown};
    ghost use Rattle.sieve_core.specs.Members.{is_candidate};
    ghost use Rattle.stored_pair.specs.Recurrences.{SkipsNoMember};

    /// The rule with the sieve, UNTIL, COUNT and the frame.
    pub(crate) fn new(
        sieve: Sieve,
        until: Option<Moment>,
        count: Option<i64>,
        frame: Option<Frame>,
    ) -> IcalLeaf
        requires counted { HasCounted sieve until count }
        requires framed { IsFramed (has_counted sieve until count) frame }
        ensures sieve { result.sieve ≡ sieve }
        ensures until { result.until ≡ until }
        ensures count { result.count ≡ count }
        ensures frame { result.frame ≡ frame }
    {
        IcalLeaf {
            sieve,
            until,
            count,
            frame,
        }
    }

    /// The same step as that of `after`, by what an earlier one left of the ranks, or None.
    pub(crate) fn after_known(&self, t: Moment, known: &mut Option<KnownRanks>) -> Step
        requires moment { IsWorkingMoment t.0 }
        requires known { IfSome known.old (IsKnown self.now.sieve) }
        ensures next { IsNext (has_counted self.now.sieve self.now.until self.now.count)
            (is_candidate self.now.sieve) t.0 result }
        ensures members { SkipsNoMember
            (has_counted self.now.sieve self.now.until self.now.count) t.0 result }
        ensures known { IfSome known.new (IsKnown self.now.sieve) }
    {
        sieve_laws();
        recurrence_laws();
        self.sieve.after_known(t, known)
    }
}

impl Recurrence for IcalLeaf {
    ghost use Rattle.sieve_core.specs.Members.{is_candidate};

    ghost has = { λ l. has_counted l.sieve l.until l.count };

    ghost cand = { λ l. is_candidate l.sieve };

    ghost frame = { λ l. l.frame };

    fn test(&self, t: Moment) -> bool {
        sieve_laws();
        self.sieve.test(t)
    }

    fn after(&self, t: Moment) -> Step {
        sieve_laws();
        recurrence_laws();
        self.sieve.after(t)
    }

    fn before(&self, t: Moment) -> Step {
        sieve_laws();
        recurrence_laws();
        let step = self.sieve.before(t);
        step
    }

    fn frame(&self) -> Option<Frame> {
        self.frame
    }
}

impl Members for IcalLeaf {
    fn next_member(&self, t: Moment) -> Option<Moment> {
        sieve_laws();
        self.sieve.next_member(t)
    }

    fn previous_member(&self, t: Moment) -> Option<Moment> {
        sieve_laws();
        self.sieve.previous_member(t)
    }
}
