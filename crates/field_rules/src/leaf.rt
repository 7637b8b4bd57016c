ghost use Rattle.field_rules.specs.Leaves.{IsWholeSieve};

use frame_core::{Frame, period_laws, rule_period};
use moment_core::{HIGH, LOW, Moment, Pos, REACH, Step};
use sieve_core::{Sieve, sieve_laws};
use stored_pair::{Members, Recurrence, recurrence_laws};

/// A field rule made ready to be searched.
#[derive(Clone, Copy, Debug, Drop)]
pub struct FieldLeaf {
    sieve: Sieve,
    ghost whole: { IsWholeSieve sieve },
}

impl FieldLeaf {
    ghost use Rattle.std.specs.Prelude.{◌≡◌};

    /// The rule of a sieve of the whole working range.
    pub fn new(sieve: Sieve) -> FieldLeaf
        requires { IsWholeSieve sieve }
        ensures { result.sieve ≡ sieve }
    {
        FieldLeaf { sieve }
    }
}

impl Recurrence for FieldLeaf {
    ghost use Rattle.field_rules.specs.Leaves.{frame_of_rule};
    ghost use Rattle.sieve_core.specs.Members.{is_candidate, meets_rule};

    ghost has = { λ l. meets_rule l.sieve };

    ghost cand = { λ l. is_candidate l.sieve };

    ghost frame = { λ l. frame_of_rule l.sieve };

    fn test(&self, t: Moment) -> bool {
        sieve_laws();
        self.sieve.test(t)
    }

    fn after(&self, t: Moment) -> Step {
        sieve_laws();
        recurrence_laws();
        self.sieve.after(t)
    }

    fn before(&self, t: Moment) -> Step {
        sieve_laws();
        recurrence_laws();
        let step = self.sieve.before(t);
        step
    }

    fn frame(&self) -> Option<Frame> {
        sieve_laws();
        period_laws();
        match rule_period(self.sieve.unit.in_cycle(), self.sieve.interval as u64) {
            Some(period) => Some(Frame {
                lo: Pos(2 * (HIGH + REACH)),
                hi: Pos(2 * (LOW - REACH)),
                period,
            }),
            None => None,
        }
    }
}

impl Members for FieldLeaf {
    fn next_member(&self, t: Moment) -> Option<Moment> {
        sieve_laws();
        self.sieve.next_member(t)
    }

    fn previous_member(&self, t: Moment) -> Option<Moment> {
        sieve_laws();
        self.sieve.previous_member(t)
    }
}
