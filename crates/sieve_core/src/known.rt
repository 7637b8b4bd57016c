ghost use Rattle.std.specs.Prelude.{◌≡◌, ◌<◌, IfSome, true};
ghost use Rattle.moment_core.specs.Line.{IsWorkingMoment};
ghost use Rattle.moment_core.specs.Steps.{IsNext, IsNextCandidate};
ghost use Rattle.moment_core.specs.declared.line.Dir.TheVariants.{Fore};
ghost use Rattle.sieve_core.specs.Known.{IsKnown};
ghost use Rattle.sieve_core.specs.Members.{has, is_between, is_candidate, meets_interval, meets_rank, meets_tests, rank_of};
ghost use Rattle.sieve_core.specs.Sieves.{IsSieve};

use crate::bits::{is_in_signed, is_zero};
use crate::candidates::Near;
use crate::tables::Sieve;
use crate::units::check_weekday;
use moment_core::{Dir, Moment, Step};

/// More than the moments of any unit.
const ALL_RANKS: usize = 32_659_201;

/// What a search forwards knows of the ranks at its place (BYSETPOS in RFC 5545 3.3.10).
#[derive(Clone, Copy, Debug, PartialEq, Eq)]
pub struct KnownRanks {
    place: Moment,
    /// How many moments of the place's unit meet the tests of the day and the time, up to it.
    so_far: usize,
    /// And how many after it.
    to_come: usize,
}

impl Sieve {
    // The rank itself.
    fn whole_rank(&self, dir: Dir, t: Moment) -> usize
        requires { IsWorkingMoment t.0 }
        ensures { result ≡ rank_of self.now dir t.0 }
    {
        self.rank(dir, t, ALL_RANKS)
    }

    // The ranks at a moment that meets the tests, counted anew.
    fn ranks_at(&self, t: Moment) -> KnownRanks
        requires moment { IsWorkingMoment t.0 }
        requires between { is_between self.now t.0 ≡ true }
        requires met { meets_tests self.now t.0 ≡ true }
        requires interval { meets_interval self.now t.0 ≡ true }
        ensures place { result.place ≡ t }
        ensures known { IsKnown self.now result }
    {
        KnownRanks {
            place: t,
            so_far: self.whole_rank(Dir::Back, t),
            to_come: self.whole_rank(Dir::Fore, t) - 1,
        }
    }

    // The ranks at the next candidate, which lies in the same unit as more are to come.
    fn ranks_on(&self, ranks: KnownRanks, t: Moment, met: bool) -> KnownRanks
        requires known { IsKnown self.now ranks }
        requires more { 0 < ranks.to_come }
        requires next { IsNextCandidate (is_candidate self.now) Fore ranks.place.0 t.0 }
        requires met { met ≡ meets_tests self.now t.0 }
        ensures place { result.place ≡ t }
        ensures known { IsKnown self.now result }
    {
        check_weekday(self.unit);
        if met {
            KnownRanks {
                place: t,
                so_far: ranks.so_far + 1,
                to_come: ranks.to_come - 1,
            }
        } else {
            KnownRanks { place: t, ..ranks }
        }
    }

    // Whether the rank is met at a place that meets the tests.
    #[tactic(auto, unfolding(crate::specs::Members::meets_rank))]
    fn meets_known_rank(&self, ranks: &KnownRanks) -> bool
        requires known { IsKnown self.now ranks.now }
        requires met { meets_tests self.now ranks.now.place.0 ≡ true }
        ensures { result ≡ meets_rank self.now ranks.now.place.0 }
    {
        is_zero(&self.rank.0) || is_in_signed(&self.rank.0, ranks.so_far, ranks.to_come + 1)
    }

    // Whether a candidate is a member; its ranks are counted anew, where the sieve tests them.
    #[tactic(auto, using(crate::proofs::RuleLemmas::has_between), unfolding(crate::specs::Members::meets_rank, crate::specs::Members::meets_rule))]
    fn is_member_anew(&self, known: &mut Option<KnownRanks>, t: Moment, met: bool) -> bool
        requires sieve { IsSieve self.now }
        requires moment { IsWorkingMoment t.0 }
        requires between { is_between self.now t.0 ≡ true }
        requires met { met ≡ meets_tests self.now t.0 }
        ensures value { result ≡ has self.now t.0 }
        ensures known { IfSome known.new (IsKnown self.now) }
    {
        *known = None;
        if !met || !self.meets_interval(t) {
            return false;
        }
        if is_zero(&self.rank.0) {
            return true;
        }
        let ranks = self.ranks_at(t);
        *known = Some(ranks);
        self.meets_known_rank(&ranks)
    }

    // Whether the next candidate is a member; in the unit of what is known the ranks move on.
    #[tactic(auto, using(crate::proofs::RuleLemmas::has_between), unfolding(crate::specs::Members::meets_rule))]
    fn is_member_known(&self, from: Moment, known: &mut Option<KnownRanks>, near: Near) -> bool
        requires sieve { IsSieve self.now }
        requires known { IfSome known.old (IsKnown self.now) }
        requires next { IsNextCandidate (is_candidate self.now) Fore from.0 near.moment.0 }
        requires between { is_between self.now near.moment.0 ≡ true }
        requires met { near.met ≡ true → meets_tests self.now near.moment.0 ≡ true }
        ensures value { result ≡ has self.now near.moment.0 }
        ensures known { IfSome known.new (IsKnown self.now) }
    {
        let t = near.moment;
        let met = self.is_met(near);
        match *known {
            Some(ranks) if ranks.place.0 == from.0 && ranks.to_come > 0 => {
                let ranks = self.ranks_on(ranks, t, met);
                *known = Some(ranks);
                met && self.meets_known_rank(&ranks)
            }
            _ => self.is_member_anew(known, t, met),
        }
    }

    /// The same answer as that of `after`, by what is known of the ranks at `t`, so that a search
    /// from candidate to candidate counts the ranks anew once a unit at most.
    ///
    /// `known` is what an earlier call left for the same sieve, or None.
    pub fn after_known(&self, t: Moment, known: &mut Option<KnownRanks>) -> Step
        requires sieve { IsSieve self.now }
        requires moment { IsWorkingMoment t.0 }
        requires known { IfSome known.old (IsKnown self.now) }
        ensures next { IsNext (has self.now) (is_candidate self.now) t.0 result }
        ensures known { IfSome known.new (IsKnown self.now) }
    {
        match self.next_near(Dir::Fore, t) {
            None => Step::End,
            Some(near) => {
                if self.is_member_known(t, known, near) {
                    Step::Hit(near.moment)
                } else {
                    Step::Pass(near.moment)
                }
            }
        }
    }
}
