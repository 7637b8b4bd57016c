ghost use Rattle.std.specs.Prelude.{◌≡◌, ◌<◌, ◌&&◌};
ghost use Rattle.moment_core.specs.Line.{IsWorkingMoment};
ghost use Rattle.moment_core.specs.TimeOfDay.{second_of_day};
ghost use Rattle.sieve_core.specs.Members.{has, is_between, meets_interval, meets_masks, meets_rank, meets_rule, meets_tests};
ghost use Rattle.sieve_core.specs.Sieves.{IsSieve};
ghost use Rattle.sieve_core.specs.Times.{meets_time};

use crate::bits::has_bit;
use crate::tables::Sieve;
use crate::units::{is_in_turn, number};
use moment_core::Moment;

/// The second of the moment's day.
pub(crate) fn second_of_day(t: Moment) -> usize
    ensures value { result ≡ second_of_day t.0 }
    ensures within { result < 86_400 }
{
    t.0.rem_euclid(86_400) as usize
}

impl Sieve {
    // Whether the hour, the minute and the second each have their bit.
    #[tactic(auto, unfolding(crate::specs::Members::meets_masks))]
    fn meets_masks(&self, hour: usize, minute: usize, second: usize) -> bool
        ensures { result ≡ meets_masks self.now hour minute second }
    {
        has_bit(&[self.hours as u64], hour)
            && has_bit(&[self.minutes], minute)
            && has_bit(&[self.seconds], second)
    }

    // Whether the second of the day is met.
    #[tactic(auto, unfolding(crate::specs::Times::meets_time))]
    fn meets_time(&self, second: usize) -> bool
        ensures { result ≡ meets_time self.now second }
    {
        self.meets_masks(second / 3600, second / 60 % 60, second % 60)
    }

    // Whether the moment is from the first to the last one.
    #[tactic(auto, unfolding(crate::specs::Members::is_between))]
    pub(crate) fn is_between(&self, t: Moment) -> bool
        ensures { result ≡ is_between self.now t.0 }
    {
        self.first.0 <= t.0 && t.0 <= self.last.0
    }

    // Whether the time of day and the day are met.
    #[tactic(auto, using(crate::proofs::RuleLemmas::meets_tests_by_time))]
    pub(crate) fn meets_tests(&self, t: Moment) -> bool
        requires { IsWorkingMoment t.0 }
        ensures { result ≡ meets_tests self.now t.0 }
    {
        self.meets_time(second_of_day(t)) && self.days.meets_day(t)
    }

    // Whether the moment's unit is one that the interval takes.
    #[tactic(auto, using(crate::proofs::RuleLemmas::meets_interval_of_one), unfolding(crate::specs::Members::meets_interval))]
    pub(crate) fn meets_interval(&self, t: Moment) -> bool
        requires sieve { IsSieve self.now }
        requires moment { IsWorkingMoment t.0 }
        ensures { result ≡ meets_interval self.now t.0 }
    {
        self.interval == 1 || is_in_turn(self.interval, self.phase, number(self.unit, t))
    }

    // Whether the interval and the rank are met.
    pub(crate) fn meets_turn(&self, t: Moment) -> bool
        requires sieve { IsSieve self.now }
        requires moment { IsWorkingMoment t.0 }
        ensures { result ≡ (meets_interval self.now t.0 && meets_rank self.now t.0) }
    {
        self.meets_interval(t) && self.meets_rank(t)
    }

    // Whether the tests, the interval and the rank are met.
    #[tactic(auto, unfolding(crate::specs::Members::meets_rule))]
    pub(crate) fn meets_rule(&self, t: Moment) -> bool
        requires sieve { IsSieve self.now }
        requires moment { IsWorkingMoment t.0 }
        ensures { result ≡ meets_rule self.now t.0 }
    {
        self.meets_tests(t) && self.meets_interval(t) && self.meets_rank(t)
    }

    /// Whether the moment is a member: from the sieve's first moment to its last, it meets the
    /// tests of the day and the time, the interval and the rank.
    ///
    /// The moment may be any of the working range, also one outside the sieve's ends or outside the
    /// calendar range.
    #[tactic(auto, unfolding(crate::specs::Members::has))]
    pub fn test(&self, t: Moment) -> bool
        requires sieve { IsSieve self.now }
        requires moment { IsWorkingMoment t.0 }
        ensures { result ≡ has self.now t.0 }
    {
        self.is_between(t) && self.meets_rule(t)
    }
}
