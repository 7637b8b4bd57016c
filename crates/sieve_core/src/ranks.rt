ghost use Rattle.std.specs.Prelude.{◌≡◌, ◌<◌, ◌≤◌, ◌-◌, true, if◌then◌else◌, pos, ◌+ℤ◌, ◌≤ℤ◌, ◌<ℤ◌};
ghost use Rattle.moment_core.specs.declared.line.TheConstants.{G};
ghost use Rattle.moment_core.specs.Line.{IsWorkingMoment};
ghost use Rattle.moment_core.specs.TimeOfDay.{day_of, second_of_day};
ghost use Rattle.sieve_core.specs.Days.{meets_days};
ghost use Rattle.moment_core.specs.Units.{HasWeekday};
ghost use Rattle.sieve_core.specs.Ranks.{IsCapped, IsDeepMoment, counted, is_of_days};
ghost use Rattle.moment_core.specs.Ranks.{count_below};
ghost use Rattle.sieve_core.specs.Members.{meets_rank, rank_of};
ghost use Rattle.sieve_core.specs.Times.{meets_minute, meets_second, turn, turned_bit};

use crate::bits::{bits_below, has_bit, is_in_signed, is_zero};
use crate::members::second_of_day;
use crate::tables::Sieve;
use crate::times::{steps_on, turn};
use crate::units::{block_end, check_weekday, has_number, is_of_days, number};
use moment_core::{Dir, G, Moment};

// How many of the first bits are set, counted from the mask's end where the direction is backwards.
fn ones_below(dir: Dir, mask: u64, len: usize, end: usize) -> usize
    requires len { len ≤ 60 }
    requires end { end ≤ len }
    ensures value { result ≡ count_below (turned_bit dir mask len) end }
    ensures most { result ≤ end }
{
    let mut count = 0;
    for i in 0..end {
        if has_bit(&[mask], turn(dir, len, i)) {
            count += 1;
        }
    }
    count
}

// The moment 400 years later.
fn cycle_on(t: Moment) -> Moment
    requires working { IsWorkingMoment t.0 }
    requires early { t.0 <ℤ pos 0 }
    ensures place { result.0 ≡ t.0 +ℤ pos G }
    ensures deep { IsDeepMoment result.0 }
    ensures working { IsWorkingMoment result.0 }
{
    Moment(t.0 + G as i64)
}

// The moment 400 years earlier.
fn cycle_back(t: Moment) -> Moment
    requires working { IsWorkingMoment t.0 }
    requires late { pos 0 ≤ℤ t.0 }
    ensures place { result.0 +ℤ pos G ≡ t.0 }
    ensures deep { IsDeepMoment result.0 }
    ensures working { IsWorkingMoment result.0 }
{
    Moment(t.0 - G as i64)
}

impl Sieve {
    // How many of the first minutes of the day are met.
    fn minutes_below(&self, dir: Dir, end: usize) -> usize
        requires { end ≤ 1440 }
        ensures value { result ≡ count_below (meets_minute self.now dir) end }
        ensures most { result ≤ 1440 }
    {
        let each = ones_below(dir, self.minutes, 60, 60);
        let whole = ones_below(dir, self.hours as u64, 24, end / 60) * each;
        if end >= 1440 {
            return whole;
        }
        if self.has_hour(dir, end / 60) {
            whole + ones_below(dir, self.minutes, 60, end % 60)
        } else {
            whole
        }
    }

    // How many of the first seconds of the day are met.
    fn seconds_below(&self, dir: Dir, end: usize) -> usize
        requires { end ≤ 86_400 }
        ensures value { result ≡ count_below (meets_second self.now dir) end }
        ensures most { result ≤ 86_400 }
    {
        let each = ones_below(dir, self.seconds, 60, 60);
        let whole = self.minutes_below(dir, end / 60) * each;
        if end >= 86_400 {
            return whole;
        }
        if self.has_minute(dir, end / 60) {
            whole + ones_below(dir, self.seconds, 60, end % 60)
        } else {
            whole
        }
    }

    // How many moments of a day are met from a second of it on, below an end.
    #[tactic(auto, using(crate::proofs::CountLemmas::count_mono))]
    fn count_in_day(&self, dir: Dir, t: Moment, from: usize, end: usize) -> usize
        requires moment { IsWorkingMoment t.0 }
        requires from { from ≤ end }
        requires end { end ≤ 86_400 }
        ensures value { result ≡ (if meets_days self.now.days (day_of t.0)
            then count_below (meets_second self.now dir) end
            - count_below (meets_second self.now dir) from
            else 0) }
        ensures most { result ≤ 86_400 }
    {
        if self.days.meets_day(t) {
            self.seconds_below(dir, end) - self.seconds_below(dir, from)
        } else {
            0
        }
    }

    // As many as a whole day has, where the moment's day is met.
    fn whole_day(&self, t: Moment, whole: usize) -> usize
        requires moment { IsWorkingMoment t.0 }
        requires whole { whole ≤ 86_400 }
        ensures value { result ≡ (if meets_days self.now.days (day_of t.0) then whole else 0) }
        ensures most { result ≤ 86_400 }
    {
        if self.days.meets_day(t) { whole } else { 0 }
    }

    // Goes on counting day by day up to the unit's end, or until there are as many as matter.
    fn count_days(&self, dir: Dir, t: Moment, from: usize, first: usize, cap: usize) -> usize
        requires deep { IsDeepMoment t.0 }
        requires moment { IsWorkingMoment t.0 }
        requires weekday { HasWeekday self.now.unit }
        requires days { is_of_days self.now.unit ≡ true }
        requires from { from ≡ turn dir 86_400 (second_of_day t.0) }
        requires day { from < 86_400 }
        requires first { first ≡ count_below (counted self.now dir t.0) (86_400 - from) }
        requires most { first ≤ 86_400 }
        ensures { IsCapped cap (rank_of self.now dir t.0) result }
    {
        let number = number(self.unit, t);
        let whole = self.seconds_below(dir, 86_400);
        let mut at = steps_on(dir, t, 86_400 - from);
        let mut count = first;
        for day in 0..372usize {
            if count >= cap {
                return count;
            }
            if !has_number(self.unit, at, number) {
                return count;
            }
            count += self.whole_day(at, whole);
            at = steps_on(dir, at, 86_400);
        }
        count
    }

    // The rank, or some number that is as high as matters, far from the ends of the working range.
    fn rank_of_deep(&self, dir: Dir, t: Moment, cap: usize) -> usize
        requires deep { IsDeepMoment t.0 }
        requires moment { IsWorkingMoment t.0 }
        requires weekday { HasWeekday self.now.unit }
        ensures { IsCapped cap (rank_of self.now dir t.0) result }
    {
        let from = turn(dir, 86_400, second_of_day(t));
        let end = block_end(self.unit, from);
        let count = self.count_in_day(dir, t, from, end);
        if is_of_days(self.unit) {
            self.count_days(dir, t, from, count, cap)
        } else {
            count
        }
    }

    // The rank among the moments of one unit, or some number that is as high as matters.
    pub(crate) fn rank(&self, dir: Dir, t: Moment, cap: usize) -> usize
        requires { IsWorkingMoment t.0 }
        ensures { IsCapped cap (rank_of self.now dir t.0) result }
    {
        if cap == 0 {
            return 0;
        }
        check_weekday(self.unit);
        let _first = self.days.first.number();
        // 400 years on, or back, the rank is the same, and there every unit lies in the working
        // range.
        if t.0 < 0 {
            self.rank_of_deep(dir, cycle_on(t), cap)
        } else {
            self.rank_of_deep(dir, cycle_back(t), cap)
        }
    }

    // Whether the rank from the unit's first moment or from its last one is met.
    #[tactic(auto, unfolding(crate::specs::Members::meets_rank))]
    pub(crate) fn meets_rank(&self, t: Moment) -> bool
        requires { IsWorkingMoment t.0 }
        ensures { result ≡ meets_rank self.now t.0 }
    {
        if is_zero(&self.rank.0) {
            return true;
        }
        let from_first = self.rank(Dir::Back, t, bits_below(&self.rank.0, 0));
        let from_last = self.rank(Dir::Fore, t, bits_below(&self.rank.0, 6));
        is_in_signed(&self.rank.0, from_first, from_last)
    }
}
