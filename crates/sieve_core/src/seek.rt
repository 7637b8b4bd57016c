ghost use Rattle.std.specs.Prelude.{◌≡◌, ◌↔◌, ◌<◌, ◌≤◌, ◌&&◌, ℕ, ℤ, pos, ◌+ℤ◌, ◌≤ℤ◌, ◌<ℤ◌, neg_ℤ, ◌-◌, true, false, IsTrue, IfSome, IfNone, None, Some};
ghost use Rattle.std.specs.Int.{IsInRange};
ghost use Rattle.moment_core.specs.Line.{IsWorkingMoment};
ghost use Rattle.moment_core.specs.Sets.{ahead, seen};
ghost use Rattle.moment_core.specs.Steps.{IsNextCandidate, NoCandidateLeft};
ghost use Rattle.moment_core.specs.TimeOfDay.{day_of, second_of_day};
ghost use Rattle.moment_core.specs.declared.line.Dir.TheVariants.{Fore, Back};
ghost use Rattle.sieve_core.specs.Days.{meets_days, meets_weekdays, meets_weeks, meets_months, is_nth_weekday};
ghost use Rattle.sieve_core.specs.Members.{has};
ghost use Rattle.civil_core.specs.Months.{IsMonth, IsNearMonth, IsDayIn};
ghost use Rattle.sieve_core.specs.Seek.{day_at, day_turn, is_sought_moment, is_month_open, is_sought_day, is_working_day, month_turn, sought_at, NoMomentSought, NoDaySought};
ghost use Rattle.sieve_core.specs.Nearest.{IsNearest};
ghost use Rattle.sieve_core.specs.Sieves.{IsSieve};
ghost use Rattle.sieve_core.specs.Times.{IsLeast, IsLeastIn, meets_second, turn};

use crate::bits::{has_bit, is_zero, meets_signed};
use crate::days::{are_zero, is_nth};
use crate::members::second_of_day;
use crate::tables::{DayTest, Sieve};
use crate::times::{steps_on, turn};
use crate::units::is_in_turn;
use civil_core::{CivilMonth, fields, month_at};
use moment_core::{Dir, Moment, Unit, in_work};

// Whether the day lies in the working range.
#[tactic(auto, unfolding(crate::specs::Seek::is_working_day))]
fn is_working_day(day: i64) -> bool
    ensures { result ≡ is_working_day day }
{
    -4_368_278 <= day && day <= 2_929_587
}

// The midnight with which a day of the working range begins.
fn midnight_of(day: i64) -> Moment
    requires { is_working_day day ≡ true }
    ensures working { IsWorkingMoment result.0 }
    ensures day { day_of result.0 ≡ day }
{
    Moment(day * 86_400)
}

// A second of a day of the working range.
fn second_of(day: i64, second: usize) -> Moment
    requires day { is_working_day day ≡ true }
    requires second { second < 86_400 }
    ensures working { IsWorkingMoment result.0 }
    ensures day { day_of result.0 ≡ day }
    ensures second { second_of_day result.0 ≡ second }
{
    Moment(day * 86_400 + second as i64)
}

// The next month in the direction.
fn next_month(dir: Dir, month: &CivilMonth) -> CivilMonth
    requires month { IsMonth month.now }
    requires near { IsNearMonth month.now }
    ensures month { IsMonth result }
    ensures place { day_at result dir 0 ≡ ahead dir (day_at month.now dir (month.now.len - 1)) 1 }
{
    match dir {
        Dir::Fore => month.later(),
        Dir::Back => month.earlier(),
    }
}

// Day i of the month in the direction.
fn day_in(dir: Dir, month: &CivilMonth, i: usize) -> i64
    requires month { IsMonth month.now }
    requires i { i < month.now.len }
    requires low { neg_ℤ (pos 4_500_000) ≤ℤ month.now.first }
    requires high { month.now.first ≤ℤ pos 4_500_000 }
    ensures value { result ≡ day_at month.now dir i }
    ensures low { neg_ℤ (pos 4_600_000) ≤ℤ result }
    ensures high { result ≤ℤ pos 4_600_000 }
{
    month.first + turn(dir, month.len, i) as i64
}

impl DayTest {
    // Whether day i of the month meets the test of weekdays.
    #[tactic(auto, unfolding(crate::specs::Days::meets_weekdays, crate::specs::Days::is_nth_weekday))]
    fn meets_weekday_in(&self, month: &CivilMonth, i: usize) -> bool
        requires month { IsMonth month.now }
        requires i { i < month.now.len }
        ensures { (day : ℤ) → IsDayIn month.now i day →
            result ≡ meets_weekdays self.now.week_days self.now.nth self.now.nth_in_month day }
    {
        if self.week_days == 0 && are_zero(&self.nth) {
            return true;
        }
        let weekday = (month.weekday + i + 6) % 7 + 1;
        if has_bit(&[self.week_days as u64], weekday) {
            return true;
        }
        let words = &self.nth[weekday - 1];
        if self.nth_in_month {
            is_nth(words, month.len, i + 1)
        } else {
            is_nth(words, month.year_len(), month.before + i + 1)
        }
    }

    // Whether a day of the working range meets the test of weeks.
    #[tactic(auto, unfolding(crate::specs::Days::meets_weeks, crate::specs::Bits::meets_signed))]
    fn meets_week_of(&self, day: i64) -> bool
        requires { is_working_day day ≡ true }
        ensures { result ≡ meets_weeks self.now.weeks self.now.first day }
    {
        if is_zero(&self.weeks) {
            return true;
        }
        let parts = fields(midnight_of(day), self.first);
        meets_signed(&self.weeks, parts.weeks as usize, parts.week as usize)
    }

    // Whether day i of the month, whose bit is set, meets the tests that need its date alone.
    #[tactic(auto, unfolding(crate::specs::Days::meets_days, crate::specs::Days::meets_year_days, crate::specs::Days::meets_month_days))]
    fn meets_date_in(&self, month: &CivilMonth, i: usize) -> bool
        requires month { IsMonth month.now }
        requires i { i < month.now.len }
        ensures { (day : ℤ) → IsDayIn month.now i day →
            meets_months self.now.months day ≡ true →
            (result && meets_weeks self.now.weeks self.now.first day) ≡ meets_days self.now day }
    {
        meets_signed(&[self.month_days], month.len, i + 1)
            && self.meets_weekday_in(month, i)
            && meets_signed(&self.year_days, month.year_len(), month.before + i + 1)
    }
}

impl Sieve {
    // Whether the month has its turn.
    fn is_month_in_turn(&self, month: &CivilMonth) -> bool
        requires sieve { IsSieve self.now }
        requires month { IsMonth month.now }
        requires near { IsNearMonth month.now }
        ensures { result ≡ month_turn self.now.unit self.now.interval self.now.phase month.now.year
            month.now.month }
    {
        if self.interval == 1 {
            return true;
        }
        match self.unit {
            Unit::Year => is_in_turn(self.interval, self.phase, month.year),
            Unit::Month => is_in_turn(self.interval, self.phase, month.number()),
            _ => true,
        }
    }

    // Whether the month has its bit and its turn.
    fn is_month_open(&self, month: &CivilMonth) -> bool
        requires sieve { IsSieve self.now }
        requires month { IsMonth month.now }
        requires near { IsNearMonth month.now }
        ensures { result ≡ is_month_open self.now month.now.year month.now.month }
    {
        (self.days.months == 0 || has_bit(&[self.days.months as u64], month.month))
            && self.is_month_in_turn(month)
    }

    // Whether a day of the working range has its turn.
    fn is_day_in_turn(&self, day: i64) -> bool
        requires sieve { IsSieve self.now }
        requires day { is_working_day day ≡ true }
        ensures { result ≡ day_turn self.now.unit self.now.interval self.now.phase day }
    {
        match self.unit {
            Unit::WeekYear(_) => self.meets_interval(midnight_of(day)),
            Unit::Week(_) => self.meets_interval(midnight_of(day)),
            Unit::Day => self.meets_interval(midnight_of(day)),
            _ => true,
        }
    }

    // Whether a day whose date is met is one to stop at.
    fn seeks_day(&self, day: i64) -> bool
        requires sieve { IsSieve self.now }
        ensures { result ≡ (is_working_day day
            && meets_weeks self.now.days.weeks self.now.days.first day
            && day_turn self.now.unit self.now.interval self.now.phase day) }
    {
        is_working_day(day) && self.days.meets_week_of(day) && self.is_day_in_turn(day)
    }

    // Whether day i of an open month is one to stop at.
    fn seeks_in(&self, month: &CivilMonth, i: usize) -> bool
        requires sieve { IsSieve self.now }
        requires month { IsMonth month.now }
        requires near { IsNearMonth month.now }
        requires open_month { is_month_open self.now month.now.year month.now.month ≡ true }
        requires i { i < month.now.len }
        ensures { result ≡ is_sought_day self.now (month.now.first +ℤ pos i) }
    {
        if !self.days.meets_date_in(month, i) {
            return false;
        }
        self.seeks_day(month.nth_day(i))
    }

    // The first day of an open month to stop at, counted in the direction.
    fn first_in_month(&self, dir: Dir, month: &CivilMonth, from: usize) -> Option<usize>
        requires sieve { IsSieve self.now }
        requires month { IsMonth month.now }
        requires near { IsNearMonth month.now }
        requires open_month { is_month_open self.now month.now.year month.now.month ≡ true }
        ensures { IsLeastIn (sought_at self.now month.now dir) from month.now.len result }
    {
        for i in from..month.len {
            if self.seeks_in(month, turn(dir, month.len, i)) {
                return Some(i);
            }
        }
        None
    }

    // The same in any month.
    fn first_in(&self, dir: Dir, month: &CivilMonth, from: usize) -> Option<usize>
        requires sieve { IsSieve self.now }
        requires month { IsMonth month.now }
        requires near { IsNearMonth month.now }
        ensures { IsLeastIn (sought_at self.now month.now dir) from month.now.len result }
    {
        if self.is_month_open(month) {
            self.first_in_month(dir, month, from)
        } else {
            None
        }
    }

    // Whether the interval leaves out no day, as one of hours doesn't.
    fn takes_all_days(&self) -> bool
        ensures { result ≡ true → (year : ℤ) (month : ℕ) (day : ℤ) →
            (month_turn self.now.unit self.now.interval self.now.phase year month
            && day_turn self.now.unit self.now.interval self.now.phase day) ≡ true }
    {
        if self.interval == 1 {
            return true;
        }
        match self.unit {
            Unit::Hour => true,
            Unit::Minute => true,
            Unit::Second => true,
            _ => false,
        }
    }

    // Whether every day of the working range is one to stop at.
    fn seeks_all(&self) -> bool
        ensures { result ≡ true → (d : ℤ) → is_working_day d ≡ true →
            is_sought_day self.now d ≡ true }
    {
        self.takes_all_days() && self.days.is_free()
    }

    // The nearest day to stop at, month by month from a day of one on.
    fn next_day_from(&self, dir: Dir, day: i64, month: CivilMonth) -> Option<i64>
        requires sieve { IsSieve self.now }
        requires day { is_working_day day ≡ true }
        requires month { IsMonth month }
        requires low { month.first ≤ℤ day }
        requires high { day <ℤ (month.first +ℤ pos month.len) }
        ensures some { IfSome result (λ d. IsNearest (is_sought_day self.now) dir day d) }
        ensures none { IfNone result (NoDaySought self.now dir day) }
    {
        let mut month = month;
        let mut from = turn(dir, month.len, (day - month.first) as usize);
        while is_working_day(day_in(dir, &month, from)) {
            match self.first_in(dir, &month, from) {
                Some(i) => return Some(day_in(dir, &month, i)),
                None => {
                    month = next_month(dir, &month);
                    from = 0;
                }
            }
        }
        None
    }

    // The nearest day to stop at, from the day of a moment on.
    fn next_day(&self, dir: Dir, t: Moment) -> Option<i64>
        requires sieve { IsSieve self.now }
        requires moment { IsWorkingMoment t.0 }
        ensures some { IfSome result (λ d. IsNearest (is_sought_day self.now) dir (day_of t.0) d) }
        ensures none { IfNone result (NoDaySought self.now dir (day_of t.0)) }
    {
        let day = t.0.div_euclid(86_400);
        if self.seeks_all() {
            return Some(day);
        }
        self.next_day_from(dir, day, month_at(t))
    }

    // The nearest moment to stop at, where a time from the moment's own on is first met at the
    // second n.
    fn next_moment_from(&self, dir: Dir, t: Moment, n: usize) -> Option<Moment>
        requires sieve { IsSieve self.now }
        requires moment { IsWorkingMoment t.0 }
        requires least { IsLeast (meets_second self.now dir) (turn dir 86_400 (second_of_day t.0))
            86_400 n }
        ensures some { IfSome result (λ u. IsNearest (is_sought_moment self.now) dir t.0 u.0) }
        ensures none { IfNone result (NoMomentSought self.now dir t.0) }
    {
        match self.next_day(dir, t) {
            None => None,
            Some(day) => {
                if day == t.0.div_euclid(86_400) {
                    return Some(second_of(day, turn(dir, 86_400, n)));
                }
                match self.first_second(dir, 0) {
                    None => None,
                    Some(first) => Some(second_of(day, turn(dir, 86_400, first))),
                }
            }
        }
    }

    // The same where no time of the moment's day is left.
    fn next_moment_past(&self, dir: Dir, t: Moment, from: usize) -> Option<Moment>
        requires sieve { IsSieve self.now }
        requires moment { IsWorkingMoment t.0 }
        requires from { from ≡ turn dir 86_400 (second_of_day t.0) }
        requires day { from < 86_400 }
        requires none { (k : ℕ) → from ≤ k → k < 86_400 → meets_second self.now dir k ≡ false }
        ensures some { IfSome result (λ u. IsNearest (is_sought_moment self.now) dir t.0 u.0) }
        ensures none { IfNone result (NoMomentSought self.now dir t.0) }
    {
        let next = steps_on(dir, t, 86_400 - from);
        if !in_work(next) {
            return None;
        }
        match self.first_second(dir, 0) {
            None => None,
            Some(first) => self.next_moment_from(dir, next, first),
        }
    }

    // The nearest moment to stop at, from a moment on.
    fn next_moment(&self, dir: Dir, t: Moment) -> Option<Moment>
        requires sieve { IsSieve self.now }
        requires moment { IsWorkingMoment t.0 }
        ensures some { IfSome result (λ u. IsNearest (is_sought_moment self.now) dir t.0 u.0) }
        ensures none { IfNone result (NoMomentSought self.now dir t.0) }
    {
        let from = turn(dir, 86_400, second_of_day(t));
        match self.first_second(dir, from) {
            Some(n) => self.next_moment_from(dir, t, n),
            None => self.next_moment_past(dir, t, from),
        }
    }

    // The nearest member past a moment.
    fn seek(&self, dir: Dir, t: Moment) -> Option<Moment>
        requires sieve { IsSieve self.now }
        requires moment { IsWorkingMoment t.0 }
        ensures some { IfSome result (λ u. IsNextCandidate (has self.now) dir t.0 u.0) }
        ensures none { IfNone result (NoCandidateLeft (has self.now) dir t.0) }
    {
        let mut at = self.start(dir, t);
        while self.is_open(at) {
            match self.next_moment(dir, at) {
                None => return None,
                Some(u) => {
                    if !self.is_between(u) {
                        return None;
                    }
                    if self.meets_turn(u) {
                        return Some(u);
                    }
                    at = steps_on(dir, u, 1);
                }
            }
        }
        None
    }

    /// The least member after the moment in the working range, or None where there is none.
    pub fn next_member(&self, t: Moment) -> Option<Moment>
        requires sieve { IsSieve self.now }
        requires moment { IsWorkingMoment t.0 }
        ensures some { IfSome result (λ u. IsNextCandidate (has self.now) Fore t.0 u.0) }
        ensures none { IfNone result (NoCandidateLeft (has self.now) Fore t.0) }
    {
        self.seek(Dir::Fore, t)
    }

    /// The greatest member before the moment in the working range, or None where there is none.
    pub fn previous_member(&self, t: Moment) -> Option<Moment>
        requires sieve { IsSieve self.now }
        requires moment { IsWorkingMoment t.0 }
        ensures some { IfSome result (λ u. IsNextCandidate (has self.now) Back t.0 u.0) }
        ensures none { IfNone result (NoCandidateLeft (has self.now) Back t.0) }
    {
        self.seek(Dir::Back, t)
    }
}
