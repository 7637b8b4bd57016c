ghost use Rattle.std.specs.Prelude.{◌≡◌, ◌<◌, ◌≤◌, ◌≤ℤ◌, ◌<ℤ◌, neg_ℤ, ◌-◌, pos, ◌+ℤ◌, ◌*ℤ◌, if◌then◌else◌};
ghost use Rattle.std.specs.Int.{IsInRange};
ghost use Rattle.moment_core.specs.Calendar.{divides, is_leap, month_len};
ghost use Rattle.moment_core.specs.Line.{IsWorkingMoment};
ghost use Rattle.moment_core.specs.TimeOfDay.{day_of};
ghost use Rattle.civil_core.specs.Months.{IsMonth, IsNearMonth};

use crate::parts::fields;
use moment_core::{Moment, Weekday};

/// A month of the proleptic Gregorian calendar.
///
/// One that `month_at` gives, and those that `later` and `earlier` lead to from there, are whole
/// (`IsMonth`). They may lie a little past the working range (`IsNearMonth`).
#[derive(Clone, Copy)]
pub struct CivilMonth {
    pub year: i64,
    pub month: usize,
    /// Whether its year has 366 days.
    pub leap: bool,
    /// The number of its first day.
    pub first: i64,
    /// The weekday of that day, from 1 for Monday.
    pub weekday: usize,
    /// How many days it has.
    pub len: usize,
    /// How many days of the year come before it.
    pub before: usize,
}

fn divides(n: u32, year: i64) -> bool
    requires { 1 ≤ n }
    ensures { result ≡ divides n year }
{
    year.rem_euclid(n as i64) == 0
}

#[tactic(auto, unfolding(moment_core::specs::Calendar::is_leap))]
fn is_leap(year: i64) -> bool
    ensures { result ≡ is_leap year }
{
    divides(4, year) && (!divides(100, year) || divides(400, year))
}

fn month_len(leap: bool, month: usize) -> usize
    ensures value { result ≡ month_len leap month }
    ensures within { IsInRange 28 31 result }
{
    if month == 2 {
        if leap { 29 } else { 28 }
    } else if month == 4 || month == 6 || month == 9 || month == 11 {
        30
    } else {
        31
    }
}

/// The month that holds a moment.
pub fn month_at(t: Moment) -> CivilMonth
    requires { IsWorkingMoment t.0 }
    ensures month { IsMonth result }
    ensures near { IsNearMonth result }
    ensures low { result.first ≤ℤ day_of t.0 }
    ensures high { day_of t.0 <ℤ (result.first +ℤ pos result.len) }
{
    let parts = fields(t, Weekday::new(1).unwrap());
    let index = parts.day as usize - 1;
    CivilMonth {
        year: parts.year as i64,
        month: parts.month as usize,
        leap: parts.year_len == 366,
        first: t.0.div_euclid(86_400) - index as i64,
        weekday: (parts.weekday.number() as usize + 34 - index) % 7 + 1,
        len: parts.month_len as usize,
        before: parts.yearday as usize - parts.day as usize,
    }
}

impl CivilMonth {
    /// The month after it.
    pub fn later(&self) -> CivilMonth
        requires month { IsMonth self.now }
        requires near { IsNearMonth self.now }
        ensures month { IsMonth result }
        ensures first { result.first ≡ self.now.first +ℤ pos self.now.len }
    {
        let first = self.first + self.len as i64;
        let weekday = (self.weekday + self.len + 6) % 7 + 1;
        if self.month == 12 {
            let year = self.year + 1;
            CivilMonth {
                year,
                month: 1,
                leap: is_leap(year),
                first,
                weekday,
                len: 31,
                before: 0,
            }
        } else {
            let month = self.month + 1;
            CivilMonth {
                year: self.year,
                month,
                leap: self.leap,
                first,
                weekday,
                len: month_len(self.leap, month),
                before: self.before + self.len,
            }
        }
    }

    /// The month before it.
    pub fn earlier(&self) -> CivilMonth
        requires month { IsMonth self.now }
        requires near { IsNearMonth self.now }
        ensures month { IsMonth result }
        ensures first { result.first +ℤ pos result.len ≡ self.now.first }
    {
        if self.month == 1 {
            let year = self.year - 1;
            let leap = is_leap(year);
            CivilMonth {
                year,
                month: 12,
                leap,
                first: self.first - 31,
                weekday: (self.weekday + 3) % 7 + 1,
                len: 31,
                before: if leap { 335 } else { 334 },
            }
        } else {
            let month = self.month - 1;
            let len = month_len(self.leap, month);
            CivilMonth {
                year: self.year,
                month,
                leap: self.leap,
                first: self.first - len as i64,
                weekday: (self.weekday + 34 - len) % 7 + 1,
                len,
                before: self.before - len,
            }
        }
    }

    /// Its number, counted from January of the year 0.
    pub fn number(&self) -> i64
        requires month { IsMonth self.now }
        requires near { IsNearMonth self.now }
        ensures value { result ≡ self.now.year *ℤ pos 12 +ℤ pos (self.now.month - 1) }
        ensures low { neg_ℤ (pos 120_000) ≤ℤ result }
        ensures high { result ≤ℤ pos 120_000 }
    {
        self.year * 12 + (self.month as i64 - 1)
    }

    /// The day number of its day i, the first one being 0.
    pub fn nth_day(&self, i: usize) -> i64
        requires month { IsMonth self.now }
        requires near { IsNearMonth self.now }
        requires i { i < self.now.len }
        ensures value { result ≡ self.now.first +ℤ pos i }
        ensures low { neg_ℤ (pos 4_600_000) ≤ℤ result }
        ensures high { result ≤ℤ pos 4_600_000 }
    {
        self.first + i as i64
    }

    /// How many days its year has.
    pub fn year_len(&self) -> usize
        ensures { result ≡ (if self.now.leap then 366 else 365) }
    {
        if self.leap { 366 } else { 365 }
    }
}
