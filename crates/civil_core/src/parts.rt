ghost use Rattle.std.specs.Prelude.{◌≡◌, ◌+◌, ◌≤ℤ◌, pos, neg_ℤ};
ghost use Rattle.std.specs.Int.{IsInRange};
ghost use Rattle.moment_core.specs.Calendar.{is_leap, year_len, month_len, days_into_year, year_of, month_of, day_of_month, weekday_of, week_year_of, week_of, weeks_in_year};
ghost use Rattle.moment_core.specs.TimeOfDay.{day_of, hour_of, minute_of, second_of, seconds_of};
ghost use Rattle.moment_core.specs.Line.{IsWorkingMoment};

use crate::{dates, weeks};
use moment_core::{Moment, Weekday};

/// The date, the time of day and the week of a moment, in the proleptic Gregorian calendar.
///
/// The year 0 is the one before the year 1. A week counts in the week-year that has at least four
/// of its days.
#[derive(Clone, Copy, Debug, PartialEq, Eq)]
pub struct CivilParts {
    pub year: i32,
    pub month: u8,
    pub day: u8,
    pub hour: u8,
    pub minute: u8,
    pub second: u8,
    pub weekday: Weekday,
    /// The day of the year, from 1.
    pub yearday: u16,
    /// How many days the month has.
    pub month_len: u8,
    /// How many days the year has.
    pub year_len: u16,
    /// The number of the week in its week-year, from 1.
    pub week: u8,
    pub week_year: i32,
    /// How many weeks the week-year has.
    pub weeks: u8,
}

/// The date, the time of day and the week of a moment, where weeks begin on the weekday `first`:
/// for Monday they are the weeks of ISO 8601.
pub fn fields(t: Moment, first: Weekday) -> CivilParts
    requires { IsWorkingMoment t.0 }
    ensures year { result.year ≡ year_of (day_of t.0) }
    ensures month { result.month ≡ month_of (day_of t.0) }
    ensures day { result.day ≡ day_of_month (day_of t.0) }
    ensures hour { result.hour ≡ hour_of t.0 }
    ensures minute { result.minute ≡ minute_of t.0 }
    ensures second { result.second ≡ second_of t.0 }
    ensures weekday { result.weekday ≡ weekday_of (day_of t.0) }
    ensures yearday { result.yearday ≡ days_into_year (day_of t.0) + 1 }
    ensures month_len { result.month_len
        ≡ month_len (is_leap (year_of (day_of t.0))) (month_of (day_of t.0)) }
    ensures year_len { result.year_len ≡ year_len (year_of (day_of t.0)) }
    ensures week { result.week ≡ week_of first (day_of t.0) }
    ensures week_year { result.week_year ≡ week_year_of first (day_of t.0) }
    ensures weeks { result.weeks ≡ weeks_in_year first (week_year_of first (day_of t.0)) }
    ensures years { (neg_ℤ (pos 9990) ≤ℤ result.year) × (result.year ≤ℤ pos 9990) }
    ensures months { IsInRange 1 12 result.month }
    ensures days { IsInRange 1 result.month_len result.day }
    ensures times { IsInRange 0 23 result.hour × IsInRange 0 59 result.minute
        × IsInRange 0 59 result.second }
    ensures named { seconds_of result.year result.month result.day result.hour result.minute
        result.second
        ≡ t.0 }
    ensures yeardays { IsInRange 1 result.year_len result.yearday }
    ensures month_lens { IsInRange 28 31 result.month_len }
    ensures year_lens { IsInRange 365 366 result.year_len }
    ensures week_years { (neg_ℤ (pos 9990) ≤ℤ result.week_year)
        × (result.week_year ≤ℤ pos 9990) }
    ensures week_numbers { IsInRange 1 result.weeks result.week }
    ensures week_counts { IsInRange 52 53 result.weeks }
{
    let day = t.0.div_euclid(86_400);
    let second_of_day = t.0.rem_euclid(86_400) as u32;
    let date = dates::date_parts(day);
    let week = weeks::week_parts(day, first);
    CivilParts {
        year: date.year as i32,
        month: date.month,
        day: date.day,
        hour: (second_of_day / 3600) as u8,
        minute: (second_of_day / 60 % 60) as u8,
        second: (second_of_day % 60) as u8,
        weekday: dates::weekday_of_day(day),
        yearday: date.yearday,
        month_len: date.month_len,
        year_len: date.year_len,
        week: week.week,
        week_year: week.week_year as i32,
        weeks: week.weeks,
    }
}
