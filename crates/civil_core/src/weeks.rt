ghost use Rattle.std.specs.Prelude.{◌≡◌, ◌+◌, ◌+ℤ◌, pos, neg_ℤ};
ghost use Rattle.std.specs.Int.{IsInRange};
ghost use Rattle.jiff.specs.Words.{epoch_day, monday_zero, IsBetween};
ghost use Rattle.moment_core.specs.Calendar.{week_start, week_year_of, week_of, weeks_in_year};
ghost use Rattle.civil_core.specs.Days.{IsWorkingDay};

use crate::dates;
use jiff::civil::{self, Date};
use moment_core::Weekday;

/// A week of a week-year.
#[derive(Clone, Copy)]
pub(crate) struct WeekParts {
    pub(crate) week: u8,
    pub(crate) week_year: i16,
    pub(crate) weeks: u8,
}

/// The weekday as the library has it.
fn library_weekday(day: Weekday) -> civil::Weekday
    ensures value { monday_zero result + 1 ≡ day }
    ensures within { IsInRange 1 7 day }
{
    civil::Weekday::from_monday_one_offset(day.number() as i8).unwrap()
}

/// The fourth day of the week of a day, where weeks begin on the weekday `first`.
fn fourth_day(day: i64, first: Weekday) -> Date
    requires { IsWorkingDay day }
    ensures value { epoch_day result ≡ week_start first day +ℤ pos 3 }
    ensures within { IsInRange 1 7 first }
{
    let weekday = dates::date_of_day(day).weekday();
    dates::date_of_day(day - weekday.since(library_weekday(first)) as i64 + 3)
}

/// The week of a day, which counts in the year of its fourth day (ISO 8601 for weeks that begin on
/// Monday).
pub(crate) fn week_parts(day: i64, first: Weekday) -> WeekParts
    requires { IsWorkingDay day }
    ensures week { result.week ≡ week_of first day }
    ensures week_year { result.week_year ≡ week_year_of first day }
    ensures weeks { result.weeks ≡ weeks_in_year first (week_year_of first day) }
    ensures week_years { IsBetween (neg_ℤ (pos 9990)) (pos 9990) result.week_year }
    ensures numbers { IsInRange 1 result.weeks result.week }
    ensures counts { IsInRange 52 53 result.weeks }
{
    let fourth = fourth_day(day, first);
    let before = fourth.day_of_year() as u16 - 1;
    let after = fourth.days_in_year() as u16 - 1 - before;
    WeekParts {
        week: (before / 7 + 1) as u8,
        week_year: fourth.year(),
        weeks: (before / 7 + 1 + after / 7) as u8,
    }
}
