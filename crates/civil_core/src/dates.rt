ghost use Rattle.std.specs.Prelude.{◌≡◌, ◌+◌, ◌↔◌, IsSome, IfSome, pos, neg_ℤ};
ghost use Rattle.std.specs.Int.{IsInRange};
ghost use Rattle.jiff.specs.Words.{epoch_day, IsEpochDay, IsYear, IsBetween};
ghost use Rattle.moment_core.specs.Calendar.{is_leap, year_len, month_len, days_into_year, year_of, month_of, day_of_month, weekday_of, day_number};
ghost use Rattle.civil_core.specs.Days.{IsWorkingDay};

use jiff::civil::Date;
use moment_core::Weekday;

/// The parts of a date.
#[derive(Clone, Copy)]
pub(crate) struct DateParts {
    pub(crate) year: i16,
    pub(crate) month: u8,
    pub(crate) day: u8,
    pub(crate) yearday: u16,
    pub(crate) month_len: u8,
    pub(crate) year_len: u16,
}

/// The date with a day number.
pub(crate) fn date_of_day(day: i64) -> Date
    requires { IsEpochDay day }
    ensures { epoch_day result ≡ day }
{
    Date::from_plain(jiff_core::civil::Date::from_unix_epoch_day(day).unwrap())
}

/// The day number of a date.
pub(crate) fn day_of_date(date: Date) -> i64
    ensures value { result ≡ epoch_day date }
    ensures bound { IsEpochDay result }
{
    date.to_plain().to_unix_epoch_day() as i64
}

/// The parts of the date with a day number.
pub(crate) fn date_parts(day: i64) -> DateParts
    requires { IsWorkingDay day }
    ensures year { result.year ≡ year_of day }
    ensures month { result.month ≡ month_of day }
    ensures day { result.day ≡ day_of_month day }
    ensures yearday { result.yearday ≡ days_into_year day + 1 }
    ensures month_len { result.month_len ≡ month_len (is_leap (year_of day)) (month_of day) }
    ensures year_len { result.year_len ≡ year_len (year_of day) }
    ensures years { IsBetween (neg_ℤ (pos 9990)) (pos 9990) result.year }
    ensures months { IsInRange 1 12 result.month }
    ensures days { IsInRange 1 result.month_len result.day }
    ensures yeardays { IsInRange 1 result.year_len result.yearday }
{
    let date = date_of_day(day);
    DateParts {
        year: date.year(),
        month: date.month() as u8,
        day: date.day() as u8,
        yearday: date.day_of_year() as u16,
        month_len: date.days_in_month() as u8,
        year_len: date.days_in_year() as u16,
    }
}

/// The weekday of the date with a day number.
pub(crate) fn weekday_of_day(day: i64) -> Weekday
    requires { IsEpochDay day }
    ensures { result ≡ weekday_of day }
{
    let number = date_of_day(day).weekday().to_monday_one_offset();
    Weekday::new(number as u8).unwrap()
}

/// The day number of a date, if the calendar has it in the library's years.
pub(crate) fn day_of_ymd(year: i32, month: u8, day: u8) -> Option<i64>
    ensures some { IsSome result
        ↔ (IsYear year × IsInRange 1 12 month × IsInRange 1 (month_len (is_leap year) month) day) }
    ensures value { IfSome result (λ n. n ≡ day_number year month day) }
    ensures bound { IfSome result IsEpochDay }
{
    let year = i16::try_from(year).ok()?;
    let month = i8::try_from(month).ok()?;
    let day = i8::try_from(day).ok()?;
    let date = Date::new(year, month, day).ok()?;
    Some(day_of_date(date))
}
