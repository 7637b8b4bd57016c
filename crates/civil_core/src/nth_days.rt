ghost use Rattle.std.specs.Prelude.{◌≡◌, ◌↔◌, ◌<◌, ◌≤◌, ◌+◌, ◌-◌, ◌*◌, ℤ, pos, neg_ℤ, unsigned_abs, true, ◌||◌, IsSome, IfSome};
ghost use Rattle.std.specs.Int.{IsInRange};
ghost use Rattle.std.specs.Ordering.{int_eq};
ghost use Rattle.jiff.specs.Words.{IsYear};
ghost use Rattle.moment_core.specs.Calendar.{day_number, is_leap, month_len, weekday_of};
ghost use Rattle.moment_core.specs.Line.{IsWorkingMoment};
ghost use Rattle.civil_core.specs.Nths.{IsNthMidnight};

use crate::dates;
use crate::from_fields::moment;
use moment_core::{Moment, Weekday};

/// The first day of a month that is of the weekday, if the library has the month.
fn first_of_weekday(year: i32, month: u8, day: Weekday) -> Option<u8>
    ensures some { IsSome result ↔ (IsYear year × IsInRange 1 12 month) }
    ensures within { IfSome result (λ first. IsInRange 1 7 first) }
    ensures value { IfSome result (λ first. weekday_of (day_number year month first) ≡ day) }
{
    let day_number = dates::day_of_ymd(year, month, 1)?;
    let weekday = dates::weekday_of_day(day_number);
    Some(1 + (day.number() + 7 - weekday.number()) % 7)
}

/// How many days of a month are of the weekday whose first day in it is given.
fn count_from(year: i32, month: u8, first: u8) -> u8
    requires year { IsYear year }
    requires month { IsInRange 1 12 month }
    requires first { IsInRange 1 7 first }
    ensures within { IsInRange 4 5 result }
    ensures last { first + 7 * result ≤ month_len (is_leap year) month + 7 }
    ensures past { month_len (is_leap year) month < first + 7 * result }
{
    if dates::day_of_ymd(year, month, first + 28).is_some() {
        5
    } else {
        4
    }
}

/// The place, from 0, of the nth of `count`, from the end where `nth` is negative, if there is such
/// a one.
fn place_of(nth: i8, count: u8) -> Option<u8>
    ensures some { IsSome result ↔ IsInRange 1 count (unsigned_abs nth) }
    ensures within { IfSome result (λ place. place < count) }
    ensures value { IfSome result (λ place.
        (int_eq nth (pos (place + 1)) || int_eq nth (neg_ℤ (pos (count - place)))) ≡ true) }
{
    let size = nth.unsigned_abs();
    if size == 0 || count < size {
        None
    } else if nth < 0 {
        Some(count - size)
    } else {
        Some(size - 1)
    }
}

/// The midnight of the nth such weekday of a month, counted from the month's end where `nth` is
/// negative, as the ordinals of BYDAY are (RFC 5545, 3.3.10). None exactly where the month has no
/// such day in the working range or `nth` is 0.
pub fn nth_weekday(year: i32, month: u8, nth: i8, day: Weekday) -> Option<Moment>
    ensures some { IsSome result
        ↔ ((t : ℤ) × IsNthMidnight year month nth day t × IsWorkingMoment t) }
    ensures value { IfSome result (λ t. IsNthMidnight year month nth day t.0) }
{
    let first = first_of_weekday(year, month, day)?;
    let count = count_from(year, month, first);
    let place = place_of(nth, count)?;
    moment(year, month, first + 7 * place, 0, 0, 0)
}
