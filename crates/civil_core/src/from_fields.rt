ghost use Rattle.std.specs.Prelude.{◌≡◌, ◌+◌, ◌*◌, ◌↔◌, IsSome, IfSome};
ghost use Rattle.std.specs.Int.{IsInRange};
ghost use Rattle.moment_core.specs.TimeOfDay.{IsCivil, seconds_of};
ghost use Rattle.moment_core.specs.Line.{IsWorkingMoment};

use crate::dates;

/// The seconds since midnight of a time of day, if the clock has it.
fn second_of_day(hour: u8, minute: u8, second: u8) -> Option<u32>
    ensures some { IsSome result
        ↔ (IsInRange 0 23 hour × IsInRange 0 59 minute × IsInRange 0 59 second) }
    ensures value { IfSome result (λ n. n ≡ hour * 3600 + minute * 60 + second) }
{
    if hour <= 23 && minute <= 59 && second <= 59 {
        Some(hour as u32 * 3600 + minute as u32 * 60 + second as u32)
    } else {
        None
    }
}

/// The moment of a date and a time of day. None exactly where the calendar has no such date, the
/// clock no such time, or the moment isn't in the working range.
pub fn moment(
    year: i32,
    month: u8,
    day: u8,
    hour: u8,
    minute: u8,
    second: u8,
) -> Option<moment_core::Moment>
    ensures some { IsSome result
        ↔ (IsCivil year month day hour minute second
        × IsWorkingMoment (seconds_of year month day hour minute second)) }
    ensures value { IfSome result (λ t. t.0 ≡ seconds_of year month day hour minute second) }
{
    let day_number = dates::day_of_ymd(year, month, day)?;
    let time = second_of_day(hour, minute, second)?;
    let t = moment_core::Moment(day_number * 86_400 + time as i64);
    if moment_core::in_work(t) {
        Some(t)
    } else {
        None
    }
}
