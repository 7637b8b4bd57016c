ghost use Rattle.std.specs.Prelude.{◌≡◌, ◌↔◌, ◌<◌, IsTrue, ◌≤◌, ◌≤ℤ◌, ◌-ℤ◌, ◌+ℤ◌, ℤ};
ghost use Rattle.moment_core.specs.Calendar.{divides};
ghost use Rattle.moment_core.specs.declared.line.TheConstants.{LOW, HIGH, REACH};
ghost use Rattle.moment_core.specs.Line.{IsCalendarMoment, IsWorkingMoment};
ghost use Rattle.moment_core.specs.TimeOfDay.{day_of};
ghost use Rattle.moment_core.specs.Units.{HasWeekday};
ghost use Rattle.sieve_core.specs.Ranks.{block_end, is_of_days};
ghost use Rattle.moment_core.specs.Units.{unit_of};
ghost use Rattle.moment_core.specs.Calendar.{month_number, week_number};

use civil_core::fields;
use moment_core::{Moment, Unit, Weekday};

// The number of the moment's month.
#[tactic(auto, unfolding(moment_core::specs::Calendar::month_number))]
fn month_number(t: Moment) -> i64
    requires moment { IsWorkingMoment t.0 }
    ensures value { result ≡ month_number (day_of t.0) }
    ensures low { LOW ≤ℤ result }
    ensures high { result ≤ℤ HIGH }
{
    let parts = fields(t, Weekday::new(1).unwrap());
    parts.year as i64 * 12 + (parts.month as i64 - 1)
}

// The number of the week, where weeks begin on the weekday.
#[tactic(auto, unfolding(moment_core::specs::Calendar::week_number))]
fn week_number(t: Moment, first: Weekday) -> i64
    requires moment { IsWorkingMoment t.0 }
    ensures value { result ≡ week_number first (day_of t.0) }
    ensures low { LOW ≤ℤ result }
    ensures high { result ≤ℤ HIGH }
{
    (t.0.div_euclid(86_400) - (first.number() as i64 + 3) % 7).div_euclid(7)
}

/// The number of the unit that holds the moment. That of a moment of the calendar range fits a
/// sieve's phase.
#[tactic(auto, unfolding(moment_core::specs::Units::unit_of))]
pub fn number(unit: Unit, t: Moment) -> i64
    requires moment { IsWorkingMoment t.0 }
    ensures value { result ≡ unit_of unit t.0 }
    ensures low { (LOW -ℤ REACH) ≤ℤ result }
    ensures high { result ≤ℤ (HIGH +ℤ REACH) }
    ensures phase { IsCalendarMoment t.0 → IsCalendarMoment result }
{
    match unit {
        Unit::Year => fields(t, Weekday::new(1).unwrap()).year as i64,
        Unit::WeekYear(first) => fields(t, first).week_year as i64,
        Unit::Month => month_number(t),
        Unit::Week(first) => week_number(t, first),
        Unit::Day => t.0.div_euclid(86_400),
        Unit::Hour => t.0.div_euclid(3600),
        Unit::Minute => t.0.div_euclid(60),
        Unit::Second => t.0,
    }
}

// Whether n steps of so many lead from the phase to the number.
pub(crate) fn is_in_turn(interval: u32, phase: i64, number: i64) -> bool
    requires interval { 1 ≤ interval }
    requires phase_low { LOW ≤ℤ phase }
    requires phase_high { phase ≤ℤ HIGH }
    requires low { (LOW -ℤ REACH) ≤ℤ number }
    requires high { number ≤ℤ (HIGH +ℤ REACH) }
    ensures { result ≡ divides interval (number -ℤ phase) }
{
    (number - phase).rem_euclid(interval as i64) == 0
}

// Whether it is a unit of whole days, more than one.
pub(crate) fn is_of_days(unit: Unit) -> bool
    ensures { result ≡ is_of_days unit }
{
    match unit {
        Unit::Year => true,
        Unit::WeekYear(_) => true,
        Unit::Month => true,
        Unit::Week(_) => true,
        Unit::Day => false,
        Unit::Hour => false,
        Unit::Minute => false,
        Unit::Second => false,
    }
}

// Where in its day the unit of a second ends.
pub(crate) fn block_end(unit: Unit, n: usize) -> usize
    requires { n < 86_400 }
    ensures value { result ≡ block_end unit n }
    ensures low { n < result }
    ensures high { result ≤ 86_400 }
{
    match unit {
        Unit::Hour => n / 3600 * 3600 + 3600,
        Unit::Minute => n / 60 * 60 + 60,
        Unit::Second => n + 1,
        _ => 86_400,
    }
}

// Whether the unit that holds the moment has this number.
pub(crate) fn has_number(unit: Unit, t: Moment, expected: i64) -> bool
    requires { IsWorkingMoment t.0 }
    ensures { IsTrue result ↔ (unit_of unit t.0 ≡ expected) }
{
    number(unit, t) == expected
}

// The weekday on which the unit's weeks begin is one.
pub(crate) fn check_weekday(unit: Unit)
    ensures { HasWeekday unit }
{
    match unit {
        Unit::WeekYear(first) => {
            let _number = first.number();
        }
        Unit::Week(first) => {
            let _number = first.number();
        }
        _ => {}
    }
}
