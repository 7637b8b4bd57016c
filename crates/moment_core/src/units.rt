ghost use Rattle.std.specs.Prelude.{◌≡◌, ◌≤◌};
ghost use Rattle.moment_core.specs.Units.{HasWeekday, units_of};

use crate::line::G;
use crate::week::Weekday;

/// The units of time that intervals and ranks count (INTERVAL and BYSETPOS of RFC 5545, 3.3.10).
///
/// Weeks and week-years begin on the weekday; for Monday they are those of ISO 8601.
#[derive(Clone, Copy, Debug, PartialEq, Eq)]
pub enum Unit {
    Year,
    WeekYear(Weekday),
    Month,
    Week(Weekday),
    Day,
    Hour,
    Minute,
    Second,
}

impl Unit {
    /// How many such units 400 years have, after which the Gregorian calendar repeats.
    pub fn in_cycle(&self) -> u64
        ensures value { result ≡ units_of self.now }
        ensures some { 1 ≤ result }
    {
        match self {
            Unit::Year => 400,
            Unit::WeekYear(_) => 400,
            Unit::Month => 4800,
            Unit::Week(_) => 20_871,
            Unit::Day => 146_097,
            Unit::Hour => 3_506_328,
            Unit::Minute => 210_379_680,
            Unit::Second => G,
        }
    }
    /// The weekday on which the unit's weeks begin is one of seven. It does nothing.
    pub fn check_weekday(&self)
        ensures { HasWeekday self.now }
    {
        match self {
            Unit::WeekYear(first) | Unit::Week(first) => {
                let _number = first.number();
            }
            _ => {}
        }
    }
}
