ghost use Rattle.std.specs.Prelude.{◌≡◌};
ghost use Rattle.rule_core.specs.FieldChecks.{check_of, counted, first_bad, first_mixed, is_bad, is_in_range, is_mixed, may_give, most_days, values_of};
ghost use Rattle.rule_core.specs.Values.{is_given, is_within, is_signed};

use crate::lists::Signed;
use crate::part::{Freq, Part, RuleFault};
use moment_core::Stamp;

/// A rule by fields of a moment, such as months, days and hours, after Perl's
/// DateTime::Event::Recurrence.
///
/// A moment is a member where it meets every field and a whole number of intervals lies between its
/// unit, such as its month, and that of `start`. A value below 0 counts from the end: -1 is the
/// last day of the month. A field that the rule may give and doesn't has its first value; a list
/// without values isn't given.
#[derive(Debug, Drop)]
pub struct FieldRule {
    pub freq: Freq,
    pub months: Signed,
    pub weeks: Signed,
    pub days: Signed,
    pub hours: Signed,
    pub minutes: Signed,
    pub seconds: Signed,
    /// How many units lie between two that the rule takes, 1 for every one.
    pub interval: i64,
    /// A moment of a unit that the rule takes, 1970-01-01T00:00:00 without one. It bounds nothing.
    pub start: Option<Stamp>,
    /// The weekday on which weeks begin, from 1 for Monday to 7, and Monday without one.
    pub week_start: Option<i64>,
}

/// What the days of a rule count.
#[derive(Clone, Copy, Debug, PartialEq, Eq)]
pub enum Counted {
    /// Days of the year.
    OfYear,
    /// Days of the month.
    OfMonth,
    /// Weekdays, from Monday on.
    OfWeek,
    /// The rule has no days.
    Never,
}

// The fields that only some rules may give, as they are printed.
const KEYS: [Part; 7] = [
    Part::Months,
    Part::Weeks,
    Part::Days,
    Part::Hours,
    Part::Minutes,
    Part::Seconds,
    Part::WeekStart,
];

pub(crate) fn is_within(low: i64, high: i64, v: i64) -> bool
    ensures { result ≡ is_within low high v }
{
    low <= v && v <= high
}

pub(crate) fn is_signed(n: u32, v: i64) -> bool
    ensures { result ≡ is_signed n v }
{
    let n = n as i64;
    is_within(1, n, v) || is_within(-n, -1, v)
}

impl Freq {
    /// Whether a rule of this frequency may give the field.
    pub fn may_give(self, key: Part) -> bool
        ensures { result ≡ may_give self key }
    {
        match key {
            Part::Months | Part::Weeks => matches!(self, Freq::Yearly),
            Part::Days => matches!(self, Freq::Yearly | Freq::Monthly | Freq::Weekly),
            Part::Hours => !matches!(self, Freq::Hourly | Freq::Minutely | Freq::Secondly),
            Part::Minutes => !matches!(self, Freq::Minutely | Freq::Secondly),
            Part::Seconds => !matches!(self, Freq::Secondly),
            Part::WeekStart => matches!(self, Freq::Yearly | Freq::Weekly),
            _ => true,
        }
    }
}

impl Counted {
    fn most_days(self) -> u32
        ensures { result ≡ most_days self }
    {
        match self {
            Counted::OfYear => 366,
            Counted::OfMonth => 31,
            Counted::OfWeek => 7,
            Counted::Never => 0,
        }
    }

    // Whether the value is in the range of the field.
    fn has_value(self, key: Part, v: i64) -> bool
        ensures { result ≡ is_in_range self key v }
    {
        match key {
            Part::Months => is_signed(12, v),
            Part::Weeks => is_signed(53, v),
            Part::Days => is_signed(self.most_days(), v),
            Part::Hours => is_within(-24, 23, v),
            Part::Minutes | Part::Seconds => is_within(-60, 59, v),
            Part::WeekStart => is_within(1, 7, v),
            _ => true,
        }
    }
}

impl FieldRule {
    fn values(&self, key: Part) -> &[i64]
        ensures { result.now ≡ values_of self.now key }
    {
        match key {
            Part::Months => self.months.items(),
            Part::Weeks => self.weeks.items(),
            Part::Days => self.days.items(),
            Part::Hours => self.hours.items(),
            Part::Minutes => self.minutes.items(),
            Part::Seconds => self.seconds.items(),
            Part::WeekStart => self.week_start.as_slice(),
            _ => &[],
        }
    }

    /// What the days of the rule count: with weeks they are weekdays, with months days of the
    /// month.
    pub fn counted(&self) -> Counted
        ensures { result ≡ counted self.now }
    {
        match self.freq {
            Freq::Yearly => {
                if self.weeks.is_given() {
                    Counted::OfWeek
                } else if self.months.is_given() || !self.days.is_given() {
                    Counted::OfMonth
                } else {
                    Counted::OfYear
                }
            }
            Freq::Monthly => Counted::OfMonth,
            Freq::Weekly => Counted::OfWeek,
            _ => Counted::Never,
        }
    }

    fn is_mixed(&self, key: Part) -> bool
        ensures { result ≡ is_mixed self.now key }
    {
        !self.values(key).is_empty() && !self.freq.may_give(key)
    }

    fn is_bad(&self, key: Part) -> bool
        ensures { result ≡ is_bad self.now key }
    {
        let counted = self.counted();
        self.values(key).iter().any(|v| !counted.has_value(key, *v))
    }

    // The first field that the rule may not give.
    #[tactic(auto, unfolding(crate::specs::FieldChecks::first_mixed))]
    fn first_mixed(&self) -> Option<Part>
        ensures { result ≡ first_mixed self.now }
    {
        KEYS.iter().copied().find(|key| self.is_mixed(*key))
    }

    // The first field with a value out of its range.
    #[tactic(auto, unfolding(crate::specs::FieldChecks::first_bad))]
    fn first_bad(&self) -> Option<Part>
        ensures { result ≡ first_bad self.now }
    {
        KEYS.iter().copied().find(|key| self.is_bad(*key))
    }

    /// The first fault of the rule, in this order: `BadMix` of the frequency and the first field
    /// that such a rule may not give; `BadMix` of months and weeks where both are given; `BadValue`
    /// of the first field with a value out of its range; `BadInterval` where the interval isn't 1
    /// to 1,000,000,000. Fields come in the order months, weeks, days, hours, minutes, seconds,
    /// week_start.
    pub fn check(&self) -> Result<(), RuleFault>
        ensures { result ≡ check_of self.now }
    {
        if let Some(key) = self.first_mixed() {
            return Err(RuleFault::BadMix(self.freq.part(), key));
        }
        if self.months.is_given() && self.weeks.is_given() {
            return Err(RuleFault::BadMix(Part::Months, Part::Weeks));
        }
        if let Some(key) = self.first_bad() {
            return Err(RuleFault::BadValue(key));
        }
        if !is_within(1, 1_000_000_000, self.interval) {
            return Err(RuleFault::BadInterval);
        }
        Ok(())
    }
}
