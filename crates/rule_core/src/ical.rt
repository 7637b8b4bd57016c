ghost use Rattle.std.specs.Prelude.{◌≡◌};
ghost use Rattle.rule_core.specs.IcalChecks.{check_ical, first_bad_part, has_ordinal, has_ordinals, is_bad_item, is_bad_part, is_by_given, is_daily, is_monthly, is_outside, is_outside_signed, is_until, is_weekly, mixes_of};
ghost use Rattle.std.specs.List.{list_any};
ghost use Rattle.rule_core.specs.FieldChecks.{is_yearly};
ghost use Rattle.rule_core.specs.Values.{is_given, is_within, is_signed};

use crate::faults::first_fault;
use crate::field::{is_signed, is_within};
use crate::lists::{DayItem, DayItems, Signed};
use crate::part::{Freq, Part, RuleFault};
use moment_core::{Moment, Stamp, Weekday};

/// A recurrence rule of RFC 5545 (3.3.10) with its first moment, DTSTART.
///
/// Each BY part that is given is a test of the moment's own fields, whatever the frequency; what
/// isn't given is taken from the first moment where a rule of the frequency needs it. BYSETPOS
/// ranks the moments of one unit that meet these tests. The first moment is a member only where it
/// meets the rule. A list without values isn't given.
#[derive(Debug, Drop)]
pub struct IcalRule {
    pub freq: Freq,
    pub interval: i64,
    pub start: Stamp,
    /// The last moment that may be a member, on the clock of `start`.
    pub until: Option<Moment>,
    /// Whether UNTIL was written with a `Z`.
    pub until_z: bool,
    /// How many members there are.
    pub count: Option<i64>,
    pub by_month: Signed,
    pub by_week: Signed,
    pub by_year_day: Signed,
    pub by_month_day: Signed,
    pub by_day: DayItems,
    pub by_hour: Signed,
    pub by_minute: Signed,
    pub by_second: Signed,
    pub by_set_pos: Signed,
    /// WKST, the weekday on which weeks begin.
    pub week_start: Weekday,
}

// The parts that have ranges, in the order of the written form.
const RANGED: [Part; 11] = [
    Part::Until,
    Part::Count,
    Part::ByMonth,
    Part::ByWeekNo,
    Part::ByYearDay,
    Part::ByMonthDay,
    Part::ByDay,
    Part::ByHour,
    Part::ByMinute,
    Part::BySecond,
    Part::BySetPos,
];

// Some value isn't from the lowest to the highest one.
fn is_outside(low: i64, high: i64, values: &[i64]) -> bool
    ensures { result ≡ is_outside low high values.now }
{
    values.iter().any(|v| !is_within(low, high, *v))
}

// Some value isn't 1 to n or -1 to -n.
fn is_outside_signed(n: u32, values: &[i64]) -> bool
    ensures { result ≡ is_outside_signed n values.now }
{
    values.iter().any(|v| !is_signed(n, *v))
}

// A moment of the years 0000 to 9999.
#[tactic(auto, unfolding(crate::specs::IcalChecks::is_until))]
fn is_until(m: &Moment) -> bool
    ensures { result ≡ is_until m.now }
{
    is_within(-62_167_219_200, 253_402_300_799, m.0)
}

impl DayItem {
    /// Whether it is the nth such day, not the weekday by itself.
    pub fn has_ordinal(&self) -> bool
        ensures { result ≡ has_ordinal self.now }
    {
        self.nth != 0
    }

    fn is_bad(&self) -> bool
        ensures { result ≡ is_bad_item self.now }
    {
        self.has_ordinal() && !is_signed(53, self.nth)
    }
}

impl Freq {
    /// Whether it is YEARLY.
    pub fn is_yearly(self) -> bool
        ensures { result ≡ is_yearly self }
    {
        matches!(self, Freq::Yearly)
    }

    /// Whether it is MONTHLY.
    pub fn is_monthly(self) -> bool
        ensures { result ≡ is_monthly self }
    {
        matches!(self, Freq::Monthly)
    }

    /// Whether it is WEEKLY.
    pub fn is_weekly(self) -> bool
        ensures { result ≡ is_weekly self }
    {
        matches!(self, Freq::Weekly)
    }

    fn is_daily(self) -> bool
        ensures { result ≡ is_daily self }
    {
        matches!(self, Freq::Daily)
    }
}

impl IcalRule {
    fn has_ordinals(&self) -> bool
        ensures { result ≡ has_ordinals self.now }
    {
        self.by_day.items().iter().any(|item| item.has_ordinal())
    }

    fn has_bad_items(&self) -> bool
        ensures { result ≡ list_any is_bad_item self.now.by_day }
    {
        self.by_day.items().iter().any(|item| item.is_bad())
    }

    // Whether some BY part beside BYSETPOS is given.
    fn is_by_given(&self) -> bool
        ensures { result ≡ is_by_given self.now }
    {
        self.by_month.is_given()
            || self.by_week.is_given()
            || self.by_year_day.is_given()
            || self.by_month_day.is_given()
            || self.by_day.is_given()
            || self.by_hour.is_given()
            || self.by_minute.is_given()
            || self.by_second.is_given()
    }

    // The parts that don't go together, in the order in which they are told.
    fn mixes(&self) -> [(bool, RuleFault); 8]
        ensures { result ≡ mixes_of self.now }
    {
        let yearly = self.freq.is_yearly();
        let monthly = self.freq.is_monthly();
        let weekly = self.freq.is_weekly();
        let daily = self.freq.is_daily();
        let by_week = self.by_week.is_given();
        let by_year_day = self.by_year_day.is_given();
        let by_month_day = self.by_month_day.is_given();
        let by_set_pos = self.by_set_pos.is_given();
        let ordinals = self.has_ordinals();
        [
            (
                self.until.is_some() & self.count.is_some(),
                RuleFault::BadMix(Part::Until, Part::Count),
            ),
            (
                by_week & !yearly,
                RuleFault::BadMix(Part::ByWeekNo, Part::Freq),
            ),
            (
                by_year_day & (daily | weekly | monthly),
                RuleFault::BadMix(Part::ByYearDay, Part::Freq),
            ),
            (
                by_month_day & weekly,
                RuleFault::BadMix(Part::ByMonthDay, Part::Freq),
            ),
            (
                ordinals & !(monthly | yearly),
                RuleFault::BadMix(Part::ByDay, Part::Freq),
            ),
            (
                ordinals & by_week,
                RuleFault::BadMix(Part::ByDay, Part::ByWeekNo),
            ),
            (
                by_set_pos & !self.is_by_given(),
                RuleFault::BadMix(Part::BySetPos, Part::Freq),
            ),
            (
                self.until_z & !self.start.absolute,
                RuleFault::BadMix(Part::Until, Part::Dtstart),
            ),
        ]
    }

    #[tactic(auto, unfolding(crate::specs::IcalChecks::is_bad_part))]
    fn is_bad_part(&self, part: Part) -> bool
        ensures { result ≡ is_bad_part self.now part }
    {
        match part {
            Part::Until => self.until.as_slice().iter().any(|m| !is_until(m)),
            Part::Count => is_outside(1, 1_000_000_000, self.count.as_slice()),
            Part::ByMonth => is_outside(1, 12, self.by_month.items()),
            Part::ByWeekNo => is_outside_signed(53, self.by_week.items()),
            Part::ByYearDay => is_outside_signed(366, self.by_year_day.items()),
            Part::ByMonthDay => is_outside_signed(31, self.by_month_day.items()),
            Part::ByDay => self.has_bad_items(),
            Part::ByHour => is_outside(0, 23, self.by_hour.items()),
            Part::ByMinute => is_outside(0, 59, self.by_minute.items()),
            Part::BySecond => is_outside(0, 60, self.by_second.items()),
            Part::BySetPos => is_outside_signed(366, self.by_set_pos.items()),
            _ => false,
        }
    }

    // The first part with a value out of its range.
    #[tactic(auto, unfolding(crate::specs::IcalChecks::first_bad_part))]
    fn first_bad_part(&self) -> Option<Part>
        ensures { result ≡ first_bad_part self.now }
    {
        RANGED.iter().copied().find(|part| self.is_bad_part(*part))
    }

    /// The first fault of the rule, in this order: `BadMix` of two parts that don't go together
    /// (UNTIL and COUNT; BYWEEKNO, and BYYEARDAY, BYMONTHDAY or an ordinal in BYDAY, with a
    /// frequency that has none of them; an ordinal and BYWEEKNO; BYSETPOS without another BY part;
    /// UNTIL with a `Z` and a floating DTSTART); `BadValue` of the first part with a value out of
    /// its range, UNTIL being of the years 0000 to 9999; `BadInterval` where the interval isn't 1
    /// to 1,000,000,000. The source is RFC 5545, 3.3.10.
    pub fn check(&self) -> Result<(), RuleFault>
        ensures { result ≡ check_ical self.now }
    {
        if let Some(fault) = first_fault(&self.mixes()) {
            return Err(fault);
        }
        if let Some(part) = self.first_bad_part() {
            return Err(RuleFault::BadValue(part));
        }
        if !is_within(1, 1_000_000_000, self.interval) {
            return Err(RuleFault::BadInterval);
        }
        Ok(())
    }
}
