ghost use Rattle.std.specs.Prelude.{◌≡◌, true, ◌+◌, ℕ, ℤ};
ghost use Rattle.std.specs.Int.{IsInRange};
ghost use Rattle.std.specs.List.{list_all};
ghost use Rattle.sieve_core.specs.Bits.{is_zero};
ghost use Rattle.moment_core.specs.Line.{IsWorkingMoment};
ghost use Rattle.moment_core.specs.TimeOfDay.{day_of};
ghost use Rattle.sieve_core.specs.Dates.{AreParts};
ghost use Rattle.sieve_core.specs.Days.{is_nth, is_nth_weekday, meets_days, meets_month_days, meets_months, meets_weekdays, meets_weeks, meets_year_days};

use crate::bits::{has_bit, is_in_signed, is_zero, meets_signed};
use crate::tables::DayTest;
use civil_core::{CivilParts, fields};
use moment_core::{Moment, Weekday};

// The parts of the moment's day.
fn parts_at(t: Moment, first: Weekday) -> CivilParts
    requires { IsWorkingMoment t.0 }
    ensures { AreParts first (day_of t.0) result }
{
    fields(t, first)
}

// Whether `v` of `n` days is the nth of its weekday, from the front or from the end, for an n of
// the signed table.
pub(crate) fn is_nth(words: &[u64; 2], n: usize, v: usize) -> bool
    requires { IsInRange 1 n v }
    ensures { result ≡ is_nth words.now n v }
{
    is_in_signed(words, (v - 1) / 7 + 1, (n - v) / 7 + 1)
}

// Whether no bit of any table is set.
pub(crate) fn are_zero(tables: &[[u64; 2]; 7]) -> bool
    ensures { result ≡ list_all is_zero tables.now }
{
    tables.iter().all(|words| is_zero(words))
}

impl DayTest {
    // Whether the month is met.
    #[tactic(auto, unfolding(crate::specs::Days::meets_months))]
    fn meets_months(&self, parts: &CivilParts) -> bool
        ensures { (first : ℕ) (day : ℤ) → AreParts first day parts.now →
            result ≡ meets_months self.now.months day }
    {
        self.months == 0 || has_bit(&[self.months as u64], parts.month as usize)
    }

    // Whether the weekday by itself is met, or as the nth of its month or year.
    #[tactic(auto, unfolding(crate::specs::Days::meets_weekdays, crate::specs::Days::is_nth_weekday))]
    fn meets_weekdays(&self, parts: &CivilParts) -> bool
        requires month { IsInRange 1 parts.now.month_len parts.now.day }
        requires year { IsInRange 1 parts.now.year_len parts.now.yearday }
        ensures { (first : ℕ) (day : ℤ) → AreParts first day parts.now →
            result ≡ meets_weekdays self.now.week_days self.now.nth self.now.nth_in_month day }
    {
        let weekday = parts.weekday.number() as usize;
        if self.week_days == 0 && are_zero(&self.nth) {
            return true;
        }
        if has_bit(&[self.week_days as u64], weekday) {
            return true;
        }
        let words = &self.nth[weekday - 1];
        if self.nth_in_month {
            is_nth(words, parts.month_len as usize, parts.day as usize)
        } else {
            is_nth(words, parts.year_len as usize, parts.yearday as usize)
        }
    }

    // Whether the day with these parts is met.
    #[tactic(auto, unfolding(crate::specs::Days::meets_days, crate::specs::Days::meets_weeks, crate::specs::Days::meets_year_days, crate::specs::Days::meets_month_days))]
    pub(crate) fn meets(&self, parts: &CivilParts) -> bool
        requires month { IsInRange 1 parts.now.month_len parts.now.day }
        requires year { IsInRange 1 parts.now.year_len parts.now.yearday }
        requires weeks { IsInRange 1 parts.now.weeks parts.now.week }
        ensures { (day : ℤ) → AreParts self.now.first day parts.now →
            result ≡ meets_days self.now day }
    {
        self.meets_months(parts)
            && meets_signed(&self.weeks, parts.weeks as usize, parts.week as usize)
            && meets_signed(
                &self.year_days,
                parts.year_len as usize,
                parts.yearday as usize,
            )
            && meets_signed(
                &[self.month_days],
                parts.month_len as usize,
                parts.day as usize,
            )
            && self.meets_weekdays(parts)
    }

    /// Whether every day is met because no table is set.
    #[tactic(auto, unfolding(crate::specs::Days::meets_days, crate::specs::Days::meets_months, crate::specs::Days::meets_weeks, crate::specs::Days::meets_year_days, crate::specs::Days::meets_month_days, crate::specs::Days::meets_weekdays, crate::specs::Bits::meets_signed))]
    pub(crate) fn is_free(&self) -> bool
        ensures { result ≡ true → (day : ℤ) → meets_days self.now day ≡ true }
    {
        self.months == 0
            && self.month_days == 0
            && self.week_days == 0
            && is_zero(&self.weeks)
            && is_zero(&self.year_days)
            && are_zero(&self.nth)
    }

    /// Whether the moment's day is met.
    pub(crate) fn meets_day(&self, t: Moment) -> bool
        requires { IsWorkingMoment t.0 }
        ensures { result ≡ meets_days self.now (day_of t.0) }
    {
        if self.is_free() {
            return true;
        }
        let parts = parts_at(t, self.first);
        self.meets(&parts)
    }
}
