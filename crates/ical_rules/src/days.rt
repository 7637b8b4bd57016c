ghost use Rattle.std.specs.Prelude.{◌≡◌, ◌<◌, ◌||◌, ◌==◌, ℕ, not, pos, Ok, [], ◌∷◌, All};
ghost use Rattle.ical_rules.specs.Starts.{IsStartOf};
ghost use Rattle.rule_core.specs.IcalChecks.{check_ical, is_monthly};
ghost use Rattle.rule_core.specs.IcalMembers.{filled};
ghost use Rattle.rule_core.specs.Values.{is_given};
ghost use Rattle.sieve_core.specs.Bits.{has_bit};
ghost use Rattle.sieve_tables.specs.Lowered.{IsDayTableOf, IsDayTestOf, IsEntry, IsTableOf, lists};

use crate::values::{or_taken, takes_date, takes_month_day, takes_weekday};
use civil_core::CivilParts;
use rule_core::{DayItem, IcalRule, rule_laws};
use sieve_core::DayTest;
use sieve_tables::{fill, plain_mask, weekday_tables};

/// The rule's test of days.
pub(crate) fn day_test(rule: &IcalRule, start: &CivilParts) -> DayTest
    requires checked { check_ical rule.now ≡ Ok tt }
    requires start { IsStartOf rule.now start.now }
    ensures { IsDayTestOf rule.now result }
{
    let _first = rule.week_start.number();
    let (week_days, nth) = weekdays(rule, start);
    DayTest {
        months: months(rule, start),
        weeks: weeks(rule),
        first: rule.week_start,
        year_days: year_days(rule),
        month_days: month_days(rule, start),
        week_days,
        nth,
        nth_in_month: is_nth_in_month(rule),
    }
}

// The mask of months, zero where the rule tests none.
fn months(rule: &IcalRule, start: &CivilParts) -> u16
    requires checked { check_ical rule.now ≡ Ok tt }
    requires start { IsStartOf rule.now start.now }
    ensures { (m : ℕ) → 0 < m → m < 13 →
        ((result == 0) || has_bit (result ∷ []) m)
        ≡ (not (is_given (filled rule.now).by_month)
        || lists (filled rule.now).by_month (pos m)) }
{
    rule_laws();
    let own = [start.month as i64];
    plain_mask(or_taken(takes_date(rule), &own, rule.by_month.items()), 13) as u16
}

// The table of weeks.
fn weeks(rule: &IcalRule) -> [u64; 2]
    requires { check_ical rule.now ≡ Ok tt }
    ensures { IsTableOf result 64 rule.now.by_week }
{
    rule_laws();
    let mut table = [0; 2];
    fill(&mut table, rule.by_week.items());
    table
}

// The table of days of the year.
fn year_days(rule: &IcalRule) -> [u64; 12]
    requires { check_ical rule.now ≡ Ok tt }
    ensures { IsTableOf result 384 rule.now.by_year_day }
{
    rule_laws();
    let mut table = [0; 12];
    fill(&mut table, rule.by_year_day.items());
    table
}

// The table of days of the month.
fn month_days(rule: &IcalRule, start: &CivilParts) -> u64
    requires checked { check_ical rule.now ≡ Ok tt }
    requires start { IsStartOf rule.now start.now }
    ensures { IsTableOf (result ∷ []) 32 (filled rule.now).by_month_day }
{
    rule_laws();
    let own = [start.day as i64];
    signed_word(or_taken(takes_month_day(rule), &own, rule.by_month_day.items()))
}

// The table of one word.
fn signed_word(values: &[i64]) -> u64
    requires { All (IsEntry 32) values.now }
    ensures { IsTableOf (result ∷ []) 32 values.now }
{
    let mut table = [0; 1];
    fill(&mut table, values);
    table[0]
}

// The tables of weekdays and of their ordinals.
fn weekdays(rule: &IcalRule, start: &CivilParts) -> (u8, [[u64; 2]; 7])
    requires checked { check_ical rule.now ≡ Ok tt }
    requires start { IsStartOf rule.now start.now }
    ensures { IsDayTableOf result.0 result.1 (filled rule.now).by_day }
{
    rule_laws();
    let own = [DayItem {
        nth: 0,
        day: start.weekday,
    }];
    weekday_tables(or_taken(takes_weekday(rule), &own, rule.by_day.items()))
}

// Whether ordinals count the weekdays of a month, or else those of a year.
fn is_nth_in_month(rule: &IcalRule) -> bool
    ensures { result ≡ (is_monthly rule.now.freq || is_given (filled rule.now).by_month) }
{
    rule.freq.is_monthly() | rule.by_month.is_given() | takes_date(rule)
}

/// The table of the ranks that BYSETPOS lists.
pub(crate) fn ranks(rule: &IcalRule) -> [u64; 12]
    requires { check_ical rule.now ≡ Ok tt }
    ensures { IsTableOf result 384 rule.now.by_set_pos }
{
    rule_laws();
    let mut table = [0; 12];
    fill(&mut table, rule.by_set_pos.items());
    table
}
