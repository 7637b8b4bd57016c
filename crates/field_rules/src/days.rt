ghost use Rattle.std.specs.Prelude.{◌≡◌, ◌||◌, ◌==◌, ℕ, ℤ, pos, Ok, [], ◌∷◌};
ghost use Rattle.std.specs.Int.{IsInRange};
ghost use Rattle.field_rules.specs.Tested.{month_days_by, months_by, week_days_by, weeks_by, year_days_by};
ghost use Rattle.rule_core.specs.FieldChecks.{check_of, counted};
ghost use Rattle.rule_core.specs.FieldMembers.{first_weekday, meets_day};
ghost use Rattle.rule_core.specs.IcalMembers.{meets_part};
ghost use Rattle.sieve_core.specs.Bits.{has_bit};
ghost use Rattle.sieve_core.specs.Days.{meets_days};
ghost use Rattle.sieve_tables.specs.Lowered.{IsTableOf};

use crate::values::{month_days_of, months_of, week_days_of, weeks_of, year_days_of};
use moment_core::{Weekday, calendar_laws};
use rule_core::{FieldRule, rule_laws};
use sieve_core::DayTest;
use sieve_tables::{fill, mask_of, table_laws};

/// The rule's test of days.
pub(crate) fn day_test(rule: &FieldRule) -> DayTest
    requires { check_of rule.now ≡ Ok tt }
    ensures { (day : ℤ) → meets_days result day ≡ meets_day (counted rule.now) rule.now day }
{
    calendar_laws();
    rule_laws();
    table_laws();
    DayTest {
        months: months(rule),
        weeks: weeks(rule),
        first: first_weekday(rule),
        year_days: year_days(rule),
        month_days: month_days(rule),
        week_days: week_days(rule),
        nth: [[0; 2]; 7],
        nth_in_month: true,
    }
}

/// The weekday on which weeks begin: Monday where none is given.
pub(crate) fn first_weekday(rule: &FieldRule) -> Weekday
    requires { check_of rule.now ≡ Ok tt }
    ensures { result ≡ first_weekday rule.now.week_start }
{
    rule_laws();
    match rule.week_start {
        Some(n) => Weekday::new(n as u8).unwrap(),
        None => Weekday::new(1).unwrap(),
    }
}

// The mask of months, zero where the rule tests none.
fn months(rule: &FieldRule) -> u16
    requires { check_of rule.now ≡ Ok tt }
    ensures { (m : ℕ) → IsInRange 1 12 m →
        ((result == 0) || has_bit (result ∷ []) m)
        ≡ meets_part (months_by (counted rule.now) rule.now) 13 m }
{
    rule_laws();
    mask_of(months_of(rule), 13) as u16
}

// The table of weeks.
fn weeks(rule: &FieldRule) -> [u64; 2]
    requires { check_of rule.now ≡ Ok tt }
    ensures { IsTableOf result 64 (weeks_by (counted rule.now) rule.now) }
{
    rule_laws();
    let mut table = [0; 2];
    fill(&mut table, weeks_of(rule));
    table
}

// The table of days of the year.
fn year_days(rule: &FieldRule) -> [u64; 12]
    requires { check_of rule.now ≡ Ok tt }
    ensures { IsTableOf result 384 (year_days_by (counted rule.now) rule.now) }
{
    rule_laws();
    let mut table = [0; 12];
    fill(&mut table, year_days_of(rule));
    table
}

// The table of days of the month.
fn month_days(rule: &FieldRule) -> u64
    requires { check_of rule.now ≡ Ok tt }
    ensures { IsTableOf (result ∷ []) 32 (month_days_by (counted rule.now) rule.now) }
{
    rule_laws();
    let mut table = [0; 1];
    fill(&mut table, month_days_of(rule));
    table[0]
}

// The mask of weekdays, zero where the rule tests none.
fn week_days(rule: &FieldRule) -> u8
    requires { check_of rule.now ≡ Ok tt }
    ensures { (w : ℕ) → IsInRange 1 7 w →
        ((result == 0) || has_bit (result ∷ []) w)
        ≡ meets_part
        (week_days_by (counted rule.now) rule.now
        (pos (first_weekday rule.now.week_start) ∷ []))
        8 w }
{
    rule_laws();
    let first = [first_weekday(rule).number() as i64];
    mask_of(week_days_of(rule, &first), 8) as u8
}
