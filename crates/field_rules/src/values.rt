ghost use Rattle.std.specs.Prelude.{◌≡◌};
ghost use Rattle.field_rules.specs.Tested.{month_days_by, months_by, or_first, week_days_by, weeks_by, year_days_by, yearly_months};
ghost use Rattle.rule_core.specs.FieldChecks.{counted};

use rule_core::{Counted, FieldRule, Part, Signed};

/// The values, or the first one where none is given.
pub(crate) fn or_first<'a>(values: &'a Signed, first: &'a [i64]) -> &'a [i64]
    ensures { result.now ≡ or_first values.now first.now }
{
    if values.is_given() {
        values.items()
    } else {
        first
    }
}

/// The months that the rule tests.
pub(crate) fn months_of(rule: &FieldRule) -> &[i64]
    ensures { result.now ≡ months_by (counted rule.now) rule.now }
{
    match rule.counted() {
        Counted::OfMonth => yearly_months(rule),
        _ => &[],
    }
}

// The months of a yearly rule.
fn yearly_months(rule: &FieldRule) -> &[i64]
    ensures { result.now ≡ yearly_months rule.now }
{
    if rule.freq.may_give(Part::Months) {
        or_first(&rule.months, &[1])
    } else {
        &[]
    }
}

/// The weeks that the rule tests.
pub(crate) fn weeks_of(rule: &FieldRule) -> &[i64]
    ensures { result.now ≡ weeks_by (counted rule.now) rule.now }
{
    match rule.counted() {
        Counted::OfWeek => rule.weeks.items(),
        _ => &[],
    }
}

/// The days of the year that the rule tests.
pub(crate) fn year_days_of(rule: &FieldRule) -> &[i64]
    ensures { result.now ≡ year_days_by (counted rule.now) rule.now }
{
    match rule.counted() {
        Counted::OfYear => or_first(&rule.days, &[1]),
        _ => &[],
    }
}

/// The days of the month that the rule tests.
pub(crate) fn month_days_of(rule: &FieldRule) -> &[i64]
    ensures { result.now ≡ month_days_by (counted rule.now) rule.now }
{
    match rule.counted() {
        Counted::OfMonth => or_first(&rule.days, &[1]),
        _ => &[],
    }
}

/// The weekdays that the rule tests, the week's first day being handed in.
pub(crate) fn week_days_of<'a>(rule: &'a FieldRule, first: &'a [i64]) -> &'a [i64]
    ensures { result.now ≡ week_days_by (counted rule.now) rule.now first.now }
{
    match rule.counted() {
        Counted::OfWeek => or_first(&rule.days, first),
        _ => &[],
    }
}
