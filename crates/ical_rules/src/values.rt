ghost use Rattle.std.specs.Prelude.{◌≡◌, ◌&&◌, not, if◌then◌else◌};
ghost use Rattle.rule_core.specs.IcalMembers.{lacks_days, takes_date, takes_month_day, takes_weekday};
ghost use Rattle.rule_core.specs.Values.{is_given};

use rule_core::IcalRule;

/// The listed values, or DTSTART's own where none is listed and the rule takes it from there.
pub(crate) fn or_taken<'a, T>(is_taken: bool, own: &'a [T], values: &'a [T]) -> &'a [T]
    ensures { result.now
        ≡ (if is_taken && not (is_given values.now) then own.now else values.now) }
{
    if is_taken && values.is_empty() {
        own
    } else {
        values
    }
}

// Whether no part tells the day of the year, of the month or of the week.
fn lacks_days(rule: &IcalRule) -> bool
    ensures { result ≡ lacks_days rule.now }
{
    !(rule.by_day.is_given() || rule.by_month_day.is_given() || rule.by_year_day.is_given())
}

/// Whether the rule takes DTSTART's weekday, where none is listed.
pub(crate) fn takes_weekday(rule: &IcalRule) -> bool
    ensures { result ≡ takes_weekday rule.now }
{
    rule.freq.is_weekly() || (rule.freq.is_yearly() && lacks_days(rule) && rule.by_week.is_given())
}

/// Whether the rule takes DTSTART's month, where none is listed.
pub(crate) fn takes_date(rule: &IcalRule) -> bool
    ensures { result ≡ takes_date rule.now }
{
    rule.freq.is_yearly() && lacks_days(rule) && !rule.by_week.is_given()
}

/// Whether the rule takes DTSTART's day of the month, where none is listed.
pub(crate) fn takes_month_day(rule: &IcalRule) -> bool
    ensures { result ≡ takes_month_day rule.now }
{
    (rule.freq.is_monthly() && !rule.by_day.is_given()) || takes_date(rule)
}
