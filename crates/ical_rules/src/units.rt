ghost use Rattle.std.specs.Prelude.{◌≡◌, ◌≤◌, unsigned_abs, Ok};
ghost use Rattle.moment_core.specs.Line.{IsCalendarMoment};
ghost use Rattle.moment_core.specs.Units.{unit_of};
ghost use Rattle.ical_rules.specs.Rules.{start_of};
ghost use Rattle.rule_core.specs.IcalChecks.{check_ical};
ghost use Rattle.rule_core.specs.FieldMembers.{yearly_unit};
ghost use Rattle.rule_core.specs.IcalMembers.{ical_unit};
ghost use Rattle.rule_core.specs.Values.{is_given};

use moment_core::Unit;
use rule_core::{Freq, IcalRule, rule_laws};
use sieve_core::unit_number;

/// The unit that the rule repeats.
pub(crate) fn unit_of(rule: &IcalRule) -> Unit
    ensures { result ≡ ical_unit rule.now }
{
    match rule.freq {
        Freq::Yearly => yearly_unit(rule),
        Freq::Monthly => Unit::Month,
        Freq::Weekly => Unit::Week(rule.week_start),
        Freq::Daily => Unit::Day,
        Freq::Hourly => Unit::Hour,
        Freq::Minutely => Unit::Minute,
        Freq::Secondly => Unit::Second,
    }
}

// The year, or the week-year where weeks are given.
fn yearly_unit(rule: &IcalRule) -> Unit
    ensures { result ≡ yearly_unit rule.now.week_start (is_given rule.now.by_week) }
{
    if rule.by_week.is_given() {
        Unit::WeekYear(rule.week_start)
    } else {
        Unit::Year
    }
}

/// Every so many units hold members.
pub(crate) fn interval_of(rule: &IcalRule) -> u32
    requires { check_ical rule.now ≡ Ok tt }
    ensures value { result ≡ unsigned_abs rule.now.interval }
    ensures some { 1 ≤ result }
{
    rule_laws();
    rule.interval as u32
}

/// The number of the unit of DTSTART.
pub(crate) fn phase_of(rule: &IcalRule) -> i64
    requires { IsCalendarMoment (start_of rule.now) }
    ensures number { result ≡ unit_of (ical_unit rule.now) (start_of rule.now) }
    ensures within { IsCalendarMoment result }
{
    unit_number(unit_of(rule), rule.start.moment)
}
