ghost use Rattle.std.specs.Prelude.{◌≡◌, ◌≤◌, unsigned_abs, Ok};
ghost use Rattle.field_rules.specs.Leaves.{IsWholeSieve};
ghost use Rattle.field_rules.specs.Lowered.{IsSieveOfRule, meaning_of_leaf};
ghost use Rattle.field_rules.specs.Rules.{meaning_of_field};
ghost use Rattle.moment_core.specs.Line.{IsCalendarMoment};
ghost use Rattle.moment_core.specs.Units.{unit_of};
ghost use Rattle.rule_core.specs.FieldChecks.{check_of};
ghost use Rattle.rule_core.specs.FieldMembers.{field_unit, first_weekday, start_of, yearly_unit};
ghost use Rattle.rule_core.specs.Values.{is_given};

use crate::days::{day_test, first_weekday};
use crate::leaf::FieldLeaf;
use crate::times::{hours, minutes, seconds};
use moment_core::{HIGH, LOW, Moment, REACH, Unit};
use rule_core::{FieldRule, Freq};
use sieve_core::{RankSet, Sieve, unit_number};
use stored_pair::Guarded;

/// The rule made ready to be searched, over the whole working range.
///
/// The rule is one that `check` accepts, with a start in the calendar range. Its members, its
/// candidates and its frame are those of the rule. It takes no memory.
pub fn lower_field(rule: &FieldRule) -> Guarded<FieldLeaf>
    requires checked { check_of rule.now ≡ Ok tt }
    requires start { IsCalendarMoment (start_of rule.now.start) }
    ensures { meaning_of_leaf result ≡ meaning_of_field rule.now }
{
    guarded(sieve_of(rule))
}

// A leaf that is guarded.
fn guarded(sieve: Sieve) -> Guarded<FieldLeaf>
    requires { IsWholeSieve sieve }
    ensures { result.inner.sieve ≡ sieve }
{
    let _unit = sieve.unit;
    Guarded::new(FieldLeaf::new(sieve))
}

// The sieve of a rule.
fn sieve_of(rule: &FieldRule) -> Sieve
    requires checked { check_of rule.now ≡ Ok tt }
    requires start { IsCalendarMoment (start_of rule.now.start) }
    ensures whole { IsWholeSieve result }
    ensures rule { IsSieveOfRule rule.now result }
{
    Sieve {
        unit: unit_of(rule),
        interval: interval_of(rule),
        phase: phase_of(rule),
        days: day_test(rule),
        hours: hours(rule),
        minutes: minutes(rule),
        seconds: seconds(rule),
        rank: RankSet([0; 12]),
        first: Moment(LOW - REACH),
        last: Moment(HIGH + REACH),
    }
}

// The unit that the rule repeats.
fn unit_of(rule: &FieldRule) -> Unit
    requires { check_of rule.now ≡ Ok tt }
    ensures { result ≡ field_unit rule.now }
{
    match rule.freq {
        Freq::Yearly => yearly_unit(rule),
        Freq::Monthly => Unit::Month,
        Freq::Weekly => Unit::Week(first_weekday(rule)),
        Freq::Daily => Unit::Day,
        Freq::Hourly => Unit::Hour,
        Freq::Minutely => Unit::Minute,
        Freq::Secondly => Unit::Second,
    }
}

// The year, or the week-year where weeks are given.
fn yearly_unit(rule: &FieldRule) -> Unit
    requires { check_of rule.now ≡ Ok tt }
    ensures { result ≡ yearly_unit (first_weekday rule.now.week_start) (is_given rule.now.weeks) }
{
    if rule.weeks.is_given() {
        Unit::WeekYear(first_weekday(rule))
    } else {
        Unit::Year
    }
}

// Every so many units hold members.
fn interval_of(rule: &FieldRule) -> u32
    requires { check_of rule.now ≡ Ok tt }
    ensures value { result ≡ unsigned_abs rule.now.interval }
    ensures some { 1 ≤ result }
{
    rule.interval as u32
}

// The number of the unit in which the rule starts.
fn phase_of(rule: &FieldRule) -> i64
    requires checked { check_of rule.now ≡ Ok tt }
    requires start { IsCalendarMoment (start_of rule.now.start) }
    ensures number { result ≡ unit_of (field_unit rule.now) (start_of rule.now.start) }
    ensures within { IsCalendarMoment result }
{
    unit_number(unit_of(rule), start_of(rule))
}

// The moment from which units are counted: 1970-01-01T00:00:00 where none is given.
fn start_of(rule: &FieldRule) -> Moment
    ensures { result.0 ≡ start_of rule.now.start }
{
    match rule.start {
        Some(stamp) => stamp.moment,
        None => Moment(0),
    }
}
