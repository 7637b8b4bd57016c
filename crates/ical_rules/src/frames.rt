ghost use Rattle.std.specs.Prelude.{◌≡◌, Some, None, Ok};
ghost use Rattle.ical_rules.specs.Rules.{IsSettled, frame_of_ical, framed_as, framed_from_start, framed_to, start_of, with_count};
ghost use Rattle.moment_core.specs.Line.{IsCalendarMoment};
ghost use Rattle.rule_core.specs.IcalChecks.{check_ical};
ghost use Rattle.ical_rules.specs.Starts.{IsLastMoment};

use crate::outcome::Settled;
use crate::units::{interval_of, unit_of};
use frame_core::{Frame, rule_period};
use moment_core::{Moment, Pos};
use rule_core::{IcalRule, rule_laws};

/// The frame of the rule with this COUNT, which is settled.
pub(crate) fn frame_of(rule: &IcalRule, count: Option<i64>, settled: Settled) -> Option<Frame>
    requires checked { check_ical rule.now ≡ Ok tt }
    requires start { IsCalendarMoment (start_of rule.now) }
    requires settled { IsSettled (with_count count rule.now) settled }
    ensures { result ≡ frame_of_ical (with_count count rule.now) }
{
    rule_laws();
    match rule.until {
        Some(until) => Some(frame_to(rule, until)),
        None => frame_by_count(rule, count, settled),
    }
}

// The frame of a rule without UNTIL.
fn frame_by_count(rule: &IcalRule, count: Option<i64>, settled: Settled) -> Option<Frame>
    requires checked { check_ical rule.now ≡ Ok tt }
    requires start { IsCalendarMoment (start_of rule.now) }
    requires settled { IsSettled (with_count count rule.now) settled }
    ensures { result ≡ framed_as (with_count count rule.now) None count }
{
    match count {
        None => frame_from_start(rule),
        Some(_) => match settled {
            Settled::Last(t) => Some(frame_to(rule, t)),
            Settled::Open => None,
        },
    }
}

// The frame of a rule that ends with the moment.
fn frame_to(rule: &IcalRule, last: Moment) -> Frame
    requires start { IsCalendarMoment (start_of rule.now) }
    requires last { IsLastMoment last.0 }
    ensures { Some result ≡ framed_to rule.now last.0 }
{
    Frame {
        lo: Pos(2 * rule.start.moment.0 - 1),
        hi: Pos(2 * last.0 + 1),
        period: 1,
    }
}

// The frame of a rule that goes on for ever.
fn frame_from_start(rule: &IcalRule) -> Option<Frame>
    requires checked { check_ical rule.now ≡ Ok tt }
    requires start { IsCalendarMoment (start_of rule.now) }
    ensures { result ≡ framed_from_start rule.now }
{
    let first = 2 * rule.start.moment.0;
    match rule_period(unit_of(rule).in_cycle(), interval_of(rule) as u64) {
        Some(period) => Some(Frame {
            lo: Pos(first - 1),
            hi: Pos(first),
            period,
        }),
        None => None,
    }
}
