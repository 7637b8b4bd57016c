ghost use Rattle.std.specs.Prelude.{◌≡◌, ◌≤ℤ◌, ℤ, pos, int_le, ◌&&◌, Some, Ok};
ghost use Rattle.ical_rules.specs.Leaves.{HasCounted, IsFramed, has_counted};
ghost use Rattle.ical_rules.specs.Lowered.{meaning_of_leaf};
ghost use Rattle.ical_rules.specs.Rules.{IsSettled, meaning_of_ical, start_of, with_count, without_count};
ghost use Rattle.ical_rules.specs.Starts.{IsStartOf, ends_by, last_in};
ghost use Rattle.moment_core.specs.Line.{IsCalendarMoment};
ghost use Rattle.rule_core.specs.IcalChecks.{check_ical};
ghost use Rattle.rule_core.specs.IcalMembers.{is_by};
ghost use Rattle.sieve_core.specs.Sieves.{IsSieve};
ghost use Rattle.sieve_tables.specs.Lowered.{IsSieveOf};

use crate::days::{day_test, ranks};
use crate::frames::frame_of;
use crate::leaf::IcalLeaf;
use crate::outcome::Settled;
use crate::times::{hours, minutes, seconds};
use crate::units::{interval_of, phase_of, unit_of};
use civil_core::{CivilParts, fields};
use frame_core::{Frame, period_laws};
use moment_core::{HIGH, Moment, REACH};
use rule_core::{IcalRule, rule_laws};
use sieve_core::{RankSet, Sieve};
use sieve_tables::lowering_laws;
use stored_pair::Guarded;

/// The rule made ready to be searched, from DTSTART up to UNTIL, the last member and the end of the
/// working range.
///
/// The rule is one that `check` accepts, with DTSTART in the calendar range. `settled` tells the
/// COUNT-th member, or that there is no COUNT, or that the working range ends before that member.
/// The members, the candidates and the frame are those of the rule (RFC 5545, 3.3.10). It takes no
/// memory.
pub fn lower_ical(rule: &IcalRule, settled: Settled) -> Guarded<IcalLeaf>
    requires checked { check_ical rule.now ≡ Ok tt }
    requires start { IsCalendarMoment (start_of rule.now) }
    requires settled { IsSettled rule.now settled }
    ensures { meaning_of_leaf result ≡ meaning_of_ical rule.now }
{
    rule_laws();
    lower(rule, rule.count, settled)
}

/// The same rule without its COUNT.
pub fn lower_uncounted(rule: &IcalRule) -> Guarded<IcalLeaf>
    requires checked { check_ical rule.now ≡ Ok tt }
    requires start { IsCalendarMoment (start_of rule.now) }
    ensures { meaning_of_leaf result ≡ meaning_of_ical (without_count rule.now) }
{
    lower(rule, None, Settled::Open)
}

// The rule with this COUNT, which is settled.
fn lower(rule: &IcalRule, count: Option<i64>, settled: Settled) -> Guarded<IcalLeaf>
    requires checked { check_ical rule.now ≡ Ok tt }
    requires start { IsCalendarMoment (start_of rule.now) }
    requires settled { IsSettled (with_count count rule.now) settled }
    requires count { (n : ℤ) → count ≡ Some n → pos 1 ≤ℤ n }
    ensures { meaning_of_leaf result ≡ meaning_of_ical (with_count count rule.now) }
{
    rule_laws();
    period_laws();
    lowering_laws();
    let sieve = sieve_of(rule, last_of(rule.until, settled));
    guarded(sieve, rule.until, count, frame_of(rule, count, settled))
}

// A leaf that is guarded.
fn guarded(
    sieve: Sieve,
    until: Option<Moment>,
    count: Option<i64>,
    frame: Option<Frame>,
) -> Guarded<IcalLeaf>
    requires counted { HasCounted sieve until count }
    requires framed { IsFramed (has_counted sieve until count) frame }
    ensures sieve { result.inner.sieve ≡ sieve }
    ensures until { result.inner.until ≡ until }
    ensures count { result.inner.count ≡ count }
    ensures frame { result.inner.frame ≡ frame }
{
    let _unit = sieve.unit;
    Guarded::new(IcalLeaf::new(sieve, until, count, frame))
}

// The earlier of two moments, of which the second may be none.
fn earlier(a: Moment, b: Option<Moment>) -> Moment
    ensures { (t : ℤ) → int_le t result.0 ≡ (int_le t a.0 && is_by b t) }
{
    match b {
        Some(m) => { if m.0 < a.0 { m } else { a } }
        None => a,
    }
}

// The last moment of the sieve: of UNTIL, the last member and the end of the working range the one
// that comes first.
pub(crate) fn last_of(until: Option<Moment>, settled: Settled) -> Moment
    ensures { (t : ℤ) → int_le t result.0 ≡ ends_by until (last_in settled) t }
{
    earlier(earlier(Moment(HIGH + REACH), until), settled.last())
}

// The values that DTSTART gives.
fn start_parts(rule: &IcalRule) -> CivilParts
    requires { IsCalendarMoment (start_of rule.now) }
    ensures { IsStartOf rule.now result }
{
    fields(rule.start.moment, rule.week_start)
}

// The sieve of a rule, up to the moment.
pub(crate) fn sieve_of(rule: &IcalRule, last: Moment) -> Sieve
    requires checked { check_ical rule.now ≡ Ok tt }
    requires start { IsCalendarMoment (start_of rule.now) }
    ensures sieve { IsSieve result }
    ensures rule { IsSieveOf rule.now result }
    ensures last { result.last ≡ last }
{
    let start = start_parts(rule);
    Sieve {
        unit: unit_of(rule),
        interval: interval_of(rule),
        phase: phase_of(rule),
        days: day_test(rule, &start),
        hours: hours(rule, &start),
        minutes: minutes(rule, &start),
        seconds: seconds(rule, &start),
        rank: RankSet(ranks(rule)),
        first: rule.start.moment,
        last,
    }
}
