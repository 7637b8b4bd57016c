ghost use Rattle.std.specs.Prelude.{◌≡◌, Ok};
ghost use Rattle.ical_rules.specs.Starts.{IsStartOf};
ghost use Rattle.rule_core.specs.IcalChecks.{check_ical};
ghost use Rattle.rule_core.specs.IcalMembers.{filled};
ghost use Rattle.sieve_tables.specs.Lowered.{IsMaskOf};

use crate::values::or_taken;
use civil_core::CivilParts;
use rule_core::{IcalRule, Part, rule_laws};
use sieve_tables::listed_mask;

/// The hours that the rule lets through.
pub(crate) fn hours(rule: &IcalRule, start: &CivilParts) -> u32
    requires checked { check_ical rule.now ≡ Ok tt }
    requires start { IsStartOf rule.now start.now }
    ensures { IsMaskOf result 24 (filled rule.now).by_hour }
{
    rule_laws();
    let own = [start.hour as i64];
    let is_taken = rule.freq.may_give(Part::Hours);
    listed_mask(or_taken(is_taken, &own, rule.by_hour.items()), 24) as u32
}

/// The minutes that the rule lets through.
pub(crate) fn minutes(rule: &IcalRule, start: &CivilParts) -> u64
    requires checked { check_ical rule.now ≡ Ok tt }
    requires start { IsStartOf rule.now start.now }
    ensures { IsMaskOf result 60 (filled rule.now).by_minute }
{
    rule_laws();
    let own = [start.minute as i64];
    let is_taken = rule.freq.may_give(Part::Minutes);
    listed_mask(or_taken(is_taken, &own, rule.by_minute.items()), 60)
}

/// The seconds that the rule lets through. 60 may be listed and is never met.
pub(crate) fn seconds(rule: &IcalRule, start: &CivilParts) -> u64
    requires checked { check_ical rule.now ≡ Ok tt }
    requires start { IsStartOf rule.now start.now }
    ensures { IsMaskOf result 60 (filled rule.now).by_second }
{
    rule_laws();
    let own = [start.second as i64];
    let is_taken = rule.freq.may_give(Part::Seconds);
    listed_mask(or_taken(is_taken, &own, rule.by_second.items()), 61)
}
