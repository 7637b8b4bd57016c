ghost use Rattle.std.specs.Prelude.{◌≡◌, ◌<◌, ◌≤◌, pos, unsigned_abs, ◌-ℤ◌, option_map, Ok, IfOk, IfErr};
ghost use Rattle.ical_rules.specs.Leaves.{has_counted};
ghost use Rattle.ical_rules.specs.Rules.{IsSettled, start_of};
ghost use Rattle.ical_rules.specs.Settling.{AreUncounted, IsBeyond, IsOutcome, IsSettling, OutcomesAreOne, OutcomesExist};
ghost use Rattle.moment_core.specs.Line.{IsCalendarMoment};
ghost use Rattle.rule_core.specs.IcalChecks.{check_ical};
ghost use Rattle.sieve_core.specs.Members.{is_candidate};

use crate::leaf::IcalLeaf;
use crate::lowering::{last_of, sieve_of};
use crate::outcome::{Settled, Unsettled};
use moment_core::{Moment, Step};
use rule_core::{IcalRule, rule_laws};
use sieve_tables::lowering_laws;
use stored_pair::recurrence_laws;

/// Where a rule's COUNT ends it, sought among its first `budget` candidates from DTSTART on, the
/// rule taken without its COUNT.
///
/// `Last(t)` comes exactly where `t` is the member with COUNT's number and is one of those
/// candidates. `Open` comes exactly where there is no COUNT, or the working range ends before that
/// member with at most `budget` candidates. `Unsettled` comes exactly in the other cases, with
/// `passed` equal to the budget and the moment of that candidate. The rule is one that `check`
/// accepts, with DTSTART in the calendar range (RFC 5545, 3.3.10). It takes no memory, and no step
/// of a guarded rule.
pub fn settle(rule: &IcalRule, budget: u64) -> Result<Settled, Unsettled>
    requires checked { check_ical rule.now ≡ Ok tt }
    requires start { IsCalendarMoment (start_of rule.now) }
    requires budget { 1 ≤ budget }
    ensures outcome { IsSettling rule.now budget result }
    ensures settled { IfOk result (IsSettled rule.now) }
    ensures beyond { IfErr result (λ u. IsBeyond rule.now budget) }
{
    rule_laws();
    settle_in(rule, &uncounted(rule), budget)
}

/// Each rule that `check` accepts, with DTSTART in the calendar range, has one outcome for each
/// budget, and no second one.
pub fn settling_laws()
    ensures exist { OutcomesExist }
    ensures unique { OutcomesAreOne }
{
    recurrence_laws();
    rule_laws();
}

// How many members the rule's COUNT lets in.
fn number_of(rule: &IcalRule) -> Option<u64>
    ensures { result ≡ option_map unsigned_abs rule.now.count }
{
    rule.count.map(|count| count.unsigned_abs())
}

// The last member of a rule, sought in one made ready that has the members and the candidates of
// the rule without its COUNT.
fn settle_in(rule: &IcalRule, leaf: &IcalLeaf, budget: u64) -> Result<Settled, Unsettled>
    requires checked { check_ical rule.now ≡ Ok tt }
    requires start { IsCalendarMoment (start_of rule.now) }
    requires budget { 1 ≤ budget }
    requires leaf { AreUncounted rule.now
        (has_counted leaf.now.sieve leaf.now.until leaf.now.count) (is_candidate leaf.now.sieve) }
    ensures { IsSettling rule.now budget result }
{
    rule_laws();
    match number_of(rule) {
        None => Ok(Settled::Open),
        Some(count) => search(leaf, rule.start.moment, count, budget),
    }
}

// The rule without its COUNT, to be searched forwards: its frame isn't asked for.
fn uncounted(rule: &IcalRule) -> IcalLeaf
    requires checked { check_ical rule.now ≡ Ok tt }
    requires start { IsCalendarMoment (start_of rule.now) }
    ensures { AreUncounted rule.now (has_counted result.sieve result.until result.count)
        (is_candidate result.sieve) }
{
    lowering_laws();
    let sieve = sieve_of(rule, last_of(rule.until, Settled::Open));
    IcalLeaf::new(sieve, rule.until, None, None)
}

// The moment before.
fn just_before(t: Moment) -> Moment
    requires { IsCalendarMoment t.0 }
    ensures { result.0 ≡ t.0 -ℤ pos 1 }
{
    Moment(t.0 - 1)
}

// The member with the number `count` from the start on, sought among the first `budget` candidates.
fn search(leaf: &IcalLeaf, start: Moment, count: u64, budget: u64) -> Result<Settled, Unsettled>
    requires start { IsCalendarMoment start.0 }
    requires count { 0 < count }
    requires budget { 0 < budget }
    ensures { IsOutcome (has_counted leaf.now.sieve leaf.now.until leaf.now.count)
        (is_candidate leaf.now.sieve) start.0 count budget result }
{
    let mut at = just_before(start);
    let mut members = 0;
    let mut known = None;
    for _passed in 0..budget {
        match leaf.after_known(at, &mut known) {
            Step::End => return Ok(Settled::Open),
            Step::Pass(next) => at = next,
            Step::Hit(next) => {
                at = next;
                members += 1;
                if members == count {
                    return Ok(Settled::Last(at));
                }
            }
        }
    }
    match leaf.after_known(at, &mut known) {
        Step::End => Ok(Settled::Open),
        _ => Err(Unsettled { passed: budget, at }),
    }
}
