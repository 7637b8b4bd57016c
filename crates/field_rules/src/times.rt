ghost use Rattle.std.specs.Prelude.{◌≡◌, ◌<◌, ◌≤◌, ◌^◌, ◌||◌, ℕ, not, Ok, [], ◌∷◌, All};
ghost use Rattle.rule_core.specs.FieldChecks.{check_of, has_hours, has_minutes, has_seconds};
ghost use Rattle.rule_core.specs.FieldMembers.{meets};
ghost use Rattle.sieve_core.specs.Bits.{has_bit};
ghost use Rattle.sieve_tables.specs.Masks.{IsValue};

use crate::values::or_first;
use rule_core::{FieldRule, Part, Signed, rule_laws};
use sieve_tables::{full_mask, mask_of};

// The mask of a field of the time of day, which has all values where the rule repeats within them.
fn time_mask(values: &Signed, is_tested: bool, len: u8) -> u64
    requires len { len ≤ 63 }
    requires values { All (IsValue len) values.now }
    requires some { 0 < len }
    ensures bits { (k : ℕ) → k < len →
        has_bit (result ∷ []) k ≡ (not is_tested || meets values.now len 0 k) }
    ensures below { result < 2 ^ len }
{
    if is_tested {
        mask_of(or_first(values, &[0]), len)
    } else {
        full_mask(len)
    }
}

/// The hours that the rule lets through.
pub(crate) fn hours(rule: &FieldRule) -> u32
    requires { check_of rule.now ≡ Ok tt }
    ensures { (k : ℕ) → k < 24 →
        has_bit (result ∷ []) k
        ≡ (not (has_hours rule.now.freq) || meets rule.now.hours 24 0 k) }
{
    rule_laws();
    time_mask(&rule.hours, rule.freq.may_give(Part::Hours), 24) as u32
}

/// The minutes that the rule lets through.
pub(crate) fn minutes(rule: &FieldRule) -> u64
    requires { check_of rule.now ≡ Ok tt }
    ensures { (k : ℕ) → k < 60 →
        has_bit (result ∷ []) k
        ≡ (not (has_minutes rule.now.freq) || meets rule.now.minutes 60 0 k) }
{
    rule_laws();
    time_mask(&rule.minutes, rule.freq.may_give(Part::Minutes), 60)
}

/// The seconds that the rule lets through.
pub(crate) fn seconds(rule: &FieldRule) -> u64
    requires { check_of rule.now ≡ Ok tt }
    ensures { (k : ℕ) → k < 60 →
        has_bit (result ∷ []) k
        ≡ (not (has_seconds rule.now.freq) || meets rule.now.seconds 60 0 k) }
{
    rule_laws();
    time_mask(&rule.seconds, rule.freq.may_give(Part::Seconds), 60)
}
