ghost use Rattle.std.specs.Prelude.{◌≡◌, ◌<◌, ◌≤◌, ◌^◌, ◌==◌, ◌||◌, ℕ, pos, not, true, false, [], ◌∷◌, All};
ghost use Rattle.std.specs.Ordering.{int_eq};
ghost use Rattle.rule_core.specs.Values.{is_given, is_listed, meant};
ghost use Rattle.sieve_core.specs.Bits.{has_bit};
ghost use Rattle.sieve_tables.specs.Lowered.{IsMaskOf, lists};
ghost use Rattle.sieve_tables.specs.Masks.{IsPlain, IsValue};

use sieve_core::sieve_laws;

// The bit that a value means.
fn bit_of(v: i64, len: u8) -> u8
    requires len { len ≤ 63 }
    requires value { IsValue len v }
    ensures below { result < len }
    ensures means { (k : ℕ) → int_eq (meant len v) (pos k) ≡ (k == result) }
{
    if v < 0 {
        (v + len as i64) as u8
    } else {
        v as u8
    }
}

/// The mask of a list of values below `len`: `v` has bit `v`, and one below 0 has bit `len + v`. It
/// is zero exactly where no value is listed.
pub fn mask_of(values: &[i64], len: u8) -> u64
    requires len { len ≤ 63 }
    requires values { All (IsValue len) values.now }
    ensures bits { (k : ℕ) → k < 64 → has_bit (result ∷ []) k ≡ is_listed values.now len k }
    ensures below { result < 2 ^ len }
    ensures none { (result == 0) ≡ not (is_given values.now) }
{
    let mut mask = 0;
    for v in values {
        mask = with_bit(mask, bit_of(*v, len), len);
    }
    mask
}

// The mask with one more bit.
pub(crate) fn with_bit(mask: u64, bit: u8, len: u8) -> u64
    requires len { len ≤ 63 }
    requires bit { bit < len }
    requires mask { mask < 2 ^ len }
    ensures bits { (k : ℕ) → k < 64 →
        has_bit (result ∷ []) k ≡ (has_bit (mask ∷ []) k || (k == bit)) }
    ensures below { result < 2 ^ len }
    ensures some { (result == 0) ≡ false }
{
    sieve_laws();
    mask | 1 << bit
}

/// The mask of all values below `len`.
pub fn full_mask(len: u8) -> u64
    requires { len ≤ 63 }
    ensures bits { (k : ℕ) → k < len → has_bit (result ∷ []) k ≡ true }
    ensures below { result < 2 ^ len }
{
    sieve_laws();
    (1 << len) - 1
}

/// The mask of a list of numbers below `len`, none of them below 0. It is zero exactly where no
/// number is listed.
pub fn plain_mask(values: &[i64], len: u8) -> u64
    requires len { len ≤ 63 }
    requires values { All (IsPlain len) values.now }
    ensures bits { (k : ℕ) → k < 64 → has_bit (result ∷ []) k ≡ lists values.now (pos k) }
    ensures below { result < 2 ^ len }
    ensures none { (result == 0) ≡ not (is_given values.now) }
{
    mask_of(values, len)
}

/// The mask of a list of numbers below `len`, none of them below 0, and of all of these where no
/// number is listed.
pub fn listed_mask(values: &[i64], len: u8) -> u64
    requires len { len ≤ 63 }
    requires values { All (IsPlain len) values.now }
    ensures mask { IsMaskOf result len values.now }
    ensures below { result < 2 ^ len }
{
    if values.is_empty() {
        full_mask(len)
    } else {
        plain_mask(values, len)
    }
}
