ghost use Rattle.std.specs.Prelude.{◌≡◌, ◌<◌, ◌≤◌, ◌*◌, ◌||◌, ◌==◌, ℕ, length, true, false, All};
ghost use Rattle.sieve_tables.specs.Lowered.{place_of, IsEntry, IsTableOf};
ghost use Rattle.sieve_core.specs.Bits.{has_bit, is_zero};

use sieve_core::sieve_laws;

// Sets one bit of a table.
pub(crate) fn set_bit(words: &mut [u64], i: usize)
    requires { i < 64 * length words.old }
    ensures bits { (j : ℕ) → has_bit words.new j ≡ (has_bit words.old j || (j == i)) }
    ensures len { length words.new ≡ length words.old }
    ensures nonzero { is_zero words.new ≡ false }
{
    sieve_laws();
    words[i / 64] |= 1 << (i % 64);
}

// Where a signed table has the value.
pub(crate) fn place_of(half: usize, v: i64) -> usize
    requires small { half ≤ 384 }
    requires entry { IsEntry half v }
    ensures place { result ≡ place_of half v }
    ensures within { result < 2 * half }
{
    let size = v.unsigned_abs() as usize;
    if v < 0 { half + size } else { size }
}

/// Fills an empty signed table with the values: `v` at bit `v`, and `-v` at bit `half + v`, where
/// `half` is half the table's bits. No value is 0 or reaches `half`.
pub fn fill(words: &mut [u64], values: &[i64])
    requires small { length words.old ≤ 12 }
    requires entries { All (IsEntry (32 * length words.old)) values.now }
    requires zero { is_zero words.old ≡ true }
    ensures { IsTableOf words.new (32 * length words.old) values.now }
{
    let half = 32 * words.len();
    for v in values {
        set_bit(words, place_of(half, *v));
    }
}
