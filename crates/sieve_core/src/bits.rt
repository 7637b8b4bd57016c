ghost use Rattle.std.specs.Prelude.{◌≡◌, ◌<◌, ◌≤◌, ◌+◌, ◌-◌, ◌*◌, ℕ, true, false, [], ◌∷◌, length};
ghost use Rattle.std.specs.Int.{IsInRange, bit_at};
ghost use Rattle.sieve_core.specs.Bits.{has_bit, is_zero, is_in_signed, meets_signed};
ghost use Rattle.sieve_core.specs.Times.{IsLeastIn, turned_bit};

use moment_core::Dir;

/// Whether bit `i` of the table is set; past its end none is.
#[tactic(auto, unfolding(crate::specs::Bits::has_bit))]
pub(crate) fn has_bit(words: &[u64], i: usize) -> bool
    ensures { result ≡ has_bit words.now i }
{
    i / 64 < words.len() && words[i / 64] >> (i % 64) & 1 == 1
}

// Whether no bit is set.
pub(crate) fn is_zero(words: &[u64]) -> bool
    ensures { result ≡ is_zero words.now }
{
    words.iter().all(|word| *word == 0)
}

// Looks up in a signed table what is both `v` and `-w`.
#[tactic(auto, unfolding(crate::specs::Bits::is_in_signed))]
pub(crate) fn is_in_signed(words: &[u64], v: usize, w: usize) -> bool
    requires table { length words.now ≤ 12 }
    ensures { result ≡ is_in_signed words.now v w }
{
    let half = 32 * words.len();
    v < half && has_bit(words, v) || w < half && has_bit(words, half + w)
}

/// Whether `v` of the numbers from 1 to `n`, which is also `v - n - 1`, meets a signed table; an
/// all-zero one tests nothing.
#[tactic(auto, unfolding(crate::specs::Bits::meets_signed))]
pub(crate) fn meets_signed(words: &[u64], n: usize, v: usize) -> bool
    requires table { length words.now ≤ 12 }
    requires within { IsInRange 1 n v }
    ensures { result ≡ meets_signed words.now n v }
{
    is_zero(words) || is_in_signed(words, v, n - (v - 1))
}

/// The least bit from one on, counted from the mask's end where the direction is backwards; None
/// where there is none.
pub(crate) fn first_bit(dir: Dir, mask: u64, len: usize, from: usize) -> Option<usize>
    requires { len ≤ 60 }
    ensures { IsLeastIn (turned_bit dir mask len) from len result }
{
    if from >= len {
        return None;
    }
    let steps = steps_to_bit(dir, mask, len, from);
    if steps < len - from {
        Some(from + steps)
    } else {
        None
    }
}

// How many steps to the next bit that is set, in the direction; at least as many as there are to
// the end, where none is.
fn steps_to_bit(dir: Dir, mask: u64, len: usize, from: usize) -> usize
    requires len { len ≤ 60 }
    requires from { from < len }
    ensures set { result < len - from → turned_bit dir mask len (from + result) ≡ true }
    ensures none_before { (k : ℕ) → k < result → k < len - from →
        turned_bit dir mask len (from + k) ≡ false }
    ensures end { result ≤ 64 }
{
    match dir {
        Dir::Fore => steps_up(mask, from),
        Dir::Back => steps_down(mask, len - (from + 1)),
    }
}

// How many steps from a bit up to the next one that is set; as many as there are to the end, where
// none is.
fn steps_up(mask: u64, from: usize) -> usize
    requires { from < 64 }
    ensures set { from + result < 64 → has_bit (mask ∷ []) (from + result) ≡ true }
    ensures none_before { (k : ℕ) → k < result → has_bit (mask ∷ []) (from + k) ≡ false }
    ensures end { result ≤ 64 }
{
    let rest = mask >> from;
    rest.trailing_zeros() as usize
}

// How many steps from a bit down to the next one that is set; more than there are, where none is.
fn steps_down(mask: u64, from: usize) -> usize
    requires { from < 64 }
    ensures set { result ≤ from → has_bit (mask ∷ []) (from - result) ≡ true }
    ensures none_before { (k : ℕ) → k < result → k ≤ from → has_bit (mask ∷ []) (from - k) ≡ false }
    ensures end { result ≤ 64 }
{
    let rest = mask << (63 - from);
    rest.leading_zeros() as usize
}

/// Below which number all bits of a half of a signed table of ranks lie.
pub(crate) fn bits_below(words: &[u64; 12], half: usize) -> usize
    requires { half ≤ 6 }
    ensures clear { (k : ℕ) → result ≤ k → k < 384 → has_bit words.now (64 * half + k) ≡ false }
    ensures most { result ≤ 384 }
{
    let mut end = 0;
    for i in 0..6usize {
        end = end_with(words[half + i], i, end);
    }
    end
}

// The end of the bits of a word in its place, or the end so far where it has none.
fn end_with(word: u64, i: usize, end: usize) -> usize
    requires i { i < 6 }
    requires end { end ≤ 64 * i }
    ensures clear { (k : ℕ) → result ≤ 64 * i + k → k < 64 → bit_at word k ≡ 0 }
    ensures low { end ≤ result }
    ensures high { result ≤ 64 * (i + 1) }
{
    if word == 0 {
        end
    } else {
        64 * i + (64 - word.leading_zeros() as usize)
    }
}
