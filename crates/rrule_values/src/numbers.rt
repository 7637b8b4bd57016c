ghost use Rattle.std.specs.Prelude.{◌≡◌, ◌<◌, ◌≤◌, ◌^◌, length, true};
ghost use Rattle.std.specs.Char.{is_ascii_digit};
ghost use Rattle.std.specs.List.{list_all};
ghost use Rattle.std.specs.Str.Parse.{digits_value};
ghost use Rattle.rrule_values.specs.Numbers.{is_digits, digits_at, number_at, ordinal_at, ordinal_of, item_at};

use crate::names::day_named;
use rule_core::DayItem;

/// The number that at most 10 digits write.
pub(crate) fn value(digits: &[u8]) -> u64
    requires digits { list_all is_ascii_digit digits.now ≡ true }
    requires few { length digits.now ≤ 10 }
    ensures value { result ≡ digits_value 10 digits.now }
    ensures small { result < 10 ^ 10 }
    ensures width { result < 10 ^ length digits.now }
{
    let mut n: u64 = 0;
    for d in digits {
        n = 10 * n + (*d - b'0') as u64;
    }
    n
}

pub(crate) fn all_digits(bytes: &[u8]) -> bool
    ensures { result ≡ list_all is_ascii_digit bytes.now }
{
    bytes.iter().all(|b| b.is_ascii_digit())
}

#[tactic(auto, unfolding(crate::specs::Numbers::is_digits))]
fn is_digits(bytes: &[u8]) -> bool
    ensures value { result ≡ is_digits bytes.now }
    ensures digits { result ≡ true → list_all is_ascii_digit bytes.now ≡ true }
    ensures short { result ≡ true → length bytes.now ≤ 10 }
{
    1 <= bytes.len() && bytes.len() <= 10 && all_digits(bytes)
}

#[tactic(auto, unfolding(crate::specs::Numbers::digits_at))]
fn signed_digits(minus: bool, digits: &[u8]) -> Option<i64>
    ensures { result ≡ digits_at minus digits.now }
{
    if !is_digits(digits) {
        return None;
    }
    let n = value(digits) as i64;
    Some(if minus { -n } else { n })
}

/// The number that 1 to 10 digits write, behind a sign or without one where signs are allowed.
#[tactic(auto, unfolding(crate::specs::Numbers::number_at))]
pub fn number(signed: bool, bytes: &[u8]) -> Option<i64>
    ensures { result ≡ number_at signed bytes.now }
{
    match bytes {
        [] => None,
        [b'+', digits @ ..] if signed => signed_digits(false, digits),
        [b'-', digits @ ..] if signed => signed_digits(true, digits),
        _ => signed_digits(false, bytes),
    }
}

// An ordinal that is written as 0 is one all the same, out of its range.
fn ordinal_of(n: i64) -> i64
    ensures { result ≡ ordinal_of n }
{
    if n == 0 { 54 } else { n }
}

#[tactic(auto, unfolding(crate::specs::Numbers::ordinal_at))]
fn ordinal(bytes: &[u8]) -> Option<i64>
    ensures { result ≡ ordinal_at bytes.now }
{
    match bytes {
        [] => Some(0),
        _ => Some(ordinal_of(number(true, bytes)?)),
    }
}

/// The weekday that the bytes write, behind its ordinal or without one.
#[tactic(auto, unfolding(crate::specs::Numbers::item_at))]
pub(crate) fn item(bytes: &[u8]) -> Option<DayItem>
    ensures { result ≡ item_at bytes.now }
{
    if bytes.len() < 2 {
        return None;
    }
    let (ordinal_text, name) = bytes.split_at(bytes.len() - 2);
    let nth = ordinal(ordinal_text)?;
    let day = day_named(name)?;
    Some(DayItem { nth, day })
}
