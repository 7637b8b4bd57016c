ghost use Rattle.std.specs.Prelude.{◌≡◌, ◌<◌, ◌^◌, ◌&&◌, ◌||◌, ◌==◌, ℕ, not, [], ◌∷◌, All};
ghost use Rattle.std.specs.Int.{IsInRange};
ghost use Rattle.std.specs.List.{list_any};
ghost use Rattle.rule_core.specs.IcalChecks.{has_ordinal};
ghost use Rattle.sieve_core.specs.Bits.{has_bit};
ghost use Rattle.sieve_tables.specs.Lowered.{IsDayEntry, IsDayTableOf, IsNthTableOf, is_by_itself};

use crate::masks::with_bit;
use crate::tables::{place_of, set_bit};
use rule_core::DayItem;

/// The numbers of the table of one weekday's ordinals.
const HALF: usize = 64;

/// The tables of listed weekdays: the mask of those by themselves, the weekday `w` at bit `w`, and
/// for each weekday, from Monday on, the signed table of the ordinals that are listed with it. An
/// ordinal is at most 63, from either end.
pub fn weekday_tables(items: &[DayItem]) -> (u8, [[u64; 2]; 7])
    requires { All IsDayEntry items.now }
    ensures { IsDayTableOf result.0 result.1 items.now }
{
    let nth = [
        nth_table(items, 1),
        nth_table(items, 2),
        nth_table(items, 3),
        nth_table(items, 4),
        nth_table(items, 5),
        nth_table(items, 6),
        nth_table(items, 7),
    ];
    (plain_days(items), nth)
}

// The mask of the weekdays by themselves.
fn plain_days(items: &[DayItem]) -> u8
    ensures bits { (w : ℕ) → w < 64 →
        has_bit (result ∷ []) w
        ≡ list_any (λ item. (w == item.day) && not (has_ordinal item)) items.now }
    ensures none { (result == 0) ≡ not (list_any is_by_itself items.now) }
    ensures weekdays { All (λ item. IsInRange 1 7 item.day) items.now }
{
    let mut mask = 0;
    for item in items {
        mask = with_day(mask, item);
    }
    mask as u8
}

// The mask with the item's weekday, where that has no ordinal.
fn with_day(mask: u64, item: &DayItem) -> u64
    requires { mask < 2 ^ 8 }
    ensures bits { (w : ℕ) → w < 64 →
        has_bit (result ∷ []) w
        ≡ (has_bit (mask ∷ []) w || ((w == item.now.day) && not (has_ordinal item.now))) }
    ensures below { result < 2 ^ 8 }
    ensures none { (result == 0) ≡ ((mask == 0) && not (is_by_itself item.now)) }
    ensures weekday { IsInRange 1 7 item.now.day }
{
    let day = item.day.number();
    if item.has_ordinal() {
        mask
    } else {
        with_bit(mask, day, 8)
    }
}

// The signed table of the ordinals that are listed with the weekday.
fn nth_table(items: &[DayItem], day: u8) -> [u64; 2]
    requires { All IsDayEntry items.now }
    ensures { IsNthTableOf result day items.now }
{
    let mut words = [0; 2];
    for item in items {
        if item.day.number() == day && item.has_ordinal() {
            set_bit(&mut words, place_of(HALF, item.nth));
        }
    }
    words
}
