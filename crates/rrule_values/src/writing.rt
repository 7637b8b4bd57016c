ghost use Rattle.std.specs.Prelude.{◌≡◌, ◌++◌, flat_map};
ghost use Rattle.std.specs.Fmt.{signed_decimal};
ghost use Rattle.std.specs.Int.{IsInRange};
ghost use Rattle.std.specs.Result.{OnOk};
ghost use Rattle.rule_core.specs.WrittenForm.{AreWeekdays};
ghost use Rattle.rrule_values.specs.Writing.{item_text, list_text, next_text};

use crate::names::day_name;
use itoa::Buffer;
use rule_core::DayItem;
use std::alloc::AllocError;

/// Writes a number in decimal, behind a minus where it is below 0.
pub fn put_number(out: &mut Vec<u8>, number: i64) -> Result<(), AllocError>
    ensures { OnOk result (out.new.items ≡ out.old.items ++ signed_decimal number) }
{
    out.extend_from_slice(Buffer::new().format(number).as_bytes())
}

fn put_next_number(out: &mut Vec<u8>, number: i64) -> Result<(), AllocError>
    ensures { OnOk result (out.new.items ≡ out.old.items ++ next_text signed_decimal number) }
{
    out.extend_from_slice(b",")?;
    put_number(out, number)
}

fn put_next_numbers(out: &mut Vec<u8>, numbers: &[i64]) -> Result<(), AllocError>
    ensures { OnOk result (out.new.items
        ≡ out.old.items ++ flat_map (next_text signed_decimal) numbers.now) }
{
    for number in numbers {
        put_next_number(out, *number)?;
    }
    Ok(())
}

/// Writes numbers with a comma between each two.
pub fn put_numbers(out: &mut Vec<u8>, numbers: &[i64]) -> Result<(), AllocError>
    ensures { OnOk result (out.new.items ≡ out.old.items ++ list_text signed_decimal numbers.now) }
{
    let Some((first, others)) = numbers.split_first() else {
        return Ok(());
    };
    put_number(out, *first)?;
    put_next_numbers(out, others)
}

fn put_item(out: &mut Vec<u8>, item: &DayItem) -> Result<(), AllocError>
    ensures weekday { OnOk result (IsInRange 1 7 item.now.day) }
    ensures text { OnOk result (out.new.items ≡ out.old.items ++ item_text item.now) }
{
    if item.nth != 0 {
        put_number(out, item.nth)?;
    }
    out.extend_from_slice(day_name(item.day))
}

fn put_next_item(out: &mut Vec<u8>, item: &DayItem) -> Result<(), AllocError>
    ensures weekday { OnOk result (IsInRange 1 7 item.now.day) }
    ensures text { OnOk result (out.new.items ≡ out.old.items ++ next_text item_text item.now) }
{
    out.extend_from_slice(b",")?;
    put_item(out, item)
}

#[tactic(auto, using(crate::proofs::Weekdays::weekdays_none))]
fn put_next_items(out: &mut Vec<u8>, items: &[DayItem]) -> Result<(), AllocError>
    ensures weekdays { OnOk result (AreWeekdays items.now) }
    ensures text { OnOk result (out.new.items
        ≡ out.old.items ++ flat_map (next_text item_text) items.now) }
{
    for item in items {
        put_next_item(out, item)?;
    }
    Ok(())
}

/// Writes weekdays, each behind its ordinal or without one, with a comma between each two. That
/// each is a weekday is told for the law that reads them back.
#[tactic(auto, using(crate::proofs::Weekdays::weekdays_first, crate::proofs::Weekdays::weekdays_none))]
pub fn put_items(out: &mut Vec<u8>, items: &[DayItem]) -> Result<(), AllocError>
    ensures weekdays { OnOk result (AreWeekdays items.now) }
    ensures text { OnOk result (out.new.items ≡ out.old.items ++ list_text item_text items.now) }
{
    let Some((first, others)) = items.split_first() else {
        return Ok(());
    };
    put_item(out, first)?;
    put_next_items(out, others)
}
