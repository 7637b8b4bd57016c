ghost use Rattle.std.specs.Prelude.{◌≡◌, [], ◌++◌, true, Ok, Some, flat_map, option_map, IfOk};
ghost use Rattle.std.specs.Fmt.{signed_decimal};
ghost use Rattle.std.specs.Option.{ForSome};
ghost use Rattle.std.specs.Result.{OnOk};
ghost use Rattle.rule_core.specs.IcalChecks.{is_until};
ghost use Rattle.rule_core.specs.WrittenForm.{AreWeekdays, HasWeekdays, IsWritable};
ghost use Rattle.std.specs.Int.{IsInRange};
ghost use Rattle.rrule_text.specs.Reading.{rule_of};
ghost use Rattle.rule_core.specs.declared.part.Part.TheVariants as parts;
ghost use Rattle.rrule_values.specs.Until.{until_text};
ghost use Rattle.rrule_values.specs.Writing.{item_text};
ghost use Rattle.rrule_text.specs.Writing.{behind_sign, days_of, interval_text, limits_of, listed_text, others_of, part_text, text_of, times_of, week_start_text};

use crate::laws::text_laws;
use crate::names::key;
use moment_core::{Moment, Weekday};
use rrule_values::{day_name, freq_name, put_date_time, put_items, put_number, put_numbers};
use rule_core::{DayItem, IcalRule, Part, rule_laws};
use std::alloc::{AllocError, Global};

// A semicolon and the name of the part.
fn put_key(out: &mut Vec<u8>, part: Part) -> Result<(), AllocError>
    ensures { OnOk result (out.new.items ≡ out.old.items ++ behind_sign part (Some [])) }
{
    out.extend_from_slice(b";")?;
    out.extend_from_slice(key(part))
}

fn put_by_day(out: &mut Vec<u8>, items: &[DayItem]) -> Result<(), AllocError>
    ensures weekdays { OnOk result (AreWeekdays items.now) }
    ensures text { OnOk result (out.new.items
        ≡ out.old.items ++ behind_sign parts.ByDay (listed_text item_text items.now)) }
{
    if items.is_empty() {
        return Ok(());
    }
    put_key(out, Part::ByDay)?;
    put_items(out, items)
}

fn put_list(out: &mut Vec<u8>, part: Part, numbers: &[i64]) -> Result<(), AllocError>
    ensures { OnOk result (out.new.items
        ≡ out.old.items ++ behind_sign part (listed_text signed_decimal numbers.now)) }
{
    if numbers.is_empty() {
        return Ok(());
    }
    put_key(out, part)?;
    put_numbers(out, numbers)
}

fn put_until(out: &mut Vec<u8>, until: Option<Moment>, with_z: bool) -> Result<(), AllocError>
    requires { ForSome until (λ m. is_until m ≡ true) }
    ensures { OnOk result (out.new.items
        ≡ out.old.items
        ++ behind_sign parts.Until (option_map (λ m. until_text with_z m.0) until)) }
{
    let Some(until) = until else {
        return Ok(());
    };
    put_key(out, Part::Until)?;
    put_date_time(out, until, with_z)
}

fn put_count(out: &mut Vec<u8>, count: Option<i64>) -> Result<(), AllocError>
    ensures { OnOk result (out.new.items
        ≡ out.old.items ++ behind_sign parts.Count (option_map signed_decimal count)) }
{
    let Some(count) = count else {
        return Ok(());
    };
    put_key(out, Part::Count)?;
    put_number(out, count)
}

fn put_interval(out: &mut Vec<u8>, interval: i64) -> Result<(), AllocError>
    ensures { OnOk result (out.new.items
        ≡ out.old.items ++ behind_sign parts.Interval (interval_text interval)) }
{
    if interval == 1 {
        return Ok(());
    }
    put_key(out, Part::Interval)?;
    put_number(out, interval)
}

fn put_week_start(out: &mut Vec<u8>, day: Weekday) -> Result<(), AllocError>
    ensures weekday { OnOk result (IsInRange 1 7 day) }
    ensures text { OnOk result (out.new.items
        ≡ out.old.items ++ behind_sign parts.Wkst (week_start_text day)) }
{
    if day.number() == 1 {
        return Ok(());
    }
    put_key(out, Part::Wkst)?;
    out.extend_from_slice(day_name(day))
}

// UNTIL, COUNT and INTERVAL.
fn put_limits(out: &mut Vec<u8>, rule: &IcalRule) -> Result<(), AllocError>
    requires { ForSome rule.now.until (λ m. is_until m ≡ true) }
    ensures { OnOk result (out.new.items
        ≡ out.old.items ++ flat_map part_text (limits_of rule.now)) }
{
    put_until(out, rule.until, rule.until_z)?;
    put_count(out, rule.count)?;
    put_interval(out, rule.interval)
}

// The parts from BYMONTH to BYDAY.
fn put_days(out: &mut Vec<u8>, rule: &IcalRule) -> Result<(), AllocError>
    ensures weekdays { OnOk result (AreWeekdays rule.now.by_day) }
    ensures text { OnOk result
        (out.new.items ≡ out.old.items ++ flat_map part_text (days_of rule.now)) }
{
    put_list(out, Part::ByMonth, rule.by_month.items())?;
    put_list(out, Part::ByWeekNo, rule.by_week.items())?;
    put_list(out, Part::ByYearDay, rule.by_year_day.items())?;
    put_list(out, Part::ByMonthDay, rule.by_month_day.items())?;
    put_by_day(out, rule.by_day.items())
}

// The parts from BYHOUR to WKST.
fn put_times(out: &mut Vec<u8>, rule: &IcalRule) -> Result<(), AllocError>
    ensures weekday { OnOk result (IsInRange 1 7 rule.now.week_start) }
    ensures text { OnOk result
        (out.new.items ≡ out.old.items ++ flat_map part_text (times_of rule.now)) }
{
    put_list(out, Part::ByHour, rule.by_hour.items())?;
    put_list(out, Part::ByMinute, rule.by_minute.items())?;
    put_list(out, Part::BySecond, rule.by_second.items())?;
    put_list(out, Part::BySetPos, rule.by_set_pos.items())?;
    put_week_start(out, rule.week_start)
}

// Every part behind FREQ.
fn put_others(out: &mut Vec<u8>, rule: &IcalRule) -> Result<(), AllocError>
    requires { ForSome rule.now.until (λ m. is_until m ≡ true) }
    ensures weekdays { OnOk result (HasWeekdays rule.now) }
    ensures text { OnOk result (out.new.items
        ≡ out.old.items ++ flat_map part_text (others_of rule.now)) }
{
    put_limits(out, rule)?;
    put_days(out, rule)?;
    put_times(out, rule)?;
    Ok(())
}

// The written form, and what weekdays tell of themselves, for the law that reads it back.
#[tactic(auto, unfolding(crate::specs::Writing::text_of))]
fn written(alloc: Global, rule: &IcalRule) -> Result<Vec<u8>, AllocError>
    requires { ForSome rule.now.until (λ m. is_until m ≡ true) }
    ensures weekdays { OnOk result (HasWeekdays rule.now) }
    ensures form { IfOk result (λ text. text.items ≡ text_of rule.now) }
{
    let mut out = Vec::new(alloc);
    out.extend_from_slice(key(Part::Freq))?;
    out.extend_from_slice(freq_name(rule.freq))?;
    put_others(&mut out, rule)?;
    Ok(out)
}

/// The one written form of a rule: the parts in the order of the table of RFC 5545 (3.3.10), UNTIL
/// with its time of day, INTERVAL where it isn't 1, WKST where it isn't MO, and each list in its
/// order. It is read back as the rule.
pub fn write_rrule(alloc: Global, rule: &IcalRule) -> Result<Vec<u8>, AllocError>
    requires { IsWritable rule.now }
    ensures form { IfOk result (λ text. text.items ≡ text_of rule.now) }
    ensures back { IfOk result (λ text. rule_of text.items rule.now.start ≡ Ok rule.now) }
{
    rule_laws();
    text_laws();
    written(alloc, rule)
}
