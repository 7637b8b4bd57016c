ghost use Rattle.std.specs.Prelude.{◌≡◌, ◌++◌, ◌||◌, IfOk, OnOk, [], codes, cond};
ghost use Rattle.std.specs.Fmt.{signed_decimal};
ghost use Rattle.std.specs.List.{flat_map};
ghost use Rattle.std.specs.Option.{is_some};
ghost use Rattle.expr_grammar.specs.declared.syntax.Key.TheVariants.{Interval};
ghost use Rattle.expr_grammar.specs.Fields.{freq_word, key_word};
ghost use Rattle.expr_print.specs.Fields.{field_rule_text, fields_text, interval_printed, next_number, numbers_before, printed_fields, start_before, with_spaces};
ghost use Rattle.expr_tokens.specs.Names.{name_of};
ghost use Rattle.moment_core.specs.Line.{IsCalendarMoment};
ghost use Rattle.rule_core.specs.FieldMembers.{start_of};
ghost use Rattle.rule_core.specs.Values.{is_given};

use crate::printing::put_stamp;
use expr_grammar::Key;
use itoa::Buffer;
use moment_core::Stamp;
use rule_core::{FieldRule, Freq};
use std::alloc::AllocError;

fn freq_name(freq: Freq) -> &'static [u8]
    ensures { result.now ≡ name_of (freq_word freq) }
{
    match freq {
        Freq::Yearly => b"yearly",
        Freq::Monthly => b"monthly",
        Freq::Weekly => b"weekly",
        Freq::Daily => b"daily",
        Freq::Hourly => b"hourly",
        Freq::Minutely => b"minutely",
        Freq::Secondly => b"secondly",
    }
}

fn key_name(key: Key) -> &'static [u8]
    ensures { result.now ≡ name_of (key_word key) }
{
    match key {
        Key::Months => b"months",
        Key::Weeks => b"weeks",
        Key::Days => b"days",
        Key::Hours => b"hours",
        Key::Minutes => b"minutes",
        Key::Seconds => b"seconds",
        Key::Interval => b"interval",
        Key::WeekStart => b"week_start",
    }
}

pub(crate) fn put_number(out: &mut Vec<u8>, n: i64) -> Result<(), AllocError>
    ensures { OnOk result (out.new.items ≡ out.old.items ++ signed_decimal n) }
{
    out.extend_from_slice(Buffer::new().format(n).as_bytes())
}

fn put_more_numbers(out: &mut Vec<u8>, numbers: &[i64]) -> Result<(), AllocError>
    ensures { OnOk result (out.new.items ≡ out.old.items ++ flat_map next_number numbers.now) }
{
    for n in numbers {
        out.extend_from_slice(b",")?;
        put_number(out, *n)?;
    }
    Ok(())
}

/// A space, where a field stands before the next one.
fn put_space(out: &mut Vec<u8>, after: bool) -> Result<(), AllocError>
    ensures { OnOk result (out.new.items ≡ out.old.items ++ cond after (codes " ") []) }
{
    if after {
        out.extend_from_slice(b" ")?;
    }
    Ok(())
}

/// Puts a field of numbers, where there are some, and tells whether a field stands before the next
/// one.
fn put_numbers(
    out: &mut Vec<u8>,
    after: bool,
    key: Key,
    numbers: &[i64],
) -> Result<bool, AllocError>
    ensures put { OnOk result (out.new.items
        ≡ out.old.items ++ fields_text after (numbers_before key numbers.now [])) }
    ensures told { IfOk result (λ told. told ≡ (after || is_given numbers.now)) }
{
    let Some((first, others)) = numbers.split_first() else {
        return Ok(after);
    };
    put_space(out, after)?;
    out.extend_from_slice(key_name(key))?;
    out.extend_from_slice(b"=")?;
    put_number(out, *first)?;
    put_more_numbers(out, others)?;
    Ok(true)
}

/// Puts an interval other than 1.
fn put_interval(out: &mut Vec<u8>, after: bool, interval: i64) -> Result<bool, AllocError>
    ensures put { OnOk result (out.new.items
        ≡ out.old.items
        ++ fields_text after (numbers_before Interval (interval_printed interval) [])) }
    ensures told { IfOk result
        (λ told. told ≡ (after || is_given (interval_printed interval))) }
{
    if interval == 1 {
        Ok(after)
    } else {
        put_numbers(out, after, Key::Interval, &[interval])
    }
}

/// Puts a start, where there is one.
fn put_start(out: &mut Vec<u8>, after: bool, start: Option<Stamp>) -> Result<bool, AllocError>
    requires { IsCalendarMoment (start_of start) }
    ensures put { OnOk result (out.new.items
        ≡ out.old.items ++ fields_text after (start_before start [])) }
    ensures told { IfOk result (λ told. told ≡ (after || is_some start)) }
{
    let Some(stamp) = start else {
        return Ok(after);
    };
    put_space(out, after)?;
    out.extend_from_slice(b"start=")?;
    put_stamp(out, stamp)?;
    Ok(true)
}

fn put_fields(out: &mut Vec<u8>, rule: &FieldRule) -> Result<(), AllocError>
    requires { IsCalendarMoment (start_of rule.now.start) }
    ensures { OnOk result (out.new.items ≡ out.old.items ++ with_spaces (printed_fields rule.now)) }
{
    let months = put_numbers(out, false, Key::Months, rule.months.items())?;
    let weeks = put_numbers(out, months, Key::Weeks, rule.weeks.items())?;
    let days = put_numbers(out, weeks, Key::Days, rule.days.items())?;
    let hours = put_numbers(out, days, Key::Hours, rule.hours.items())?;
    let minutes = put_numbers(out, hours, Key::Minutes, rule.minutes.items())?;
    let seconds = put_numbers(out, minutes, Key::Seconds, rule.seconds.items())?;
    let interval = put_interval(out, seconds, rule.interval)?;
    let start = put_start(out, interval, rule.start)?;
    put_numbers(out, start, Key::WeekStart, rule.week_start.as_slice())?;
    Ok(())
}

/// Puts the printed form of a rule.
pub(crate) fn put_rule(out: &mut Vec<u8>, rule: &FieldRule) -> Result<(), AllocError>
    requires { IsCalendarMoment (start_of rule.now.start) }
    ensures { OnOk result (out.new.items ≡ out.old.items ++ field_rule_text rule.now) }
{
    out.extend_from_slice(freq_name(rule.freq))?;
    out.extend_from_slice(b"(")?;
    put_fields(out, rule)?;
    out.extend_from_slice(b")")
}
