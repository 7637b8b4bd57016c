ghost use Rattle.std.specs.Prelude.{◌≡◌, [], option_map, IfOk};
ghost use Rattle.rule_core.specs.declared.part.Part.TheVariants as parts;
ghost use Rattle.std.specs.List.{list_any};
ghost use Rattle.rrule_text.specs.Reading.{body_of, by_day_in, count_in, first_repeated, freq_in, interval_in, is_same, list_in, parts_in, repeated_after, rule_in, rule_of, sketch_of, until_in, until_z_in, value_of, week_start_in, without_end, without_prefix};
ghost use Rattle.rrule_text.specs.Fault.{Tells};
ghost use Rattle.rrule_text.specs.Laws.{IsReadWith};

use crate::fault::RruleFault;
use crate::laws::text_laws;
use crate::names::{is_of, key, part_of_piece};
use crate::pieces::{are_pieces, has_signs, value_in};
use moment_core::{Moment, Stamp, Weekday};
use rrule_values::{day_named, ends_with_z, freq_named, items_in, number, numbers_in, until_at};
use rule_core::{DayItems, Freq, IcalRule, Part, Signed};
use std::alloc::{AllocError, Global};

#[tactic(auto, unfolding(crate::specs::Reading::without_prefix))]
fn without_prefix(text: &[u8]) -> &[u8]
    ensures { result.now ≡ without_prefix text.now }
{
    if text.starts_with(b"RRULE:") {
        &text[6..]
    } else {
        text
    }
}

#[tactic(auto, unfolding(crate::specs::Reading::without_end))]
fn without_end(text: &[u8]) -> &[u8]
    ensures { result.now ≡ without_end text.now }
{
    match text {
        [front @ .., b';'] => front,
        _ => text,
    }
}

/// What the first piece of a part says.
fn value_of(part: Part, body: &[u8]) -> Option<&[u8]>
    ensures { option_map (λ value. value.now) result ≡ value_of part body.now }
{
    let piece = body.split(|b| *b == b';').find(|piece| is_of(part, piece))?;
    Some(value_in(part, piece))
}

fn is_same(a: Part, b: Part) -> bool
    ensures { result ≡ is_same a b }
{
    key(a) == key(b)
}

fn parts_in(alloc: Global, body: &[u8]) -> Result<Vec<Part>, AllocError>
    ensures { IfOk result (λ v. v.items ≡ parts_in body.now) }
{
    body.split(|b| *b == b';')
        .filter_map(|piece| part_of_piece(piece))
        .collect(alloc)
}

/// The first part that stands in the text a second time.
#[tactic(auto, unfolding(crate::specs::Reading::first_repeated))]
fn first_repeated(alloc: Global, body: &[u8]) -> Result<Option<Part>, AllocError>
    ensures { IfOk result (λ part. part ≡ first_repeated body.now) }
{
    let parts = parts_in(alloc, body)?;
    Ok(repeated(parts.as_slice()))
}

fn is_among(part: Part, seen: &[Part]) -> bool
    ensures { result ≡ list_any (is_same part) seen.now }
{
    seen.iter().any(|other| is_same(part, *other))
}

fn repeated(parts: &[Part]) -> Option<Part>
    ensures { result ≡ repeated_after [] parts.now }
{
    for (i, part) in parts.iter().enumerate() {
        if is_among(*part, &parts[..i]) {
            return Some(*part);
        }
    }
    None
}

#[tactic(auto, unfolding(crate::specs::Reading::freq_in))]
fn freq_in(body: &[u8]) -> Option<Freq>
    ensures { result ≡ freq_in body.now }
{
    freq_named(value_of(Part::Freq, body)?)
}

#[tactic(auto, unfolding(crate::specs::Reading::interval_in))]
fn interval_in(body: &[u8]) -> i64
    ensures { result ≡ interval_in body.now }
{
    match value_of(Part::Interval, body) {
        Some(value) => number(false, value).unwrap_or(1),
        None => 1,
    }
}

#[tactic(auto, unfolding(crate::specs::Reading::by_day_in))]
fn by_day_in(alloc: Global, body: &[u8]) -> Result<DayItems, AllocError>
    ensures { IfOk result (λ items. items ≡ by_day_in body.now) }
{
    match value_of(Part::ByDay, body) {
        Some(value) => Ok(DayItems::of(items_in(alloc, value)?)),
        None => Ok(DayItems::of(Vec::new(alloc))),
    }
}

#[tactic(auto, unfolding(crate::specs::Reading::until_in))]
fn until_in(body: &[u8]) -> Option<Moment>
    ensures { result ≡ until_in body.now }
{
    Some(until_at(value_of(Part::Until, body)?))
}

#[tactic(auto, unfolding(crate::specs::Reading::until_z_in))]
fn until_z_in(body: &[u8]) -> bool
    ensures { result ≡ until_z_in body.now }
{
    match value_of(Part::Until, body) {
        Some(value) => ends_with_z(value),
        None => false,
    }
}

#[tactic(auto, unfolding(crate::specs::Reading::count_in))]
fn count_in(body: &[u8]) -> Option<i64>
    ensures { result ≡ count_in body.now }
{
    number(false, value_of(Part::Count, body)?)
}

#[tactic(auto, unfolding(crate::specs::Reading::list_in))]
fn list_in(alloc: Global, part: Part, body: &[u8]) -> Result<Signed, AllocError>
    ensures { IfOk result (λ values. values ≡ list_in part body.now) }
{
    match value_of(part, body) {
        Some(value) => Ok(Signed::of(numbers_in(alloc, has_signs(part), value)?)),
        None => Ok(Signed::of(Vec::new(alloc))),
    }
}

#[tactic(auto, unfolding(crate::specs::Reading::week_start_in))]
fn week_start_in(body: &[u8]) -> Weekday
    ensures { result ≡ week_start_in body.now }
{
    let monday = Weekday::new(1).unwrap();
    match value_of(Part::Wkst, body) {
        Some(value) => day_named(value).unwrap_or(monday),
        None => monday,
    }
}

/// The lists that say on which days the members are.
#[derive(Drop)]
struct DayLists {
    by_month: Signed,
    by_week: Signed,
    by_year_day: Signed,
    by_month_day: Signed,
    by_day: DayItems,
}

/// The lists that say at which times of day they are, and which of them count.
#[derive(Drop)]
struct TimeLists {
    by_hour: Signed,
    by_minute: Signed,
    by_second: Signed,
    by_set_pos: Signed,
}

fn day_lists(alloc: Global, body: &[u8]) -> Result<DayLists, AllocError>
    ensures { IfOk result (λ days. (days.by_month ≡ list_in parts.ByMonth body.now)
        × (days.by_week ≡ list_in parts.ByWeekNo body.now)
        × (days.by_year_day ≡ list_in parts.ByYearDay body.now)
        × (days.by_month_day ≡ list_in parts.ByMonthDay body.now)
        × (days.by_day ≡ by_day_in body.now)) }
{
    Ok(DayLists {
        by_month: list_in(alloc, Part::ByMonth, body)?,
        by_week: list_in(alloc, Part::ByWeekNo, body)?,
        by_year_day: list_in(alloc, Part::ByYearDay, body)?,
        by_month_day: list_in(alloc, Part::ByMonthDay, body)?,
        by_day: by_day_in(alloc, body)?,
    })
}

fn time_lists(alloc: Global, body: &[u8]) -> Result<TimeLists, AllocError>
    ensures { IfOk result (λ times. (times.by_hour ≡ list_in parts.ByHour body.now)
        × (times.by_minute ≡ list_in parts.ByMinute body.now)
        × (times.by_second ≡ list_in parts.BySecond body.now)
        × (times.by_set_pos ≡ list_in parts.BySetPos body.now)) }
{
    Ok(TimeLists {
        by_hour: list_in(alloc, Part::ByHour, body)?,
        by_minute: list_in(alloc, Part::ByMinute, body)?,
        by_second: list_in(alloc, Part::BySecond, body)?,
        by_set_pos: list_in(alloc, Part::BySetPos, body)?,
    })
}

fn sketch(alloc: Global, body: &[u8], start: Stamp, freq: Freq) -> Result<IcalRule, AllocError>
    ensures { IfOk result (λ rule. rule ≡ sketch_of body.now start freq) }
{
    let days = day_lists(alloc, body)?;
    let times = time_lists(alloc, body)?;
    Ok(IcalRule {
        freq,
        interval: interval_in(body),
        start,
        until: until_in(body),
        until_z: until_z_in(body),
        count: count_in(body),
        by_month: days.by_month,
        by_week: days.by_week,
        by_year_day: days.by_year_day,
        by_month_day: days.by_month_day,
        by_day: days.by_day,
        by_hour: times.by_hour,
        by_minute: times.by_minute,
        by_second: times.by_second,
        by_set_pos: times.by_set_pos,
        week_start: week_start_in(body),
    })
}

fn rule_in(alloc: Global, body: &[u8], start: Stamp) -> Result<IcalRule, RruleFault>
    ensures { Tells (rule_in body.now start) result }
{
    if !are_pieces(body) {
        return Err(RruleFault::Syntax);
    }
    let Some(freq) = freq_in(body) else {
        return Err(RruleFault::Syntax);
    };
    if let Some(part) = first_repeated(alloc, body)? {
        return Err(RruleFault::Repeated(part));
    }
    let rule = sketch(alloc, body, start, freq)?;
    match rule.check() {
        Ok(()) => Ok(rule),
        Err(fault) => Err(RruleFault::Rule(fault)),
    }
}

/// The rule that a text writes (RFC 5545, 3.3.10), with this first moment, DTSTART. All fourteen
/// parts are read, in any order, in letters of either case, behind `RRULE:` or without it, and with
/// one `;` at the end or without; each list is brought into its order, without repeats. UNTIL as a
/// bare date is the last second of its day.
///
/// The first fault of this order decides, and want of memory can come at any place. `Syntax`: the
/// text isn't of that form, or FREQ is missing. `Repeated`: the first part whose name stood in the
/// text before. `Rule`: what `IcalRule::check` says first, where an ordinal of BYDAY that is
/// written as 0, and an UNTIL that names no moment of the years 0000 to 9999, are values out of
/// range.
#[tactic(auto, unfolding(crate::specs::Reading::body_of))]
pub fn read_rrule(alloc: Global, text: &[u8], start: Stamp) -> Result<IcalRule, RruleFault>
    ensures answer { Tells (rule_of text.now start) result }
    ensures writable { IfOk result (IsReadWith start) }
{
    text_laws();
    let text = text.to_ascii_uppercase(alloc)?;
    let body = without_end(without_prefix(text.as_slice()));
    rule_in(alloc, body, start)
}
