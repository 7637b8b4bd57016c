use moment_core::{Moment, Stamp, Weekday};
use rule_core::{DayItem, DayItems, FieldRule, Freq, IcalRule, Part, Signed};
use std::alloc::{AllocError, Global};

/// A part of a rule and its values. The interval, the start, the first weekday, UNTIL, COUNT and
/// WKST have one.
pub(crate) type Given<'a> = (Part, &'a [i64]);

fn none(alloc: Global) -> Signed {
    Signed::of(Vec::new(alloc))
}

fn signed(alloc: Global, values: &[i64]) -> Result<Signed, AllocError> {
    let mut listed = Vec::new(alloc);
    for v in values {
        listed.push(*v)?;
    }
    Ok(Signed::of(listed))
}

/// Weekdays by their ordinals, 0 where a weekday has none, and their numbers from Monday on.
pub(crate) fn weekdays(alloc: Global, days: &[(i64, u8)]) -> Result<DayItems, AllocError> {
    let mut listed = Vec::new(alloc);
    for (nth, number) in days {
        if let Some(day) = Weekday::new(*number) {
            listed.push(DayItem { nth: *nth, day })?;
        }
    }
    Ok(DayItems::of(listed))
}

/// 1970-01-01T00:00:00 and so many seconds, on no clock of a zone.
fn floating(seconds: i64) -> Stamp {
    Stamp {
        moment: Moment(seconds),
        absolute: false,
    }
}

/// The field rule that is given no more than its frequency.
pub(crate) fn bare_field(alloc: Global, freq: Freq) -> FieldRule {
    FieldRule {
        freq,
        months: none(alloc),
        weeks: none(alloc),
        days: none(alloc),
        hours: none(alloc),
        minutes: none(alloc),
        seconds: none(alloc),
        interval: 1,
        start: None,
        week_start: None,
    }
}

/// Gives a field rule one of its fields.
pub(crate) fn give_field(
    alloc: Global,
    rule: &mut FieldRule,
    given: Given,
) -> Result<(), AllocError> {
    let first = given.1.first().copied();
    match given.0 {
        Part::Months => rule.months = signed(alloc, given.1)?,
        Part::Weeks => rule.weeks = signed(alloc, given.1)?,
        Part::Days => rule.days = signed(alloc, given.1)?,
        Part::Hours => rule.hours = signed(alloc, given.1)?,
        Part::Minutes => rule.minutes = signed(alloc, given.1)?,
        Part::Seconds => rule.seconds = signed(alloc, given.1)?,
        Part::Interval => rule.interval = first.unwrap_or(1),
        Part::Start => rule.start = first.map(|t| floating(t)),
        _ => rule.week_start = first,
    }
    Ok(())
}

/// The rule of RFC 5545 that is given no more than its frequency and DTSTART.
pub(crate) fn bare_ical(alloc: Global, freq: Freq, start: i64) -> IcalRule {
    IcalRule {
        freq,
        interval: 1,
        start: floating(start),
        until: None,
        until_z: false,
        count: None,
        by_month: none(alloc),
        by_week: none(alloc),
        by_year_day: none(alloc),
        by_month_day: none(alloc),
        by_day: DayItems::of(Vec::new(alloc)),
        by_hour: none(alloc),
        by_minute: none(alloc),
        by_second: none(alloc),
        by_set_pos: none(alloc),
        week_start: Weekday::new(1).unwrap(),
    }
}

/// Gives a rule of RFC 5545 one of its parts, but for BYDAY. WKST is Sunday where it is given.
pub(crate) fn give_part(
    alloc: Global,
    rule: &mut IcalRule,
    given: Given,
) -> Result<(), AllocError> {
    let first = given.1.first().copied();
    match given.0 {
        Part::Interval => rule.interval = first.unwrap_or(1),
        Part::Until => rule.until = first.map(|t| Moment(t)),
        Part::Count => rule.count = first,
        Part::ByMonth => rule.by_month = signed(alloc, given.1)?,
        Part::ByWeekNo => rule.by_week = signed(alloc, given.1)?,
        Part::ByYearDay => rule.by_year_day = signed(alloc, given.1)?,
        Part::ByMonthDay => rule.by_month_day = signed(alloc, given.1)?,
        Part::ByHour => rule.by_hour = signed(alloc, given.1)?,
        Part::ByMinute => rule.by_minute = signed(alloc, given.1)?,
        Part::BySecond => rule.by_second = signed(alloc, given.1)?,
        Part::BySetPos => rule.by_set_pos = signed(alloc, given.1)?,
        _ => rule.week_start = Weekday::new(7).unwrap(),
    }
    Ok(())
}
