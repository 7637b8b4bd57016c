use self::Given::{Interval, Of, Ordinal, Until, UntilWithZ, Value};
use crate::rules::{bare_field, bare_ical, give_field, give_part, weekdays};
use moment_core::Moment;
use rule_core::RuleFault::{BadInterval, BadMix, BadValue};
use rule_core::{FieldRule, Freq, IcalRule, Part, RuleFault};
use std::alloc::{AllocError, Global};
use std::test::Fail;

/// One thing that a rule is given.
#[derive(Clone, Copy)]
enum Given {
    Of(Freq),
    Value(Part, i64),
    Ordinal(i64),
    Until(i64),
    UntilWithZ,
    Interval(i64),
}

type Row<'a> = (&'a [Given], Result<(), RuleFault>);

fn field_rule(alloc: Global, given: &[Given]) -> Result<FieldRule, AllocError> {
    let mut rule = bare_field(alloc, Freq::Yearly);
    for item in given {
        match *item {
            Given::Of(freq) => rule.freq = freq,
            Given::Value(key, value) => give_field(alloc, &mut rule, (key, &[value]))?,
            Given::Interval(n) => rule.interval = n,
            _ => {}
        }
    }
    Ok(rule)
}

fn ical_rule(alloc: Global, given: &[Given]) -> Result<IcalRule, AllocError> {
    let mut rule = bare_ical(alloc, Freq::Daily, 0);
    for item in given {
        match *item {
            Given::Of(freq) => rule.freq = freq,
            Given::Value(part, value) => give_part(alloc, &mut rule, (part, &[value]))?,
            Given::Ordinal(nth) => rule.by_day = weekdays(alloc, &[(nth, 1)])?,
            Given::Until(at) => rule.until = Some(Moment(at)),
            Given::UntilWithZ => rule.until_z = true,
            Given::Interval(n) => rule.interval = n,
        }
    }
    Ok(rule)
}

const KEYS: [Part; 7] = [
    Part::Months,
    Part::Weeks,
    Part::Days,
    Part::Hours,
    Part::Minutes,
    Part::Seconds,
    Part::WeekStart,
];

#[test]
fn each_frequency_takes_its_own_fields(rt: HostRuntime) -> Result<(), Fail> {
    const ROWS: &[(Freq, Part, [bool; 7])] = &[
        (
            Freq::Yearly,
            Part::Yearly,
            [true, true, true, true, true, true, true],
        ),
        (
            Freq::Monthly,
            Part::Monthly,
            [false, false, true, true, true, true, false],
        ),
        (
            Freq::Weekly,
            Part::Weekly,
            [false, false, true, true, true, true, true],
        ),
        (
            Freq::Daily,
            Part::Daily,
            [false, false, false, true, true, true, false],
        ),
        (
            Freq::Hourly,
            Part::Hourly,
            [false, false, false, false, true, true, false],
        ),
        (
            Freq::Minutely,
            Part::Minutely,
            [false, false, false, false, false, true, false],
        ),
        (Freq::Secondly, Part::Secondly, [false; 7]),
    ];
    let alloc = rt.alloc();
    for (freq, name, taken) in ROWS {
        for (key, is_taken) in KEYS.iter().zip(taken.iter()) {
            let rule = field_rule(alloc, &[Of(*freq), Value(*key, 1)])?;
            let want = if *is_taken {
                Ok(())
            } else {
                Err(BadMix(*name, *key))
            };
            assert_eq!(rt; rule.check(), want);
        }
    }
    Ok(())
}

#[test]
fn field_faults_come_where_and_in_the_order_they_should(rt: HostRuntime) -> Result<(), Fail> {
    const ROWS: &[Row<'static>] = &[
        (&[], Ok(())),
        (&[Value(Part::Months, 12)], Ok(())),
        (&[Value(Part::Months, -12)], Ok(())),
        (&[Value(Part::Months, 13)], Err(BadValue(Part::Months))),
        (&[Value(Part::Months, -13)], Err(BadValue(Part::Months))),
        (&[Value(Part::Months, 0)], Err(BadValue(Part::Months))),
        (&[Value(Part::Weeks, -53)], Ok(())),
        (&[Value(Part::Weeks, 54)], Err(BadValue(Part::Weeks))),
        (&[Value(Part::Weeks, 0)], Err(BadValue(Part::Weeks))),
        (&[Value(Part::Days, -366)], Ok(())),
        (&[Value(Part::Days, 367)], Err(BadValue(Part::Days))),
        (&[Value(Part::Days, 0)], Err(BadValue(Part::Days))),
        (&[Value(Part::Months, 2), Value(Part::Days, 31)], Ok(())),
        (
            &[Value(Part::Months, 1), Value(Part::Days, 32)],
            Err(BadValue(Part::Days)),
        ),
        (&[Of(Freq::Monthly), Value(Part::Days, -31)], Ok(())),
        (
            &[Of(Freq::Monthly), Value(Part::Days, -32)],
            Err(BadValue(Part::Days)),
        ),
        (&[Value(Part::Weeks, 1), Value(Part::Days, -7)], Ok(())),
        (
            &[Value(Part::Weeks, 1), Value(Part::Days, 8)],
            Err(BadValue(Part::Days)),
        ),
        (&[Of(Freq::Weekly), Value(Part::Days, 7)], Ok(())),
        (
            &[Of(Freq::Weekly), Value(Part::Days, -8)],
            Err(BadValue(Part::Days)),
        ),
        (&[Value(Part::Hours, 23)], Ok(())),
        (&[Value(Part::Hours, -24)], Ok(())),
        (&[Value(Part::Hours, 24)], Err(BadValue(Part::Hours))),
        (&[Value(Part::Hours, -25)], Err(BadValue(Part::Hours))),
        (&[Value(Part::Minutes, -60)], Ok(())),
        (&[Value(Part::Minutes, 60)], Err(BadValue(Part::Minutes))),
        (&[Value(Part::Seconds, 59)], Ok(())),
        (&[Value(Part::Seconds, -61)], Err(BadValue(Part::Seconds))),
        (&[Value(Part::WeekStart, 7)], Ok(())),
        (&[Value(Part::WeekStart, 0)], Err(BadValue(Part::WeekStart))),
        (&[Value(Part::WeekStart, 8)], Err(BadValue(Part::WeekStart))),
        (&[Interval(1_000_000_000)], Ok(())),
        (&[Interval(0)], Err(BadInterval)),
        (&[Interval(1_000_000_001)], Err(BadInterval)),
        (
            &[Value(Part::Weeks, 1), Value(Part::Months, 1)],
            Err(BadMix(Part::Months, Part::Weeks)),
        ),
        (
            &[
                Of(Freq::Monthly),
                Value(Part::WeekStart, 1),
                Value(Part::Weeks, 1),
            ],
            Err(BadMix(Part::Monthly, Part::Weeks)),
        ),
        (
            &[
                Of(Freq::Daily),
                Value(Part::Weeks, 1),
                Value(Part::Months, 1),
            ],
            Err(BadMix(Part::Daily, Part::Months)),
        ),
        (
            &[
                Of(Freq::Daily),
                Value(Part::Days, 1),
                Value(Part::Hours, 24),
            ],
            Err(BadMix(Part::Daily, Part::Days)),
        ),
        (
            &[Of(Freq::Secondly), Value(Part::Seconds, 0), Interval(0)],
            Err(BadMix(Part::Secondly, Part::Seconds)),
        ),
        (
            &[Value(Part::Weeks, 54), Value(Part::Months, 13)],
            Err(BadMix(Part::Months, Part::Weeks)),
        ),
        (
            &[Value(Part::Weeks, 1), Value(Part::Months, 1), Interval(0)],
            Err(BadMix(Part::Months, Part::Weeks)),
        ),
        (
            &[Value(Part::Seconds, 60), Value(Part::Minutes, 60)],
            Err(BadValue(Part::Minutes)),
        ),
        (
            &[Value(Part::WeekStart, 8), Value(Part::Hours, 24)],
            Err(BadValue(Part::Hours)),
        ),
        (
            &[Value(Part::WeekStart, 8), Interval(0)],
            Err(BadValue(Part::WeekStart)),
        ),
    ];
    let alloc = rt.alloc();
    for (given, want) in ROWS {
        let rule = field_rule(alloc, given)?;
        assert_eq!(rt; rule.check(), *want);
    }
    Ok(())
}

/// The first and the last moment that UNTIL may name.
const FIRST: i64 = -62_167_219_200;

const LAST: i64 = 253_402_300_799;

#[test]
fn rfc_5545_faults_come_where_and_in_the_order_they_should(rt: HostRuntime) -> Result<(), Fail> {
    const ROWS: &[Row<'static>] = &[
        (&[], Ok(())),
        (&[Until(FIRST)], Ok(())),
        (&[Until(LAST)], Ok(())),
        (&[Until(FIRST - 1)], Err(BadValue(Part::Until))),
        (&[Until(LAST + 1)], Err(BadValue(Part::Until))),
        (
            &[Until(0), Value(Part::Count, 1)],
            Err(BadMix(Part::Until, Part::Count)),
        ),
        (
            &[Until(0), UntilWithZ],
            Err(BadMix(Part::Until, Part::Dtstart)),
        ),
        (&[Value(Part::Count, 1_000_000_000)], Ok(())),
        (&[Value(Part::Count, 0)], Err(BadValue(Part::Count))),
        (
            &[Value(Part::Count, 1_000_000_001)],
            Err(BadValue(Part::Count)),
        ),
        (&[Value(Part::ByMonth, 12)], Ok(())),
        (&[Value(Part::ByMonth, 13)], Err(BadValue(Part::ByMonth))),
        (&[Value(Part::ByMonth, -1)], Err(BadValue(Part::ByMonth))),
        (&[Of(Freq::Yearly), Value(Part::ByWeekNo, -53)], Ok(())),
        (
            &[Of(Freq::Yearly), Value(Part::ByWeekNo, 54)],
            Err(BadValue(Part::ByWeekNo)),
        ),
        (
            &[Of(Freq::Monthly), Value(Part::ByWeekNo, 1)],
            Err(BadMix(Part::ByWeekNo, Part::Freq)),
        ),
        (
            &[Of(Freq::Secondly), Value(Part::ByWeekNo, 1)],
            Err(BadMix(Part::ByWeekNo, Part::Freq)),
        ),
        (&[Of(Freq::Yearly), Value(Part::ByYearDay, 366)], Ok(())),
        (&[Of(Freq::Hourly), Value(Part::ByYearDay, -366)], Ok(())),
        (
            &[Of(Freq::Hourly), Value(Part::ByYearDay, 367)],
            Err(BadValue(Part::ByYearDay)),
        ),
        (
            &[Of(Freq::Daily), Value(Part::ByYearDay, 1)],
            Err(BadMix(Part::ByYearDay, Part::Freq)),
        ),
        (
            &[Of(Freq::Weekly), Value(Part::ByYearDay, 1)],
            Err(BadMix(Part::ByYearDay, Part::Freq)),
        ),
        (
            &[Of(Freq::Monthly), Value(Part::ByYearDay, 1)],
            Err(BadMix(Part::ByYearDay, Part::Freq)),
        ),
        (&[Value(Part::ByMonthDay, -31)], Ok(())),
        (
            &[Value(Part::ByMonthDay, 0)],
            Err(BadValue(Part::ByMonthDay)),
        ),
        (
            &[Value(Part::ByMonthDay, 32)],
            Err(BadValue(Part::ByMonthDay)),
        ),
        (
            &[Of(Freq::Weekly), Value(Part::ByMonthDay, 1)],
            Err(BadMix(Part::ByMonthDay, Part::Freq)),
        ),
        (&[Ordinal(0)], Ok(())),
        (&[Of(Freq::Monthly), Ordinal(53)], Ok(())),
        (&[Of(Freq::Yearly), Ordinal(-53)], Ok(())),
        (&[Of(Freq::Yearly), Ordinal(54)], Err(BadValue(Part::ByDay))),
        (
            &[Of(Freq::Monthly), Ordinal(-54)],
            Err(BadValue(Part::ByDay)),
        ),
        (
            &[Of(Freq::Weekly), Ordinal(1)],
            Err(BadMix(Part::ByDay, Part::Freq)),
        ),
        (
            &[Of(Freq::Hourly), Ordinal(1)],
            Err(BadMix(Part::ByDay, Part::Freq)),
        ),
        (
            &[Of(Freq::Yearly), Ordinal(1), Value(Part::ByWeekNo, 1)],
            Err(BadMix(Part::ByDay, Part::ByWeekNo)),
        ),
        (
            &[Of(Freq::Yearly), Ordinal(0), Value(Part::ByWeekNo, 1)],
            Ok(()),
        ),
        (&[Value(Part::ByHour, 23)], Ok(())),
        (&[Value(Part::ByHour, 24)], Err(BadValue(Part::ByHour))),
        (&[Value(Part::ByHour, -1)], Err(BadValue(Part::ByHour))),
        (&[Value(Part::ByMinute, 59)], Ok(())),
        (&[Value(Part::ByMinute, 60)], Err(BadValue(Part::ByMinute))),
        (&[Value(Part::BySecond, 60)], Ok(())),
        (&[Value(Part::BySecond, 61)], Err(BadValue(Part::BySecond))),
        (
            &[Value(Part::BySetPos, 1)],
            Err(BadMix(Part::BySetPos, Part::Freq)),
        ),
        (
            &[Value(Part::BySetPos, -366), Value(Part::ByMonth, 1)],
            Ok(()),
        ),
        (
            &[
                Value(Part::BySetPos, 1),
                Of(Freq::Yearly),
                Value(Part::ByWeekNo, 1),
            ],
            Ok(()),
        ),
        (
            &[
                Value(Part::BySetPos, 1),
                Of(Freq::Yearly),
                Value(Part::ByYearDay, 1),
            ],
            Ok(()),
        ),
        (
            &[Value(Part::BySetPos, 1), Value(Part::ByMonthDay, 1)],
            Ok(()),
        ),
        (&[Value(Part::BySetPos, 1), Ordinal(0)], Ok(())),
        (&[Value(Part::BySetPos, 1), Value(Part::ByHour, 1)], Ok(())),
        (
            &[Value(Part::BySetPos, 1), Value(Part::ByMinute, 1)],
            Ok(()),
        ),
        (
            &[Value(Part::BySetPos, 1), Value(Part::BySecond, 1)],
            Ok(()),
        ),
        (
            &[Value(Part::BySetPos, 367), Value(Part::ByMonth, 1)],
            Err(BadValue(Part::BySetPos)),
        ),
        (
            &[Value(Part::BySetPos, 0), Value(Part::ByMonth, 1)],
            Err(BadValue(Part::BySetPos)),
        ),
        (&[Interval(1_000_000_000)], Ok(())),
        (&[Interval(0)], Err(BadInterval)),
        (&[Interval(1_000_000_001)], Err(BadInterval)),
        (
            &[Until(0), Value(Part::Count, 0), Value(Part::ByWeekNo, 1)],
            Err(BadMix(Part::Until, Part::Count)),
        ),
        (
            &[Value(Part::ByWeekNo, 1), Value(Part::ByYearDay, 1)],
            Err(BadMix(Part::ByWeekNo, Part::Freq)),
        ),
        (
            &[
                Of(Freq::Weekly),
                Value(Part::ByMonthDay, 1),
                Value(Part::ByYearDay, 1),
            ],
            Err(BadMix(Part::ByYearDay, Part::Freq)),
        ),
        (
            &[Of(Freq::Weekly), Ordinal(1), Value(Part::ByMonthDay, 1)],
            Err(BadMix(Part::ByMonthDay, Part::Freq)),
        ),
        (
            &[Ordinal(1), Value(Part::ByWeekNo, 1)],
            Err(BadMix(Part::ByWeekNo, Part::Freq)),
        ),
        (
            &[Ordinal(1), Until(0), UntilWithZ],
            Err(BadMix(Part::ByDay, Part::Freq)),
        ),
        (
            &[Of(Freq::Yearly), Ordinal(1), Value(Part::ByWeekNo, 54)],
            Err(BadMix(Part::ByDay, Part::ByWeekNo)),
        ),
        (
            &[Value(Part::BySetPos, 1), Until(0), UntilWithZ],
            Err(BadMix(Part::BySetPos, Part::Freq)),
        ),
        (
            &[Until(LAST + 1), UntilWithZ],
            Err(BadMix(Part::Until, Part::Dtstart)),
        ),
        (
            &[Until(LAST + 1), Value(Part::ByMonth, 13)],
            Err(BadValue(Part::Until)),
        ),
        (
            &[Value(Part::Count, 0), Value(Part::ByMonth, 13)],
            Err(BadValue(Part::Count)),
        ),
        (
            &[
                Of(Freq::Yearly),
                Value(Part::ByWeekNo, 54),
                Value(Part::ByYearDay, 0),
            ],
            Err(BadValue(Part::ByWeekNo)),
        ),
        (
            &[
                Of(Freq::Hourly),
                Value(Part::ByYearDay, 0),
                Value(Part::ByMonthDay, 0),
            ],
            Err(BadValue(Part::ByYearDay)),
        ),
        (
            &[Of(Freq::Monthly), Value(Part::ByMonthDay, 0), Ordinal(54)],
            Err(BadValue(Part::ByMonthDay)),
        ),
        (
            &[Of(Freq::Monthly), Value(Part::ByHour, 24), Ordinal(54)],
            Err(BadValue(Part::ByDay)),
        ),
        (
            &[Value(Part::BySecond, 61), Value(Part::BySetPos, 0)],
            Err(BadValue(Part::BySecond)),
        ),
        (
            &[
                Value(Part::BySetPos, 0),
                Value(Part::ByMinute, 0),
                Interval(0),
            ],
            Err(BadValue(Part::BySetPos)),
        ),
    ];
    let alloc = rt.alloc();
    for (given, want) in ROWS {
        let rule = ical_rule(alloc, given)?;
        assert_eq!(rt; rule.check(), *want);
    }
    Ok(())
}
