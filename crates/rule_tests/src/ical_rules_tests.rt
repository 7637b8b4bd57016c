ghost use Rattle.std.specs.Prelude.{◌≡◌, ◌<◌, Ok};
ghost use Rattle.ical_rules.specs.Rules.{start_of};
ghost use Rattle.moment_core.specs.Line.{IsCalendarMoment};
ghost use Rattle.rule_core.specs.IcalChecks.{check_ical};

use crate::neighbours::{Near, near};
use crate::rules::{Given, bare_ical, give_part, weekdays};
use ical_rules::{IcalLeaf, Settled, Unsettled, lower_ical, lower_uncounted, settle};
use moment_core::in_range;
use rule_core::{Freq, IcalRule, Part};
use std::alloc::{AllocError, Global};
use std::marker::Brand;
use std::sync::ledger::{Blank, Ledger};
use stored_pair::Guarded;

fn rule_of(alloc: Global, freq: Freq, start: i64, parts: &[Given]) -> Result<IcalRule, AllocError> {
    let mut rule = bare_ical(alloc, freq, start);
    for part in parts {
        give_part(alloc, &mut rule, *part)?;
    }
    Ok(rule)
}

fn lowered(rule: &IcalRule) -> Option<Guarded<IcalLeaf>> {
    if !in_range(rule.start.moment) {
        return None;
    }
    match rule.check() {
        Ok(()) => Some(ready(rule)),
        Err(_) => None,
    }
}

fn ready(rule: &IcalRule) -> Guarded<IcalLeaf>
    requires checked { check_ical rule.now ≡ Ok tt }
    requires start { IsCalendarMoment (start_of rule.now) }
{
    match rule.count {
        None => lower_ical(rule, Settled::Open),
        Some(_) => lower_uncounted(rule),
    }
}

fn near_rule<L: Ledger>(alloc: Global, blank: Blank, row: Row) -> Result<Near, AllocError>
    requires name { blank.name ≡ L.name }
    requires parts { blank.parts ≡ L.parts }
    requires some { 0 < blank.parts }
{
    let mut rule = rule_of(alloc, row.0, row.1, row.2)?;
    rule.by_day = weekdays(alloc, row.3)?;
    match lowered(&rule) {
        Some(leaf) => Ok(near::<IcalLeaf, L>(&leaf, blank, row.4)),
        None => Ok((None, None)),
    }
}

/// The frequency, DTSTART, the parts, the weekdays of BYDAY with their ordinals, and a moment.
type Row<'a> = (Freq, i64, &'a [Given<'a>], &'a [(i64, u8)], i64, Near);

/// Weekdays, from Monday to Friday.
const WORKDAYS: [(i64, u8); 5] = [(0, 1), (0, 2), (0, 3), (0, 4), (0, 5)];

#[test]
fn members_lie_where_another_calendar_puts_them(rt: HostRuntime) {
    let rows: [Row; 15] = [
        (
            Freq::Monthly,
            873_450_000,
            &[],
            &[(1, 5)],
            884_822_400,
            (Some(883_731_600), Some(886_755_600)),
        ),
        (
            Freq::Monthly,
            874_918_800,
            &[],
            &[(-2, 1)],
            884_822_400,
            (Some(882_781_200), Some(885_200_400)),
        ),
        (
            Freq::Yearly,
            865_933_200,
            &[(Part::ByMonth, &[2, 1])],
            &[],
            884_822_400,
            (Some(884_422_800), Some(887_101_200)),
        ),
        (
            Freq::Yearly,
            864_032_400,
            &[],
            &[(20, 1)],
            915_148_800,
            (Some(895_482_000), Some(926_931_600)),
        ),
        (
            Freq::Yearly,
            863_427_600,
            &[(Part::ByWeekNo, &[20])],
            &[(0, 1)],
            915_148_800,
            (Some(894_877_200), Some(926_931_600)),
        ),
        (
            Freq::Weekly,
            870_771_600,
            &[(Part::Interval, &[2]), (Part::Wkst, &[7])],
            &[(0, 2), (0, 7)],
            871_862_400,
            (Some(871_808_400), Some(871_981_200)),
        ),
        (
            Freq::Weekly,
            870_771_600,
            &[(Part::Interval, &[2]), (Part::Count, &[4])],
            &[(0, 7), (0, 2)],
            871_862_400,
            (Some(871_203_600), Some(871_981_200)),
        ),
        (
            Freq::Monthly,
            873_104_400,
            &[(Part::BySetPos, &[-2])],
            &WORKDAYS,
            884_822_400,
            (Some(883_472_400), Some(886_064_400)),
        ),
        (
            Freq::Yearly,
            852_109_200,
            &[(Part::Interval, &[3]), (Part::ByYearDay, &[1, 100, -1])],
            &[],
            959_817_600,
            (Some(955_270_800), Some(978_253_200)),
        ),
        (
            Freq::Daily,
            873_190_800,
            &[(Part::Until, &[882_921_600])],
            &[],
            882_867_600,
            (Some(882_781_200), None),
        ),
        (
            Freq::Minutely,
            873_190_800,
            &[(Part::Interval, &[90])],
            &[],
            873_201_600,
            (Some(873_196_200), Some(873_207_000)),
        ),
        (
            Freq::Weekly,
            873_190_800,
            &[],
            &[(0, 5)],
            873_190_800,
            (None, Some(873_450_000)),
        ),
        (
            Freq::Monthly,
            873_190_800,
            &[(Part::ByMonthDay, &[13])],
            &[(0, 5)],
            891_388_800,
            (Some(889_779_600), Some(910_947_600)),
        ),
        (
            Freq::Daily,
            873_190_830,
            &[(Part::ByHour, &[17, 9]), (Part::BySecond, &[0, 60, 59])],
            &[],
            873_190_859,
            (None, Some(873_219_600)),
        ),
        (
            Freq::Monthly,
            854_701_200,
            &[],
            &[],
            859_852_800,
            (Some(859_798_800), Some(865_069_200)),
        ),
    ];
    for row in rows {
        let found = near_rule::<Brand>(rt.alloc(), Blank::new(1), row);
        assert_eq!(rt; found, Ok(row.5));
    }
}

/// 2000-01-01T00:00:00, and 9900-12-31T00:00:00, from which on the working range has 32,851
/// midnights.
const EARLY: i64 = 946_684_800;

const LATE: i64 = 250_278_076_800;

/// FREQ, DTSTART, the parts and the budget.
type Sought<'a> = (Freq, i64, &'a [Given<'a>], u64);

/// The COUNT-th member, or the last candidate of the budget.
type Outcome = Result<Option<i64>, (u64, i64)>;

const ROWS: [(Sought<'static>, Outcome); 11] = [
    // Each midnight is a member, and none is past the budget, or one is.
    (
        (Freq::Daily, EARLY, &[(Part::Count, &[1])], 1),
        Ok(Some(EARLY)),
    ),
    (
        (Freq::Daily, EARLY, &[(Part::Count, &[3])], 3),
        Ok(Some(946_857_600)),
    ),
    (
        (Freq::Daily, EARLY, &[(Part::Count, &[4])], 3),
        Err((3, 946_857_600)),
    ),
    // The 13th of each month; the midnights before it are candidates.
    (
        (
            Freq::Monthly,
            EARLY,
            &[(Part::ByMonthDay, &[13]), (Part::Count, &[1])],
            13,
        ),
        Ok(Some(947_721_600)),
    ),
    (
        (
            Freq::Monthly,
            EARLY,
            &[(Part::ByMonthDay, &[13]), (Part::Count, &[1])],
            12,
        ),
        Err((12, 947_635_200)),
    ),
    // The working range ends first, just at the budget or one candidate later.
    (
        (
            Freq::Daily,
            LATE,
            &[(Part::Count, &[1_000_000_000])],
            32_851,
        ),
        Ok(None),
    ),
    (
        (
            Freq::Daily,
            LATE,
            &[(Part::Count, &[1_000_000_000])],
            32_850,
        ),
        Err((32_850, 253_116_230_400)),
    ),
    // The 30th of February never comes.
    (
        (
            Freq::Yearly,
            LATE,
            &[
                (Part::ByMonth, &[2]),
                (Part::ByMonthDay, &[30]),
                (Part::Count, &[1]),
            ],
            32_851,
        ),
        Ok(None),
    ),
    (
        (
            Freq::Yearly,
            LATE,
            &[
                (Part::ByMonth, &[2]),
                (Part::ByMonthDay, &[30]),
                (Part::Count, &[1]),
            ],
            2,
        ),
        Err((2, 250_278_163_200)),
    ),
    // There is no COUNT, or a great one.
    ((Freq::Daily, EARLY, &[], 1), Ok(None)),
    (
        (Freq::Secondly, EARLY, &[(Part::Count, &[900_000_000])], 20),
        Err((20, 946_684_819)),
    ),
];

fn told(outcome: Result<Settled, Unsettled>) -> Outcome {
    match outcome {
        Ok(Settled::Last(t)) => Ok(Some(t.0)),
        Ok(Settled::Open) => Ok(None),
        Err(u) => Err((u.passed, u.at.0)),
    }
}

fn settled(rule: &IcalRule, budget: u64) -> Option<Outcome> {
    if budget == 0 || !in_range(rule.start.moment) {
        return None;
    }
    match rule.check() {
        Ok(()) => Some(told(settle(rule, budget))),
        Err(_) => None,
    }
}

fn outcome(alloc: Global, sought: Sought) -> Result<Option<Outcome>, AllocError> {
    let rule = rule_of(alloc, sought.0, sought.1, sought.2)?;
    Ok(settled(&rule, sought.3))
}

#[test]
fn the_last_member_is_found_within_the_budget_or_not(rt: HostRuntime) {
    for (sought, expected) in ROWS {
        assert_eq!(rt; outcome(rt.alloc(), sought), Ok(Some(expected)));
    }
}
