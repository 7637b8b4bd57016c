ghost use Rattle.std.specs.Prelude.{◌≡◌, ◌<◌};

use crate::neighbours::{Near, near};
use crate::rules::{Given, bare_field, give_field};
use field_rules::{FieldLeaf, lower_field};
use moment_core::{Moment, in_range};
use rule_core::{FieldRule, Freq, Part};
use std::alloc::{AllocError, Global};
use std::marker::Brand;
use std::sync::ledger::{Blank, Ledger};
use stored_pair::Guarded;

fn rule_of(alloc: Global, freq: Freq, fields: &[Given]) -> Result<FieldRule, AllocError> {
    let mut rule = bare_field(alloc, freq);
    for field in fields {
        give_field(alloc, &mut rule, *field)?;
    }
    Ok(rule)
}

fn lowered(rule: &FieldRule) -> Option<Guarded<FieldLeaf>> {
    let start = match rule.start {
        Some(stamp) => stamp.moment,
        None => Moment(0),
    };
    if !in_range(start) {
        return None;
    }
    match rule.check() {
        Ok(()) => Some(lower_field(rule)),
        Err(_) => None,
    }
}

fn near_rule<L: Ledger>(
    alloc: Global,
    blank: Blank,
    freq: Freq,
    fields: &[Given],
    from: i64,
) -> Result<Near, AllocError>
    requires name { blank.name ≡ L.name }
    requires parts { blank.parts ≡ L.parts }
    requires some { 0 < blank.parts }
{
    let rule = rule_of(alloc, freq, fields)?;
    match lowered(&rule) {
        Some(leaf) => Ok(near::<FieldLeaf, L>(&leaf, blank, from)),
        None => Ok((None, None)),
    }
}

/// The frequency, the fields, and a moment.
type Row<'a> = (Freq, &'a [Given<'a>], i64, Near);

#[test]
fn members_lie_where_another_calendar_puts_them(rt: HostRuntime) {
    const ROWS: &[Row<'static>] = &[
        (
            Freq::Monthly,
            &[(Part::Days, &[-1])],
            1_706_745_600,
            (Some(1_706_659_200), Some(1_709_164_800)),
        ),
        (
            Freq::Yearly,
            &[(Part::Months, &[2]), (Part::Days, &[30])],
            1_704_067_200,
            (None, None),
        ),
        (
            Freq::Weekly,
            &[
                (Part::Days, &[-1]),
                (Part::Interval, &[2]),
                (Part::Start, &[1_704_067_200]),
            ],
            1_704_067_200,
            (Some(1_703_376_000), Some(1_704_585_600)),
        ),
        (
            Freq::Weekly,
            &[
                (Part::Days, &[1]),
                (Part::Interval, &[2]),
                (Part::Start, &[1_704_240_000]),
                (Part::WeekStart, &[7]),
            ],
            1_704_153_600,
            (Some(1_704_067_200), Some(1_705_276_800)),
        ),
        (
            Freq::Yearly,
            &[(Part::Weeks, &[53])],
            1_609_459_200,
            (Some(1_609_113_600), Some(1_798_416_000)),
        ),
        (
            Freq::Yearly,
            &[(Part::Days, &[366])],
            1_717_200_000,
            (Some(1_609_372_800), Some(1_735_603_200)),
        ),
        (
            Freq::Daily,
            &[(Part::Hours, &[-1]), (Part::Minutes, &[30])],
            1_710_028_800,
            (Some(1_710_027_000), Some(1_710_113_400)),
        ),
        (
            Freq::Hourly,
            &[(Part::Minutes, &[-15])],
            1_710_049_500,
            (Some(1_710_045_900), Some(1_710_053_100)),
        ),
        (
            Freq::Minutely,
            &[(Part::Interval, &[11])],
            0,
            (Some(-660), Some(660)),
        ),
        (
            Freq::Secondly,
            &[(Part::Interval, &[13])],
            0,
            (Some(-13), Some(13)),
        ),
    ];
    for (freq, fields, from, expected) in ROWS {
        let found = near_rule::<Brand>(rt.alloc(), Blank::new(1), *freq, fields, *from);
        assert_eq!(rt; found, Ok(*expected));
    }
}
