use frame_core::{Frame, join, rule_period, window};
use moment_core::{Dir, G, Pos, WIDTH, Window};

#[test]
fn joined_frames_have_the_outer_ends_and_the_least_common_period(rt: HostRuntime) {
    let two = Frame {
        lo: Pos(-5),
        hi: Pos(9),
        period: 2,
    };
    let three = Frame {
        lo: Pos(-7),
        hi: Pos(4),
        period: 3,
    };
    assert_eq!(rt;
        join(two, three),
        Some(Frame {
            lo: Pos(-7),
            hi: Pos(9),
            period: 6
        })
    );
    assert_eq!(rt;
        join(
            Frame {
                lo: Pos(0),
                hi: Pos(0),
                period: 4
            },
            Frame {
                lo: Pos(1),
                hi: Pos(1),
                period: 6
            }
        ),
        Some(Frame {
            lo: Pos(0),
            hi: Pos(1),
            period: 12
        })
    );
    let widest = Frame {
        lo: Pos(0),
        hi: Pos(0),
        period: WIDTH,
    };
    assert_eq!(rt; join(widest, widest), Some(widest));
    assert_eq!(rt;
        join(
            widest,
            Frame {
                lo: Pos(0),
                hi: Pos(0),
                period: 11
            }
        ),
        None
    );
}

#[test]
fn a_window_lies_in_the_range_to_its_last_position(rt: HostRuntime) {
    let calendar = Frame {
        lo: Pos(0),
        hi: Pos(0),
        period: G,
    };
    let first = Pos(-749_161_958_400);
    let last = Pos(500_556_326_398);
    let upper = Pos(475_310_764_798);
    let lower = Pos(-723_916_396_800);
    assert_eq!(rt;
        window(calendar, upper, Dir::Fore),
        Some(Window {
            lo: upper,
            hi: last
        })
    );
    assert_eq!(rt; window(calendar, Pos(upper.0 + 1), Dir::Fore), None);
    assert_eq!(rt;
        window(calendar, lower, Dir::Back),
        Some(Window {
            lo: first,
            hi: lower
        })
    );
    assert_eq!(rt; window(calendar, Pos(lower.0 - 1), Dir::Back), None);
    assert_eq!(rt; window(calendar, Pos(i64::MAX), Dir::Fore), None);
    assert_eq!(rt; window(calendar, Pos(i64::MIN), Dir::Back), None);
}

#[test]
fn a_window_begins_past_where_the_set_begins_to_repeat(rt: HostRuntime) {
    let moment = Frame {
        lo: Pos(2_082_758_399),
        hi: Pos(2_082_758_401),
        period: 1,
    };
    let above = Some(Window {
        lo: Pos(2_082_758_401),
        hi: Pos(2_082_758_403),
    });
    let below = Some(Window {
        lo: Pos(2_082_758_397),
        hi: Pos(2_082_758_399),
    });
    assert_eq!(rt; window(moment, Pos(2_082_758_401), Dir::Fore), above);
    assert_eq!(rt; window(moment, Pos(2_082_758_395), Dir::Fore), above);
    assert_eq!(rt; window(moment, Pos(2_082_758_400), Dir::Back), below);
}

#[test]
fn rules_repeat_when_both_calendar_and_interval_come_round(rt: HostRuntime) {
    let rows = [
        (400, 4, Some(12_622_780_800)),
        (400, 3, Some(37_868_342_400)),
        (400, 1_000_003, None),
        (4800, 7, Some(88_359_465_600)),
        (20_871, 9, Some(12_622_780_800)),
        (20_871, 49, Some(618_516_259_200)),
        (20_871, 50, None),
        (u64::MAX, u64::MAX, Some(12_622_780_800)),
        (1, u64::MAX, None),
    ];
    for (units, interval, period) in rows {
        assert!(rt; units > 0 && interval > 0);
        assert_eq!(rt; rule_period(units, interval), period);
    }
}
