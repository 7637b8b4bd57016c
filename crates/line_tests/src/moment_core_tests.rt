ghost use Rattle.std.specs.Prelude.{◌≡◌, ◌<◌};

use moment_core::{Clock, Moment, Pos, Stamp, Steps, Weekday, floor, in_range, in_work, of};
use std::marker::Brand;
use std::sync::ledger::{Blank, Ledger};

#[test]
fn a_position_is_twice_its_moment_and_rounds_down_to_it(rt: HostRuntime) {
    for (moment, position, next_position) in [(-2, -4, -3), (-1, -2, -1), (0, 0, 1), (7, 14, 15)] {
        assert_eq!(rt; of(Moment(moment)), Pos(position));
        assert_eq!(rt; floor(Pos(position)), Moment(moment));
        assert_eq!(rt; floor(Pos(next_position)), Moment(moment));
    }
}

// `date -u -d 9900-12-31T23:59:59 +%s` gives the last moment of the calendar range; python3's dates
// give the first one, moved by 12,000 years, which are 30 times 146,097 days.
#[test]
fn the_ranges_hold_their_ends_and_no_more(rt: HostRuntime) {
    for (moment, ranged, working) in [
        (-377_419_219_201, false, false),
        (-377_419_219_200, false, true),
        (-374_580_979_201, false, true),
        (-374_580_979_200, true, true),
        (250_278_163_199, true, true),
        (250_278_163_200, false, true),
        (253_116_403_199, false, true),
        (253_116_403_200, false, false),
    ] {
        assert_eq!(rt; in_range(Moment(moment)), ranged, "at {moment}");
        assert_eq!(rt; in_work(Moment(moment)), working, "at {moment}");
    }
}

#[test]
fn a_weekday_is_one_of_seven(rt: HostRuntime) {
    for (number, there) in [(0, false), (1, true), (7, true), (8, false)] {
        let day = Weekday::new(number);
        assert_eq!(rt; day.is_some(), there, "at {number}");
        if let Some(day) = day {
            assert_eq!(rt; day.number(), number);
        }
    }
}

#[test]
fn any_clock_gives_way_and_two_decided_ones_must_agree(rt: HostRuntime) {
    let clocks = [Clock::Any, Clock::Floating, Clock::Absolute];
    for clock in clocks {
        assert_eq!(rt; clock.common(clock), Some(clock));
        assert_eq!(rt; clock.common(Clock::Any), Some(clock));
        assert_eq!(rt; Clock::Any.common(clock), Some(clock));
        assert_eq!(rt; clock.is_absolute(), clock == Clock::Absolute);
    }
    assert_eq!(rt; Clock::Floating.common(Clock::Absolute), None);
    assert_eq!(rt; Clock::Absolute.common(Clock::Floating), None);
    for (absolute, clock) in [(false, Clock::Floating), (true, Clock::Absolute)] {
        let moment = Moment(0);
        assert_eq!(rt; Stamp { moment, absolute }.clock(), clock);
    }
}

fn drop_after_two_steps<L: Ledger>(steps: Steps<L>)
    requires { steps ≡ 2 }
{
    drop(steps);
}

fn take_two_steps<L: Ledger>(blank: Blank)
    requires name { blank.name ≡ L.name }
    requires parts { blank.parts ≡ L.parts }
    requires some { 0 < blank.parts }
{
    let mut steps = Steps::<L>::new(blank);
    steps.tick();
    steps.tick();
    drop_after_two_steps(steps);
}

#[test]
fn a_counter_from_a_blank_stands_at_two_after_two_ticks() {
    take_two_steps::<Brand>(Blank::new(1));
}
