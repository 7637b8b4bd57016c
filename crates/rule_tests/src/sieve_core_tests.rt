ghost use Rattle.std.specs.Prelude.{IfSome};
ghost use Rattle.moment_core.specs.Line.{IsWorkingMoment};
ghost use Rattle.sieve_core.specs.Sieves.{IsSieve};

use crate::sieves::{
    ALL_HOURS, ALL_SIXTY, EACH, MIDNIGHT, any_day, in_months, in_weeks, is_sieve, member_by_steps,
    midnights, on_nth, on_weekdays, on_year_day, ranked, ranks, timed, weekday,
};
use moment_core::{Dir, HIGH, LOW, Moment, REACH, Step, Unit, in_work};
use sieve_core::{DayTest, Sieve};
use std::process::Abort;

// The next member in the direction, found month by month.
fn member_by_months(sieve: &Sieve, dir: Dir, from: Moment) -> Option<Moment>
    requires sieve { IsSieve sieve.now }
    requires moment { IsWorkingMoment from.0 }
    ensures { IfSome result (λ t. IsWorkingMoment t.0) }
{
    match dir {
        Dir::Fore => sieve.next_member(from),
        Dir::Back => sieve.previous_member(from),
    }
}

// The next three members in the direction, found candidate by candidate.
fn next_three(sieve: &Sieve, dir: Dir, from: Moment) -> [i64; 3]
    requires sieve { IsSieve sieve.now }
    requires moment { IsWorkingMoment from.0 }
{
    let mut found = [0; 3];
    let mut at = from;
    for i in 0..3usize {
        if let Some(t) = member_by_steps(sieve, dir, at) {
            found[i] = t.0;
            at = t;
        }
    }
    found
}

// The same month by month.
fn next_three_by_months(sieve: &Sieve, dir: Dir, from: Moment) -> [i64; 3]
    requires sieve { IsSieve sieve.now }
    requires moment { IsWorkingMoment from.0 }
{
    let mut found = [0; 3];
    let mut at = from;
    for i in 0..3usize {
        if let Some(t) = member_by_months(sieve, dir, at) {
            found[i] = t.0;
            at = t;
        }
    }
    found
}

/// The next three members after the moment and before it, as they are found among all days by
/// python3's dates, those outside the years 1 to 9999 moved by multiples of 400 years.
fn meets(rt: &impl Abort, sieve: Sieve, from: i64, after: [i64; 3], before: [i64; 3]) {
    let from = Moment(from);
    assert!(rt; is_sieve(&sieve));
    assert!(rt; in_work(from));
    assert_eq!(rt;
        next_three(&sieve, Dir::Fore, from),
        after,
        "after {from:?}"
    );
    assert_eq!(rt;
        next_three(&sieve, Dir::Back, from),
        before,
        "before {from:?}"
    );
    assert_eq!(rt;
        next_three_by_months(&sieve, Dir::Fore, from),
        after,
        "members after {from:?}"
    );
    assert_eq!(rt;
        next_three_by_months(&sieve, Dir::Back, from),
        before,
        "members before {from:?}"
    );
}

#[test]
fn walks_meet_the_members_of_years_both_ways(rt: HostRuntime) {
    // every fourth year, 29 February
    meets(
        &rt,
        midnights(Unit::Year, (4, 2000), in_months(1 << 2, 1 << 29)),
        -2_330_121_600,
        [-2_077_747_200, -1_951_516_800, -1_825_286_400],
        [-2_456_352_000, -2_582_582_400, -2_708_812_800],
    );
    // every third year below the year 0, the last of June at noon
    meets(
        &rt,
        timed(
            Unit::Year,
            (3, -4),
            in_months(1 << 6, 1 << 33),
            (1 << 12, 1, 1),
        ),
        -62_277_768_000,
        [-62_183_160_000, -62_088_465_600, -61_993_771_200],
        [-62_372_462_400, -62_467_156_800, -62_561_851_200],
    );
    // the last day of leap years, which is the 366th
    meets(
        &rt,
        midnights(Unit::Year, EACH, on_year_day(366)),
        -2_293_228_800,
        [-2_051_308_800, -1_925_078_400, -1_798_848_000],
        [-2_303_683_200, -2_429_913_600, -2_556_144_000],
    );
    // the first day of leap years, which is the 366th from the end
    meets(
        &rt,
        midnights(Unit::Year, EACH, on_year_day(750)),
        -62_198_755_200,
        [-62_167_219_200, -62_040_988_800, -61_914_758_400],
        [-62_293_449_600, -62_419_680_000, -62_545_910_400],
    );
    // the twentieth Monday of the year
    meets(
        &rt,
        midnights(Unit::Year, EACH, on_nth(1, 20, false)),
        864_000_000,
        [895_449_600, 926_899_200, 958_348_800],
        [831_945_600, 800_496_000, 769_046_400],
    );
    // the 53rd Sunday of the year from its end
    meets(
        &rt,
        midnights(Unit::Year, EACH, on_nth(7, 117, false)),
        946_684_800,
        [946_771_200, 1_136_073_600, 1_325_376_000],
        [788_918_400, 599_616_000, 441_763_200],
    );
}

#[test]
fn walks_meet_the_members_of_week_years_both_ways(rt: HostRuntime) {
    // weeks 53 from Monday on, on Thursdays
    meets(
        &rt,
        midnights(
            Unit::WeekYear(weekday(1)),
            EACH,
            in_weeks(1, [1 << 53, 0], 1 << 4),
        ),
        1_609_372_800,
        [1_798_675_200, 1_987_977_600, 2_145_830_400],
        [1_451_520_000, 1_262_217_600, 1_104_364_800],
    );
    // last weeks from Sunday on, on Saturdays
    meets(
        &rt,
        midnights(
            Unit::WeekYear(weekday(7)),
            EACH,
            in_weeks(7, [0, 1 << 1], 1 << 6),
        ),
        -74_790_000_000,
        [-74_758_550_400, -74_727_100_800, -74_695_651_200],
        [-74_821_449_600, -74_852_899_200, -74_884_953_600],
    );
    // every fifth week-year, Monday of week 1
    meets(
        &rt,
        midnights(
            Unit::WeekYear(weekday(1)),
            (5, 2020),
            in_weeks(1, [1 << 1, 0], 1 << 1),
        ),
        1_577_664_000,
        [1_735_516_800, 1_893_369_600, 2_051_222_400],
        [1_419_811_200, 1_262_563_200, 1_104_710_400],
    );
}

#[test]
fn walks_meet_the_members_of_months_both_ways(rt: HostRuntime) {
    // every fifth month, its last day
    meets(
        &rt,
        midnights(Unit::Month, (5, 24_289), in_months(0, 1 << 33)),
        1_709_164_800,
        [1_722_384_000, 1_735_603_200, 1_748_649_600],
        [1_696_032_000, 1_682_812_800, 1_669_766_400],
    );
    // every seventh month, on the 31st, below the year 0
    meets(
        &rt,
        midnights(Unit::Month, (7, -108_000), in_months(0, 1 << 31)),
        -346_177_152_000,
        [-346_158_835_200, -346_140_518_400, -346_122_028_800],
        [-346_287_657_600, -346_306_060_800, -346_324_550_400],
    );
    // the last Friday of the month
    meets(
        &rt,
        midnights(Unit::Month, EACH, on_nth(5, 65, true)),
        1_703_808_000,
        [1_706_227_200, 1_708_646_400, 1_711_670_400],
        [1_700_784_000, 1_698_364_800, 1_695_945_600],
    );
    // the second Tuesday of the month, and each Sunday
    meets(
        &rt,
        midnights(
            Unit::Month,
            EACH,
            DayTest {
                week_days: 1 << 7,
                ..on_nth(2, 2, true)
            },
        ),
        1_707_782_400,
        [1_708_214_400, 1_708_819_200, 1_709_424_000],
        [1_707_609_600, 1_707_004_800, 1_706_400_000],
    );
    // Friday the thirteenth
    meets(
        &rt,
        midnights(
            Unit::Month,
            EACH,
            DayTest {
                month_days: 1 << 13,
                ..on_weekdays(1 << 5)
            },
        ),
        1_726_185_600,
        [1_734_048_000, 1_749_772_800, 1_770_940_800],
        [1_697_155_200, 1_673_568_000, 1_652_400_000],
    );
}

#[test]
fn walks_meet_the_members_of_weeks_and_days_both_ways(rt: HostRuntime) {
    // every second week from Monday on, Tuesday and Sunday
    meets(
        &rt,
        timed(
            Unit::Week(weekday(1)),
            (2, 1440),
            on_weekdays(0b10000100),
            (1 << 9, 1, 1),
        ),
        871_203_600,
        [871_376_400, 871_808_400, 872_586_000],
        [870_598_800, 870_166_800, 869_389_200],
    );
    // every second week from Sunday on, Tuesday and Sunday
    meets(
        &rt,
        timed(
            Unit::Week(weekday(7)),
            (2, 1439),
            on_weekdays(0b10000100),
            (1 << 9, 1, 1),
        ),
        871_808_400,
        [871_981_200, 873_018_000, 873_190_800],
        [870_771_600, 870_598_800, 869_562_000],
    );
    // every third day at 09:30, before the first day of all
    meets(
        &rt,
        timed(Unit::Day, (3, 2), any_day(), (1 << 9, 1 << 30, 1)),
        -43_200,
        [207_000, 466_200, 725_400],
        [-52_200, -311_400, -570_600],
    );
}

#[test]
fn walks_meet_the_members_of_hours_minutes_and_seconds_both_ways(rt: HostRuntime) {
    // every fifth hour at half past
    meets(
        &rt,
        timed(Unit::Hour, (5, -7), any_day(), (ALL_HOURS, 1 << 30, 1)),
        -1800,
        [12_600, 30_600, 48_600],
        [-5400, -23_400, -41_400],
    );
    // every 90th minute, 15 seconds past it, in April
    meets(
        &rt,
        timed(
            Unit::Minute,
            (90, 0),
            in_months(1 << 4, 0),
            (ALL_HOURS, ALL_SIXTY, 1 << 15),
        ),
        1_711_929_600,
        [1_711_929_615, 1_711_935_015, 1_711_940_415],
        [1_682_893_815, 1_682_888_415, 1_682_883_015],
    );
    // every twentieth minute from 9 to 16
    meets(
        &rt,
        timed(Unit::Minute, (20, 0), any_day(), (0xFF << 9, ALL_SIXTY, 1)),
        873_218_400,
        [873_277_200, 873_278_400, 873_279_600],
        [873_217_200, 873_216_000, 873_214_800],
    );
    // every seventh second of a minute a day, below the year 0
    meets(
        &rt,
        timed(
            Unit::Second,
            (7, 3),
            any_day(),
            (1 << 23, 1 << 59, ALL_SIXTY),
        ),
        -62_167_219_205,
        [-62_167_219_202, -62_167_132_857, -62_167_132_850],
        [-62_167_219_209, -62_167_219_216, -62_167_219_223],
    );
}

// The last member among so many candidates after the moment, by a search that takes its ranks
// along.
fn last_known(sieve: &Sieve, from: Moment, candidates: u32) -> i64
    requires sieve { IsSieve sieve.now }
    requires moment { IsWorkingMoment from.0 }
{
    let mut at = from;
    let mut last = 0;
    let mut known = None;
    for _ in 0..candidates {
        match sieve.after_known(at, &mut known) {
            Step::Hit(t) => {
                at = t;
                last = t.0;
            }
            Step::Pass(t) => at = t,
            Step::End => return last,
        }
    }
    last
}

fn meets_known(rt: &impl Abort, sieve: Sieve, from: i64, candidates: u32, last: i64) {
    let from = Moment(from);
    assert!(rt; is_sieve(&sieve));
    assert!(rt; in_work(from));
    assert_eq!(rt; last_known(&sieve, from, candidates), last);
}

#[test]
fn a_search_that_takes_its_ranks_along_meets_the_same_members(rt: HostRuntime) {
    // the last workday but one of the month
    let hours = (1 << 9, 1, 1);
    let month = ranked(Unit::Month, on_weekdays(0b111110), hours, ranks(386, 386));
    meets_known(&rt, month, 875_523_600, 180, 883_472_400);
    // the hundredth workday of the year
    let year = ranked(Unit::Year, on_weekdays(0b111110), MIDNIGHT, ranks(100, 100));
    meets_known(&rt, year, -62_469_705_600, 800, -62_407_670_400);
}

#[test]
fn walks_meet_the_members_of_ranks_both_ways(rt: HostRuntime) {
    // the last workday but one of the month
    meets(
        &rt,
        ranked(
            Unit::Month,
            on_weekdays(0b111110),
            (1 << 9, 1, 1),
            ranks(386, 386),
        ),
        875_523_600,
        [878_202_000, 880_621_200, 883_472_400],
        [872_758_800, 870_253_200, 867_402_000],
    );
    // the hundredth workday of the year
    meets(
        &rt,
        ranked(Unit::Year, on_weekdays(0b111110), MIDNIGHT, ranks(100, 100)),
        -62_469_705_600,
        [-62_439_206_400, -62_407_670_400, -62_376_048_000],
        [-62_470_915_200, -62_502_364_800, -62_533_900_800],
    );
    // the second time of a week from Wednesday on
    meets(
        &rt,
        ranked(
            Unit::Week(weekday(3)),
            any_day(),
            (1 << 8 | 1 << 20, 1 << 0 | 1 << 30, 1),
            ranks(2, 2),
        ),
        1_704_270_600,
        [1_704_875_400, 1_705_480_200, 1_706_085_000],
        [1_703_665_800, 1_703_061_000, 1_702_456_200],
    );
    // the last but two of the times of a day
    meets(
        &rt,
        ranked(
            Unit::Day,
            any_day(),
            (1 << 1 | 1 << 5 | 1 << 21, 1 << 10 | 1 << 20, 1),
            ranks(387, 387),
        ),
        -62_162_035_200,
        [-62_162_016_000, -62_161_929_600, -62_161_843_200],
        [-62_162_102_400, -62_162_188_800, -62_162_275_200],
    );
    // the first met second of an hour
    meets(
        &rt,
        ranked(
            Unit::Hour,
            any_day(),
            (ALL_HOURS, 0b11 << 58, 0b11 << 58),
            ranks(1, 1),
        ),
        946_684_738,
        [946_688_338, 946_691_938, 946_695_538],
        [946_681_138, 946_677_538, 946_673_938],
    );
    // days 100 and -1 of the week-years from Sunday on
    meets(
        &rt,
        ranked(
            Unit::WeekYear(weekday(7)),
            any_day(),
            MIDNIGHT,
            ranks(100, 385),
        ),
        1_451_606_400,
        [1_451_692_800, 1_460_332_800, 1_483_142_400],
        [1_428_883_200, 1_420_243_200, 1_396_828_800],
    );
}

/// The first and the last member of the sieve, by python3's dates.
fn ends(rt: &impl Abort, sieve: Sieve, first: i64, last: i64) {
    let bottom = Moment(LOW - REACH);
    let top = Moment(HIGH + REACH);
    let (first, last) = (Moment(first), Moment(last));
    assert!(rt; is_sieve(&sieve));
    assert!(rt; in_work(first));
    assert!(rt; in_work(last));
    assert!(rt; sieve.test(first) && sieve.test(last));
    assert_eq!(rt; member_by_steps(&sieve, Dir::Fore, bottom), Some(first));
    assert_eq!(rt;
        member_by_steps(&sieve, Dir::Back, first),
        None,
        "before {first:?}"
    );
    assert_eq!(rt; member_by_steps(&sieve, Dir::Back, top), Some(last));
    assert_eq!(rt;
        member_by_steps(&sieve, Dir::Fore, last),
        None,
        "after {last:?}"
    );
    assert_eq!(rt; member_by_months(&sieve, Dir::Fore, bottom), Some(first));
    assert_eq!(rt;
        member_by_months(&sieve, Dir::Back, first),
        None,
        "before {first:?}"
    );
    assert_eq!(rt; member_by_months(&sieve, Dir::Back, top), Some(last));
    assert_eq!(rt;
        member_by_months(&sieve, Dir::Fore, last),
        None,
        "after {last:?}"
    );
}

// The working range runs from -9990-01-23T00:00:00 to 9990-12-09T23:59:59.
#[test]
fn walks_by_days_end_with_the_working_range(rt: HostRuntime) {
    // every fourth year, 29 February: -9988-02-29T00:00:00, 9988-02-29T00:00:00
    ends(
        &rt,
        midnights(Unit::Year, (4, 0), in_months(1 << 2, 1 << 29)),
        -377_352_950_400,
        253_028_707_200,
    );
    // the last day of each month: -9990-01-31T00:00:00, 9990-11-30T00:00:00
    ends(
        &rt,
        midnights(Unit::Month, EACH, in_months(0, 1 << 33)),
        -377_418_528_000,
        253_115_539_200,
    );
    // every second week from Monday on, the last second of Thursday: -9990-01-28T23:59:59,
    // 9990-11-29T23:59:59
    ends(
        &rt,
        timed(
            Unit::Week(weekday(1)),
            (2, 0),
            on_weekdays(1 << 4),
            (1 << 23, 1 << 59, 1 << 59),
        ),
        -377_418_700_801,
        253_115_539_199,
    );
    // weeks 53 from Sunday on, on Saturdays: -9985-01-03T00:00:00, 9987-01-03T00:00:00
    ends(
        &rt,
        midnights(
            Unit::WeekYear(weekday(7)),
            EACH,
            in_weeks(7, [1 << 53, 0], 1 << 6),
        ),
        -377_263_180_800,
        252_992_246_400,
    );
}

#[test]
fn walks_by_times_end_with_the_working_range(rt: HostRuntime) {
    // every fifth hour at half past: -9990-01-23T02:30:00, 9990-12-09T22:30:00
    ends(
        &rt,
        timed(Unit::Hour, (5, 0), any_day(), (ALL_HOURS, 1 << 30, 1)),
        -377_419_210_200,
        253_116_397_800,
    );
    // the last time of each day: -9990-01-23T17:00:00, 9990-12-09T17:00:00
    ends(
        &rt,
        ranked(
            Unit::Day,
            any_day(),
            (1 << 9 | 1 << 17, 1, 1),
            ranks(385, 385),
        ),
        -377_419_158_000,
        253_116_378_000,
    );
    // every seventh second: -9990-01-23T00:00:02, 9990-12-09T23:59:57
    ends(
        &rt,
        timed(
            Unit::Second,
            (7, 0),
            any_day(),
            (ALL_HOURS, ALL_SIXTY, ALL_SIXTY),
        ),
        -377_419_219_198,
        253_116_403_197,
    );
}

#[test]
fn walks_by_ranks_end_with_the_working_range(rt: HostRuntime) {
    // the last day of the year by rank: -9990-12-31T00:00:00, 9989-12-31T00:00:00
    ends(
        &rt,
        ranked(Unit::Year, any_day(), MIDNIGHT, ranks(385, 385)),
        -377_389_670_400,
        253_086_681_600,
    );
    // the hundredth day by rank: -9990-04-10T00:00:00, 9990-04-10T00:00:00
    ends(
        &rt,
        ranked(Unit::Year, any_day(), MIDNIGHT, ranks(100, 100)),
        -377_412_566_400,
        253_095_321_600,
    );
}

// On the 13th of months, in these hours.
fn thirteenths(turn: (u32, i64), hours: u32) -> Sieve {
    timed(Unit::Month, turn, in_months(0, 1 << 13), (hours, 1, 1))
}

// From 2024-01-13T09:00:00 to 2024-02-13.
fn short() -> Sieve {
    Sieve {
        first: Moment(1_705_136_400),
        last: Moment(1_707_782_400),
        ..thirteenths(EACH, 1 << 9)
    }
}

/// The steps from the moment on and back.
fn steps(rt: &impl Abort, sieve: Sieve, t: i64, after: Step, before: Step) {
    let t = Moment(t);
    assert!(rt; is_sieve(&sieve));
    assert!(rt; in_work(t));
    assert_eq!(rt; sieve.after(t), after, "after {t:?}");
    assert_eq!(rt; sieve.before(t), before, "before {t:?}");
}

// On the 13th of January 2024 at 09:00: midnights are passed, and so is a time that the interval
// leaves out.
#[test]
fn steps_stop_at_midnights_and_at_times_that_are_met(rt: HostRuntime) {
    // 12 January, 10:00
    steps(
        &rt,
        thirteenths(EACH, 1 << 9),
        1_705_053_600,
        Step::Pass(Moment(1_705_104_000)),
        Step::Pass(Moment(1_705_017_600)),
    );
    // 13 January, midnight
    steps(
        &rt,
        thirteenths(EACH, 1 << 9),
        1_705_104_000,
        Step::Hit(Moment(1_705_136_400)),
        Step::Pass(Moment(1_705_017_600)),
    );
    steps(
        &rt,
        thirteenths((2, 1), 1 << 9),
        1_705_104_000,
        Step::Pass(Moment(1_705_136_400)),
        Step::Pass(Moment(1_705_017_600)),
    );
    steps(
        &rt,
        thirteenths(EACH, 0),
        1_705_104_000,
        Step::Pass(Moment(1_705_190_400)),
        Step::Pass(Moment(1_705_017_600)),
    );
    // 14 January, midnight
    steps(
        &rt,
        thirteenths(EACH, 1 << 9),
        1_705_190_400,
        Step::Pass(Moment(1_705_276_800)),
        Step::Hit(Moment(1_705_136_400)),
    );
}

#[test]
fn steps_stop_before_the_first_moment_and_after_the_last(rt: HostRuntime) {
    steps(&rt, short(), 0, Step::Hit(Moment(1_705_136_400)), Step::End);
    steps(
        &rt,
        short(),
        1_709_251_200,
        Step::End,
        Step::Pass(Moment(1_707_782_400)),
    );
}
