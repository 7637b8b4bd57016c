ghost use Rattle.std.specs.Prelude.{◌≡◌, ◌<◌, true, IfSome};
ghost use Rattle.std.specs.Int.{IsInRange};
ghost use Rattle.moment_core.specs.Line.{IsWorkingMoment};
ghost use Rattle.moment_core.specs.Steps.{IsNextStep};
ghost use Rattle.sieve_core.specs.Members.{has, is_candidate};
ghost use Rattle.sieve_core.specs.Sieves.{IsSieve};

use moment_core::{Dir, HIGH, LOW, Moment, REACH, Step, Unit, Weekday};
use sieve_core::{DayTest, RankSet, Sieve};

/// The hours, the minutes and the seconds of a sieve.
pub(crate) type Times = (u32, u64, u64);

pub(crate) const MIDNIGHT: Times = (1, 1, 1);

pub(crate) const ALL_HOURS: u32 = 0xFF_FFFF;

pub(crate) const ALL_SIXTY: u64 = 0xFFF_FFFF_FFFF_FFFF;

/// An interval and a phase.
pub(crate) const EACH: (u32, i64) = (1, 0);

/// No rank, and in the whole working range.
pub(crate) fn timed(unit: Unit, turn: (u32, i64), days: DayTest, times: Times) -> Sieve {
    Sieve {
        unit,
        interval: turn.0,
        phase: turn.1,
        days,
        hours: times.0,
        minutes: times.1,
        seconds: times.2,
        rank: RankSet([0; 12]),
        first: Moment(LOW - REACH),
        last: Moment(HIGH + REACH),
    }
}

pub(crate) fn midnights(unit: Unit, turn: (u32, i64), days: DayTest) -> Sieve {
    timed(unit, turn, days, MIDNIGHT)
}

/// In every unit the moments of these ranks.
pub(crate) fn ranked(unit: Unit, days: DayTest, times: Times, rank: RankSet) -> Sieve {
    Sieve {
        rank,
        ..timed(unit, EACH, days, times)
    }
}

pub(crate) fn is_sieve(sieve: &Sieve) -> bool
    ensures { result ≡ true → IsSieve sieve.now }
{
    sieve.interval >= 1 && LOW <= sieve.phase && sieve.phase <= HIGH
}

pub(crate) fn weekday(number: u8) -> Weekday
    requires { IsInRange 1 7 number }
{
    Weekday::new(number).unwrap()
}

// A table of these two bits.
fn table(a: usize, b: usize) -> [u64; 12]
    requires a { a < 768 }
    requires b { b < 768 }
{
    let mut words = [0; 12];
    words[a / 64] |= 1 << (a % 64);
    words[b / 64] |= 1 << (b % 64);
    words
}

pub(crate) fn ranks(a: usize, b: usize) -> RankSet
    requires a { a < 768 }
    requires b { b < 768 }
{
    RankSet(table(a, b))
}

pub(crate) fn any_day() -> DayTest {
    DayTest {
        months: 0,
        weeks: [0; 2],
        first: weekday(1),
        year_days: [0; 12],
        month_days: 0,
        week_days: 0,
        nth: [[0; 2]; 7],
        nth_in_month: true,
    }
}

pub(crate) fn in_months(months: u16, month_days: u64) -> DayTest {
    DayTest {
        months,
        month_days,
        ..any_day()
    }
}

pub(crate) fn in_weeks(first: u8, weeks: [u64; 2], week_days: u8) -> DayTest
    requires { IsInRange 1 7 first }
{
    DayTest {
        first: weekday(first),
        weeks,
        week_days,
        ..any_day()
    }
}

pub(crate) fn on_weekdays(week_days: u8) -> DayTest {
    DayTest {
        week_days,
        ..any_day()
    }
}

pub(crate) fn on_year_day(bit: usize) -> DayTest
    requires { bit < 768 }
{
    DayTest {
        year_days: table(bit, bit),
        ..any_day()
    }
}

pub(crate) fn on_nth(day: usize, bit: usize, in_month: bool) -> DayTest
    requires day { IsInRange 1 7 day }
    requires bit { bit < 128 }
{
    let mut nth = [[0; 2]; 7];
    nth[day - 1][bit / 64] = 1 << (bit % 64);
    DayTest {
        nth,
        nth_in_month: in_month,
        ..any_day()
    }
}

fn step(sieve: &Sieve, dir: Dir, t: Moment) -> Step
    requires sieve { IsSieve sieve.now }
    requires moment { IsWorkingMoment t.0 }
    ensures { IsNextStep (has sieve.now) (is_candidate sieve.now) dir t.0 result }
{
    match dir {
        Dir::Fore => sieve.after(t),
        Dir::Back => sieve.before(t),
    }
}

/// The next member in the direction, found candidate by candidate, where fewer than 4,000 come
/// before it.
pub(crate) fn member_by_steps(sieve: &Sieve, dir: Dir, from: Moment) -> Option<Moment>
    requires sieve { IsSieve sieve.now }
    requires moment { IsWorkingMoment from.0 }
    ensures { IfSome result (λ t. IsWorkingMoment t.0) }
{
    let mut at = from;
    for _ in 0..4000 {
        match step(sieve, dir, at) {
            Step::Hit(t) => return Some(t),
            Step::Pass(t) => at = t,
            Step::End => return None,
        }
    }
    None
}
