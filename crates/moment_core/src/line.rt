ghost use Rattle.std.specs.Prelude.{◌≡◌, ◌↔◌, IsTrue};
ghost use Rattle.moment_core.specs.Line.{IsCalendarMoment, IsWorkingMoment, moment_of, position_of};

/// The first moment of the calendar range, -9900-01-01T00:00:00.
pub const LOW: i64 = -374_580_979_200;

/// The last moment of the calendar range, 9900-12-31T23:59:59.
pub const HIGH: i64 = 250_278_163_199;

/// How many moments the calendar range has.
pub const WIDTH: u64 = 624_859_142_400;

/// How many seconds the working range goes on past the calendar range at either end.
pub const REACH: i64 = 2_838_240_000;

/// The seconds of 400 years, after which dates and weekdays repeat.
pub const G: u64 = 12_622_780_800;

/// A whole number of seconds from 1970-01-01T00:00:00, without leap seconds.
#[derive(Clone, Copy, Debug, PartialEq, Eq, PartialOrd, Ord)]
pub struct Moment(pub i64);

/// A place on the line: `2t` is the moment `t`, and `2t + 1` is the open second after it.
#[derive(Clone, Copy, Debug, PartialEq, Eq, PartialOrd, Ord)]
pub struct Pos(pub i64);

/// Which way a search goes.
#[derive(Clone, Copy, Debug, PartialEq, Eq)]
pub enum Dir {
    Fore,
    Back,
}

/// Whose clock shows a moment: any, a local one, or that of UTC.
#[derive(Clone, Copy, Debug, PartialEq, Eq)]
pub enum Clock {
    Any,
    Floating,
    Absolute,
}

/// A moment as it was written: absolute with a `Z`, floating without.
#[derive(Clone, Copy, Debug, PartialEq, Eq)]
pub struct Stamp {
    pub moment: Moment,
    pub absolute: bool,
}

/// The positions from `lo` to `hi`, both included.
#[derive(Clone, Copy, Debug, PartialEq, Eq)]
pub struct Window {
    pub lo: Pos,
    pub hi: Pos,
}

/// The next candidate of a recurrence: a member, a candidate that is no member, or none is left.
#[derive(Clone, Copy, Debug, PartialEq, Eq)]
pub enum Step {
    Hit(Moment),
    Pass(Moment),
    End,
}

/// Whether the moment is in the calendar range.
pub fn in_range(t: Moment) -> bool
    ensures { IsTrue result ↔ IsCalendarMoment t.0 }
{
    LOW <= t.0 && t.0 <= HIGH
}

/// Whether the moment is in the working range, which goes `REACH` seconds past the calendar range.
pub fn in_work(t: Moment) -> bool
    ensures { IsTrue result ↔ IsWorkingMoment t.0 }
{
    LOW - REACH <= t.0 && t.0 <= HIGH + REACH
}

/// The position of a moment.
pub fn of(t: Moment) -> Pos
    requires { IsWorkingMoment t.0 }
    ensures { result.0 ≡ position_of t.0 }
{
    Pos(2 * t.0)
}

/// The moment at or before a position: the greatest `t` with `2t` at most the position.
pub fn floor(p: Pos) -> Moment
    ensures { result.0 ≡ moment_of p.0 }
{
    Moment(p.0.div_euclid(2))
}
