use moment_core::{Moment, Unit, Weekday};

/// A test of days by tables of bits.
///
/// A signed table has the number `v` at bit `v`, and `-v`, which counts from the end, at bit `half
/// + v`, where `half` is half the table's bits. An all-zero table tests nothing.
#[derive(Clone, Copy, Debug, PartialEq, Eq)]
pub struct DayTest {
    /// The month `m` at bit `m`.
    pub months: u16,
    /// The weeks of the week-year, signed.
    pub weeks: [u64; 2],
    /// The weekday on which the weeks of `weeks` begin.
    pub first: Weekday,
    /// The days of the year, signed.
    pub year_days: [u64; 12],
    /// The days of the month, signed.
    pub month_days: u64,
    /// The weekday `w` at bit `w`.
    pub week_days: u8,
    /// For each weekday, from Monday on, which such days are meant, signed. A day meets `week_days`
    /// and `nth` together where it meets either; they test nothing where both are zero.
    pub nth: [[u64; 2]; 7],
    /// Whether `nth` counts the weekdays of a month, or else those of a year.
    pub nth_in_month: bool,
}

/// The ranks within a unit, signed; all zero means that there is no test of the rank.
#[derive(Clone, Copy, Debug, PartialEq, Eq)]
pub struct RankSet(pub [u64; 12]);

/// A set of moments, and the candidates among which they are found.
#[derive(Clone, Copy, Debug, PartialEq, Eq)]
pub struct Sieve {
    /// The unit that `interval` and `rank` speak of.
    pub unit: Unit,
    /// Only every so many units hold members.
    pub interval: u32,
    /// The number of such a unit.
    pub phase: i64,
    pub days: DayTest,
    /// The hour `h` at bit `h`; without bits, no moment is met.
    pub hours: u32,
    /// The minute `m` at bit `m`.
    pub minutes: u64,
    /// The second `s` at bit `s`.
    pub seconds: u64,
    pub rank: RankSet,
    /// The first moment that may be a candidate.
    pub first: Moment,
    /// The last moment that may be a candidate.
    pub last: Moment,
}
