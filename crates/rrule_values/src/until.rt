//! UNTIL: its forms, the moment that it names, and its written form.

ghost use Rattle.std.specs.Prelude.{◌≡◌, ◌+◌, ◌++◌, ◌<◌, ◌≤◌, ◌^◌, length, neg_ℤ, pos, true, unsigned_abs, ◌+ℤ◌, ◌-ℤ◌, ◌≤ℤ◌};
ghost use Rattle.std.specs.Char.{is_ascii_digit};
ghost use Rattle.std.specs.List.{list_all};
ghost use Rattle.std.specs.Result.{OnOk};
ghost use Rattle.rule_core.specs.IcalChecks.{is_until};
ghost use Rattle.moment_core.specs.Calendar.{day_of_month, month_of, year_of};
ghost use Rattle.moment_core.specs.TimeOfDay.{day_of, hour_of, minute_of, second_of};
ghost use Rattle.moment_core.specs.Line.{IsWorkingMoment};
ghost use Rattle.moment_core.specs.declared.line.TheConstants.{G};
ghost use Rattle.rrule_values.specs.Until.{are_digits, ends_with_z, fields_text, is_date, is_date_time, is_until_text, named, named_by, number_in, two_digits, until_at, until_text, without_z};

use crate::numbers::{all_digits, value};
use moment_core::{G, Moment, Weekday};
use rule_core::rule_laws;
use std::alloc::AllocError;

/// The first second past the year 9999, which stands for numbers that name no moment.
const PAST_THE_YEARS: i64 = 253_402_300_800;

fn are_digits(width: usize, text: &[u8]) -> bool
    ensures { result ≡ are_digits width text.now }
{
    text.len() == width && all_digits(text)
}

#[tactic(auto, unfolding(crate::specs::Until::is_date))]
fn is_date(text: &[u8]) -> bool
    ensures { result ≡ is_date text.now }
{
    are_digits(8, text)
}

#[tactic(auto, unfolding(crate::specs::Until::is_date_time))]
fn is_date_time(text: &[u8]) -> bool
    ensures value { result ≡ is_date_time text.now }
    ensures long { result ≡ true → length text.now ≡ 15 }
{
    text.len() == 15
        && are_digits(8, &text[..8])
        && text[8..9].starts_with(b"T")
        && are_digits(6, &text[9..])
}

/// Whether the text ends with a `Z`, by which UNTIL is absolute.
#[tactic(auto, unfolding(crate::specs::Until::ends_with_z))]
pub fn ends_with_z(text: &[u8]) -> bool
    ensures { result ≡ ends_with_z text.now }
{
    matches!(text, [.., b'Z'])
}

#[tactic(auto, unfolding(crate::specs::Until::without_z, crate::specs::Until::ends_with_z))]
fn without_z(text: &[u8]) -> &[u8]
    ensures { result.now ≡ without_z text.now }
{
    match text {
        [front @ .., b'Z'] => front,
        _ => text,
    }
}

/// Whether the text has a form of UNTIL: a date, as `19971224`, or a date with a time of day, as
/// `19971224T090000`, with a `Z` behind it or without.
#[tactic(auto, unfolding(crate::specs::Until::is_until_text))]
pub fn is_until_text(text: &[u8]) -> bool
    ensures { result ≡ is_until_text text.now }
{
    is_date(text) || is_date_time(without_z(text))
}

/// The number that so many digits write from a place on.
#[tactic(auto, using(crate::proofs::Digits::passes_take, crate::proofs::Digits::passes_drop))]
fn number_in(start: usize, width: usize, digits: &[u8]) -> u64
    requires within { start + width ≤ length digits.now }
    requires few { width ≤ 10 }
    requires digits { list_all is_ascii_digit digits.now ≡ true }
    ensures value { result ≡ number_in start width digits.now }
    ensures small { result < 10 ^ width }
{
    value(&digits[start..][..width])
}

fn put_two_digits(out: &mut Vec<u8>, n: u8) -> Result<(), AllocError>
    requires { n < 100 }
    ensures { OnOk result (out.new.items ≡ out.old.items ++ two_digits n) }
{
    out.push(b'0' + n / 10)?;
    out.push(b'0' + n % 10)?;
    Ok(())
}

// Moments of the years 0000 to 9999 may lie past the working range. 400 years earlier, when dates
// and times of day are the same, they don't.

fn cycle_before(t: Moment) -> Moment
    requires { is_until t ≡ true }
    ensures value { result.0 ≡ t.0 -ℤ pos G }
    ensures working { IsWorkingMoment result.0 }
{
    rule_laws();
    Moment(t.0 - G as i64)
}

fn cycle_past(t: Moment) -> Moment
    requires { IsWorkingMoment t.0 }
    ensures { result.0 ≡ t.0 +ℤ pos G }
{
    Moment(t.0 + G as i64)
}

fn year_before(year: u16) -> i32
    requires { year ≤ 9999 }
    ensures { result ≡ pos year -ℤ pos 400 }
{
    year as i32 - 400
}

fn year_past(year: i32) -> u16
    requires { (neg_ℤ (pos 400) ≤ℤ year) × (year ≤ℤ pos 9599) }
    ensures { pos result ≡ year +ℤ pos 400 }
{
    (year + 400) as u16
}

/// A date of the years 0000 to 9999 and a time of day as they are written. They may name no moment.
#[derive(Drop)]
struct DateTime {
    year: u16,
    month: u8,
    day: u8,
    hour: u8,
    minute: u8,
    second: u8,
    ghost four_digits: { year ≤ 9999 },
    ghost date_digits: { (month < 100) × (day < 100) },
    ghost time_digits: { (hour < 100) × (minute < 100) × (second < 100) },
}

impl DateTime {
    /// What eight digits of a date and six of a time of day write.
    fn read(date: &[u8], time: &[u8]) -> DateTime
        requires date { are_digits 8 date.now ≡ true }
        requires time { are_digits 6 time.now ≡ true }
        ensures year { result.year ≡ number_in 0 4 date.now }
        ensures month { result.month ≡ number_in 4 2 date.now }
        ensures day { result.day ≡ number_in 6 2 date.now }
        ensures hour { result.hour ≡ number_in 0 2 time.now }
        ensures minute { result.minute ≡ number_in 2 2 time.now }
        ensures second { result.second ≡ number_in 4 2 time.now }
    {
        DateTime {
            year: number_in(0, 4, date) as u16,
            month: number_in(4, 2, date) as u8,
            day: number_in(6, 2, date) as u8,
            hour: number_in(0, 2, time) as u8,
            minute: number_in(2, 2, time) as u8,
            second: number_in(4, 2, time) as u8,
        }
    }

    /// Those of a moment of the years 0000 to 9999.
    fn of(t: Moment) -> DateTime
        requires { is_until t ≡ true }
        ensures year { result.year ≡ unsigned_abs (year_of (day_of t.0)) }
        ensures month { result.month ≡ month_of (day_of t.0) }
        ensures day { result.day ≡ day_of_month (day_of t.0) }
        ensures hour { result.hour ≡ hour_of t.0 }
        ensures minute { result.minute ≡ minute_of t.0 }
        ensures second { result.second ≡ second_of t.0 }
    {
        rule_laws();
        let monday = Weekday::new(1).unwrap();
        let parts = civil_core::fields(cycle_before(t), monday);
        DateTime {
            year: year_past(parts.year),
            month: parts.month,
            day: parts.day,
            hour: parts.hour,
            minute: parts.minute,
            second: parts.second,
        }
    }

    /// The moment that they name, or one past the year 9999.
    fn moment(&self) -> Moment
        ensures { result.0 ≡ named self.now.year self.now.month self.now.day
            self.now.hour self.now.minute self.now.second }
    {
        let year = year_before(self.year);
        match civil_core::moment(
            year,
            self.month,
            self.day,
            self.hour,
            self.minute,
            self.second,
        ) {
            Some(t) => cycle_past(t),
            None => Moment(PAST_THE_YEARS),
        }
    }

    fn put(&self, out: &mut Vec<u8>, with_z: bool) -> Result<(), AllocError>
        ensures { OnOk result (out.new.items ≡ out.old.items ++ fields_text with_z self.now.year
            self.now.month self.now.day self.now.hour self.now.minute self.now.second) }
    {
        put_two_digits(out, (self.year / 100) as u8)?;
        put_two_digits(out, (self.year % 100) as u8)?;
        put_two_digits(out, self.month)?;
        put_two_digits(out, self.day)?;
        out.push(b'T')?;
        put_two_digits(out, self.hour)?;
        put_two_digits(out, self.minute)?;
        put_two_digits(out, self.second)?;
        if with_z {
            out.push(b'Z')?;
        }
        Ok(())
    }
}

/// The moment of eight digits of a date and six of a time of day.
#[tactic(auto, unfolding(crate::specs::Until::named_by))]
fn named_by(date: &[u8], time: &[u8]) -> Moment
    requires date { are_digits 8 date.now ≡ true }
    requires time { are_digits 6 time.now ≡ true }
    ensures { result.0 ≡ named_by date.now time.now }
{
    DateTime::read(date, time).moment()
}

/// The moment that the text names, a bare date being the last second of its day. Where it names
/// none of the years 0000 to 9999, as by February 30, it is the first second past those years.
#[tactic(auto, unfolding(crate::specs::Until::until_at, crate::specs::Until::is_date, crate::specs::Until::is_date_time))]
pub fn until_at(text: &[u8]) -> Moment
    ensures { result.0 ≡ until_at text.now }
{
    if is_date(text) {
        return named_by(text, b"235959");
    }
    let front = without_z(text);
    if is_date_time(front) {
        return named_by(&front[..8], &front[9..]);
    }
    Moment(PAST_THE_YEARS)
}

/// Writes the date and the time of day of a moment of the years 0000 to 9999, as `19971224T090000`,
/// with a `Z` behind it or without.
#[tactic(auto, unfolding(crate::specs::Until::until_text))]
pub fn put_date_time(out: &mut Vec<u8>, t: Moment, with_z: bool) -> Result<(), AllocError>
    requires { is_until t ≡ true }
    ensures { OnOk result (out.new.items ≡ out.old.items ++ until_text with_z t.0) }
{
    DateTime::of(t).put(out, with_z)
}
