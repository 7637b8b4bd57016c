//! What is wrong with a moment's literal.

use civil_core::{fields, moment};
use moment_core::Weekday;
use moment_text::shaped_front;
use std::alloc::{AllocError, Global};

/// How a moment is written.
pub(crate) const FORM: &str = "a moment is written 2024-01-01T00:00:00, or with Z";

/// The number that two digits write.
fn two_digits(text: &[u8], at: usize) -> u16 {
    match text.get(at..) {
        Some([tens, ones, ..]) => {
            10 * u16::from(tens.saturating_sub(b'0')) + u16::from(ones.saturating_sub(b'0'))
        }
        _ => 0,
    }
}

/// The days of a month.
fn days_in(year: i32, month: u8) -> u8 {
    match (moment(year, month, 1, 0, 0, 0), Weekday::new(1)) {
        (Some(first), Some(monday)) => fields(first, monday).month_len,
        _ => 31,
    }
}

/// What is wrong with a literal whose year and month are right.
fn wrong_day_or_time(
    alloc: Global,
    literal: &[u8],
    year: i32,
    month: u8,
) -> Result<String, AllocError> {
    let days = days_in(year, month);
    let day = two_digits(literal, 8);
    if day == 0 || day > u16::from(days) {
        let sign = if year < 0 { "-" } else { "" };
        let number = year.unsigned_abs();
        return format!(in alloc; "days go from 01 to {days} in {sign}{number:04}-{month:02}");
    }
    let wrong = if two_digits(literal, 11) > 23 {
        "hours go from 00 to 23"
    } else if two_digits(literal, 14) > 59 {
        "minutes go from 00 to 59"
    } else if two_digits(literal, 17) > 59 {
        "seconds go from 00 to 59"
    } else {
        FORM
    };
    String::from_str(alloc, wrong)
}

/// What is wrong with a text that is the literal of no moment of the calendar range.
pub(crate) fn no_moment(alloc: Global, text: &[u8]) -> Result<String, AllocError> {
    let width = shaped_front(text);
    if width == 0 || width != text.len() {
        return String::from_str(alloc, FORM);
    }
    let (is_before, literal) = match text {
        [b'-', rest @ ..] => (true, rest),
        _ => (false, text),
    };
    let number = 100 * i32::from(two_digits(literal, 0)) + i32::from(two_digits(literal, 2));
    let month = two_digits(literal, 5);
    if is_before && number == 0 {
        return String::from_str(alloc, "the year 0 is written 0000");
    }
    if number > 9900 {
        return String::from_str(alloc, "years go from -9900 to 9900");
    }
    match u8::try_from(month) {
        Ok(month) if 1 <= month && month <= 12 => {
            let year = if is_before { -number } else { number };
            wrong_day_or_time(alloc, literal, year, month)
        }
        _ => String::from_str(alloc, "months go from 01 to 12"),
    }
}
