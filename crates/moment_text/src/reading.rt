//! Moment literals at the front of a text.

ghost use Rattle.std.specs.Prelude.{◌≡◌, ◌<◌, IfSome};
ghost use Rattle.moment_core.specs.declared.line.Stamp.{Stamp};
ghost use Rattle.moment_text.specs.Literal.{Names, shaped_front};
ghost use Rattle.moment_text.specs.Parts.{Gives, GivesRest, two_at, behind, past, date_at, time_at, unsigned_at, literal_at};

use crate::parts::{Date, Literal, Time};
use moment_core::{Stamp, calendar_laws, in_range};

/// The number that two digits write, and the bytes behind them.
fn two_digits(bytes: &[u8]) -> Option<(u8, &[u8])>
    ensures read { Gives result (two_at bytes.now) }
    ensures small { IfSome result (λ x. x.0 < 100) }
{
    match bytes {
        [a, b, rest @ ..] if a.is_ascii_digit() && b.is_ascii_digit() => {
            Some((10 * (*a - b'0') + (*b - b'0'), rest))
        }
        _ => None,
    }
}

/// The bytes behind a sign.
fn behind(sign: u8, bytes: &[u8]) -> Option<&[u8]>
    ensures { GivesRest result (behind sign bytes.now) }
{
    match bytes {
        [b, rest @ ..] if *b == sign => Some(rest),
        _ => None,
    }
}

/// Whether a sign stands at the front, and the bytes behind it.
fn past(sign: u8, bytes: &[u8]) -> (bool, &[u8])
    ensures { (result.0, result.1.now) ≡ past sign bytes.now }
{
    match behind(sign, bytes) {
        Some(rest) => (true, rest),
        None => (false, bytes),
    }
}

#[tactic(auto, unfolding(crate::specs::Parts::date_at))]
fn date(bytes: &[u8]) -> Option<(Date, &[u8])>
    ensures { Gives result (date_at bytes.now) }
{
    let (high, rest) = two_digits(bytes)?;
    let (low, rest) = two_digits(rest)?;
    let rest = behind(b'-', rest)?;
    let (month, rest) = two_digits(rest)?;
    let rest = behind(b'-', rest)?;
    let (day, rest) = two_digits(rest)?;
    let year = 100 * high as u16 + low as u16;
    Some((Date { year, month, day }, rest))
}

#[tactic(auto, unfolding(crate::specs::Parts::time_at))]
fn time(bytes: &[u8]) -> Option<(Time, &[u8])>
    ensures { Gives result (time_at bytes.now) }
{
    let (hour, rest) = two_digits(bytes)?;
    let rest = behind(b':', rest)?;
    let (minute, rest) = two_digits(rest)?;
    let rest = behind(b':', rest)?;
    let (second, rest) = two_digits(rest)?;
    let time = Time {
        hour,
        minute,
        second,
    };
    Some((time, rest))
}

/// The literal at the front whose sign was read before, and the bytes behind it.
#[tactic(auto, unfolding(crate::specs::Parts::unsigned_at))]
fn unsigned(minus: bool, bytes: &[u8]) -> Option<(Literal, &[u8])>
    ensures { Gives result (unsigned_at minus bytes.now) }
{
    let (date, rest) = date(bytes)?;
    let rest = behind(b'T', rest)?;
    let (time, rest) = time(rest)?;
    let (absolute, rest) = past(b'Z', rest);
    let literal = Literal {
        minus,
        date,
        time,
        absolute,
    };
    Some((literal, rest))
}

/// The literal at the front, and the bytes behind it.
#[tactic(auto, unfolding(crate::specs::Parts::literal_at))]
fn literal(bytes: &[u8]) -> Option<(Literal, &[u8])>
    ensures { Gives result (literal_at bytes.now) }
{
    let (minus, rest) = past(b'-', bytes);
    unsigned(minus, rest)
}

/// How many bytes the longest front has that is shaped as a moment literal, or 0 where none is. It
/// may have any digits, and so name no moment.
pub fn shaped_front(bytes: &[u8]) -> usize
    ensures { result ≡ shaped_front bytes.now }
{
    match literal(bytes) {
        Some((literal, _)) => literal.width(),
        None => 0,
    }
}

/// The moment whose literal the text is, absolute with a `Z` and floating without. None exactly
/// where the text isn't the literal of a moment of the calendar range.
pub fn read_moment(text: &[u8]) -> Option<Stamp>
    ensures named { IfSome result (λ s. Names text.now s.moment.0 s.absolute) }
    ensures found { (s : Stamp) → Names text.now s.moment.0 s.absolute → result ≡ Some s }
{
    calendar_laws();
    let (literal, rest) = literal(text)?;
    if !rest.is_empty() {
        return None;
    }
    let moment = literal.moment()?;
    if !in_range(moment) {
        return None;
    }
    let absolute = literal.absolute;
    Some(Stamp { moment, absolute })
}
