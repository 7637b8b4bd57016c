//! The bytes of a literal.

ghost use Rattle.std.specs.Prelude.{◌≡◌, ◌+◌, ◌%◌, ◌<◌, ◌≤◌, ◌++◌, ◌∷◌, [], if◌then◌else◌};
ghost use Rattle.arrayvec.specs.ArrayVec.{array_vec_len};
ghost use Rattle.moment_core.specs.Line.{IsWorkingMoment};
ghost use Rattle.moment_text.specs.Literal.{digits_of, date_text, time_text, literal_of};
ghost use Rattle.moment_text.specs.Parts.{text_of};

use crate::parts::{Date, Literal, Time};
use arrayvec::ArrayVec;
use moment_core::Stamp;

fn last_digit(n: u8) -> u8
    ensures { result ≡ 48 + n % 10 }
{
    b'0' + n % 10
}

fn put_two(text: &mut ArrayVec<u8, 21>, n: u8)
    requires { array_vec_len text.old + 2 ≤ 21 }
    ensures items { text.new.items ≡ text.old.items ++ digits_of 2 n }
    ensures len { array_vec_len text.new ≡ array_vec_len text.old + 2 }
{
    text.push(last_digit(n / 10));
    text.push(last_digit(n));
}

fn put_date(text: &mut ArrayVec<u8, 21>, date: &Date)
    requires room { array_vec_len text.old + 10 ≤ 21 }
    requires small { date.now.year < 10_000 }
    ensures items { text.new.items
        ≡ text.old.items ++ date_text date.now.year date.now.month date.now.day }
    ensures len { array_vec_len text.new ≡ array_vec_len text.old + 10 }
{
    put_two(text, (date.year / 100) as u8);
    put_two(text, (date.year % 100) as u8);
    text.push(b'-');
    put_two(text, date.month);
    text.push(b'-');
    put_two(text, date.day);
}

fn put_time(text: &mut ArrayVec<u8, 21>, time: &Time)
    requires { array_vec_len text.old + 8 ≤ 21 }
    ensures items { text.new.items
        ≡ text.old.items ++ time_text time.now.hour time.now.minute time.now.second }
    ensures len { array_vec_len text.new ≡ array_vec_len text.old + 8 }
{
    put_two(text, time.hour);
    text.push(b':');
    put_two(text, time.minute);
    text.push(b':');
    put_two(text, time.second);
}

fn put_where(text: &mut ArrayVec<u8, 21>, wanted: bool, sign: u8)
    requires { array_vec_len text.old < 21 }
    ensures items { text.new.items ≡ text.old.items ++ (if wanted then sign ∷ [] else []) }
    ensures len { array_vec_len text.new ≤ array_vec_len text.old + 1 }
{
    if wanted {
        text.push(sign);
    }
}

/// The bytes of a literal.
pub fn text(literal: &Literal) -> ArrayVec<u8, 21>
    requires { literal.now.date.year < 10_000 }
    ensures { result.items ≡ text_of literal.now }
{
    let mut text = ArrayVec::new();
    put_where(&mut text, literal.minus, b'-');
    put_date(&mut text, &literal.date);
    text.push(b'T');
    put_time(&mut text, &literal.time);
    put_where(&mut text, literal.absolute, b'Z');
    text
}

/// The literal of a moment, with a `Z` where it is absolute.
pub fn write_literal(stamp: Stamp) -> ArrayVec<u8, 21>
    requires { IsWorkingMoment stamp.moment.0 }
    ensures { result.items ≡ literal_of stamp.moment.0 stamp.absolute }
{
    text(&Literal::of(stamp))
}
