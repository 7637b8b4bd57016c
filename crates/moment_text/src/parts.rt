//! What a moment literal says.

ghost use Rattle.std.specs.Prelude.{◌≡◌, ◌<◌, ℤ, length, IfSome};
ghost use Rattle.moment_core.specs.Line.{IsWorkingMoment};
ghost use Rattle.moment_text.specs.Parts.{text_of, parts_of, signed_year};

use moment_core::{Moment, Stamp, Weekday, calendar_laws};

/// A date as it is written, the year without its sign.
#[derive(Clone, Copy, Debug, PartialEq, Eq)]
pub struct Date {
    pub year: u16,
    pub month: u8,
    pub day: u8,
}

/// A time of day as it is written.
#[derive(Clone, Copy, Debug, PartialEq, Eq)]
pub struct Time {
    pub hour: u8,
    pub minute: u8,
    pub second: u8,
}

/// The numbers of a literal and its signs. They may name no moment.
#[derive(Clone, Copy, Debug, PartialEq, Eq)]
pub struct Literal {
    pub minus: bool,
    pub date: Date,
    pub time: Time,
    pub absolute: bool,
}

impl Literal {
    /// The literal of a moment of the working range.
    pub fn of(stamp: Stamp) -> Literal
        requires { IsWorkingMoment stamp.moment.0 }
        ensures parts { result ≡ parts_of stamp.moment.0 stamp.absolute }
        ensures short { result.date.year < 10_000 }
    {
        // Any weekday serves: a literal has no week.
        let monday = Weekday::new(1).unwrap();
        let parts = civil_core::fields(stamp.moment, monday);
        Literal {
            minus: parts.year < 0,
            date: Date {
                year: parts.year.unsigned_abs() as u16,
                month: parts.month,
                day: parts.day,
            },
            time: Time {
                hour: parts.hour,
                minute: parts.minute,
                second: parts.second,
            },
            absolute: stamp.absolute,
        }
    }

    /// The year with its sign, or None for `-0000`.
    fn year(&self) -> Option<i32>
        ensures { result ≡ signed_year self.now.minus self.now.date.year }
    {
        let year = self.date.year as i32;
        match (self.minus, year) {
            (true, 0) => None,
            (true, _) => Some(-year),
            (false, _) => Some(year),
        }
    }

    /// The moment of the working range whose literal this is, or None where there is none.
    pub fn moment(&self) -> Option<Moment>
        ensures named { IfSome result (λ t.
            (self.now ≡ parts_of t.0 self.now.absolute) × IsWorkingMoment t.0) }
        ensures found { (t : ℤ) → IsWorkingMoment t → self.now ≡ parts_of t self.now.absolute
            → result ≡ Some (record { 0 = t }) }
    {
        calendar_laws();
        let year = self.year()?;
        let Date { month, day, .. } = self.date;
        let Time {
            hour,
            minute,
            second,
        } = self.time;
        civil_core::moment(year, month, day, hour, minute, second)
    }

    /// How many bytes the literal has.
    pub fn width(&self) -> usize
        ensures { result ≡ length (text_of self.now) }
    {
        19 + self.minus as usize + self.absolute as usize
    }
}
