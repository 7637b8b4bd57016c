use moment_core::{Op, Stamp};

/// The names that the grammar knows.
#[derive(Clone, Copy, Debug, PartialEq, Eq)]
pub enum Word {
    Empty,
    Span,
    Yearly,
    Monthly,
    Weekly,
    Daily,
    Hourly,
    Minutely,
    Secondly,
    Rrule,
    Event,
    During,
    Pairs,
    Starts,
    Ends,
    Shift,
    Zoned,
    ZonedFirst,
    Start,
    After,
    End,
    Before,
    Months,
    Weeks,
    Days,
    Hours,
    Minutes,
    Seconds,
    Interval,
    WeekStart,
}

/// A token, with the place of its first byte where a fault may name it.
#[derive(Clone, Copy, Debug)]
pub enum Token<'a> {
    Open,
    Close,
    LeftBrace,
    RightBrace,
    Comma,
    Semicolon,
    Equals,
    Exclamation,
    Operator(Op),
    Number(i64),
    /// A name of the grammar, and its first byte.
    Word(Word, usize),
    /// Another name.
    Name(&'a [u8]),
    /// The bytes between the quotes.
    Text(&'a [u8]),
    /// A moment literal, None where it names no moment of the calendar range, and its first byte.
    Moment(Option<Stamp>, usize),
}
