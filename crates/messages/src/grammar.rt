//! The first token of a text at which no reading goes on, and what could stand there.
//!
//! It is found apart from the parser, whose refusal names no place: token by token, with what is
//! awaited next and what is still open.

use crate::places::{at_byte, plain};
use crate::tokens::Tokens;
use expr_grammar::NESTING_LIMIT;
use expr_tokens::{Token, Word};
use std::alloc::{AllocError, Global};

const A_MOMENT: &str = "a moment such as 2024-01-01T00:00:00";

/// What is awaited next.
#[derive(Clone, Copy)]
enum Awaited {
    /// A set.
    Set,
    /// Behind a set: an operator, or what ends what is open.
    BehindSet,
    /// The bracket behind the name of a call.
    Bracket(Word),
    /// The bracket that ends a call.
    End,
    /// Behind the bracket of `span`.
    Bounds,
    /// The moment of a lower bound.
    LowMoment,
    /// Behind a lower bound.
    BehindLow,
    /// The upper bound behind a comma.
    HighBound,
    /// The moment of an upper bound.
    HighMoment,
    /// The first moment of a list.
    FirstMoment,
    /// A later one.
    NextMoment,
    /// Behind a moment of a list.
    BehindMoment,
    /// The string of a rule of RFC 5545.
    RuleText,
    /// The comma behind it.
    RuleComma,
    /// The moment behind that.
    RuleStart,
    /// A field of a rule, or the rule's end.
    Field,
    /// The sign behind a field's key.
    Equals(Word),
    /// The first number of a field.
    FirstNumber(Word),
    /// A later one.
    NextNumber,
    /// Behind a number of a field that lists them.
    BehindNumber,
    /// The moment of the field `start`.
    StartMoment,
    /// The number of seconds of a call.
    Seconds,
    /// The bracket behind it.
    SecondsEnd,
}

/// What is open.
#[derive(Clone, Copy)]
enum Open {
    /// A bracket, or a call of one set.
    Bracket,
    /// A sign `!`.
    Sign,
    /// A call of a set and a number of seconds.
    WithSeconds,
    /// A call of two sets, at the first one.
    First,
}

/// Why no reading goes on.
#[derive(Clone, Copy)]
enum Halt {
    /// The token isn't what is awaited.
    Unexpected,
    /// The key stands in the rule before.
    Repeated,
    /// Too much is open.
    TooDeep,
    /// No memory was left.
    Memory,
}

/// Where a reading of tokens stands.
#[derive(Drop)]
struct Reading {
    awaited: Awaited,
    open: Vec<Open>,
    /// The keys that the present rule has.
    keys: Vec<Word>,
    /// Whether the second set has begun.
    is_second: bool,
}

fn is_frequency(word: Word) -> bool {
    matches!(
        word,
        Word::Yearly
            | Word::Monthly
            | Word::Weekly
            | Word::Daily
            | Word::Hourly
            | Word::Minutely
            | Word::Secondly
    )
}

fn is_key(word: Word) -> bool {
    matches!(
        word,
        Word::Months
            | Word::Weeks
            | Word::Days
            | Word::Hours
            | Word::Minutes
            | Word::Seconds
            | Word::Interval
            | Word::WeekStart
            | Word::Start
    )
}

/// Whether a call has this name.
fn is_call(word: Word) -> bool {
    match word {
        Word::After | Word::End | Word::Before => false,
        _ => !is_key(word),
    }
}

impl Reading {
    fn new(alloc: Global) -> Reading {
        Reading {
            awaited: Awaited::Set,
            open: Vec::new(alloc),
            keys: Vec::new(alloc),
            is_second: false,
        }
    }

    /// Goes on to what is awaited next, where the token is right.
    fn go(&mut self, is_right: bool, next: Awaited) -> Result<(), Halt> {
        if !is_right {
            return Err(Halt::Unexpected);
        }
        self.awaited = next;
        Ok(())
    }

    /// Opens one more bracket or sign, behind which a set stands.
    fn nest(&mut self, open: Open) -> Result<(), Halt> {
        if self.open.len() >= usize::from(NESTING_LIMIT) {
            return Err(Halt::TooDeep);
        }
        match self.open.push(open) {
            Ok(()) => self.go(true, Awaited::Set),
            Err(_) => Err(Halt::Memory),
        }
    }

    /// Ends what was opened last.
    fn end(&mut self) -> Result<(), Halt> {
        let _ = self.open.pop();
        self.go(true, Awaited::BehindSet)
    }

    /// Ends the signs that were opened last.
    fn end_signs(&mut self) {
        for _ in 0..NESTING_LIMIT {
            match self.open.as_slice().last() {
                Some(Open::Sign) => {
                    let _ = self.open.pop();
                }
                _ => break,
            }
        }
    }

    fn set(&mut self, token: &Token<'_>) -> Result<(), Halt> {
        match token {
            Token::Exclamation => self.nest(Open::Sign),
            Token::Open => self.nest(Open::Bracket),
            Token::LeftBrace => self.go(true, Awaited::FirstMoment),
            Token::Word(word, _) => self.go(is_call(*word), Awaited::Bracket(*word)),
            _ => Err(Halt::Unexpected),
        }
    }

    fn bracket(&mut self, name: Word, token: &Token<'_>) -> Result<(), Halt> {
        if !matches!(token, Token::Open) {
            return Err(Halt::Unexpected);
        }
        match name {
            Word::Empty => self.go(true, Awaited::End),
            Word::Span => self.go(true, Awaited::Bounds),
            Word::Rrule => self.go(true, Awaited::RuleText),
            Word::During | Word::Shift => self.nest(Open::WithSeconds),
            Word::Starts | Word::Ends => self.nest(Open::Bracket),
            Word::Pairs => self.nest(Open::First),
            _ => {
                self.keys.clear();
                self.go(is_frequency(name), Awaited::Field)
            }
        }
    }

    fn behind_set(&mut self, token: &Token<'_>) -> Result<(), Halt> {
        self.end_signs();
        let open = self.open.as_slice().last().copied();
        match (open, token) {
            (_, Token::Operator(_)) => self.go(true, Awaited::Set),
            (Some(Open::Bracket), Token::Close) => self.end(),
            (Some(Open::WithSeconds), Token::Comma) => self.go(true, Awaited::Seconds),
            (Some(Open::First), Token::Comma) => {
                let _ = self.open.pop();
                self.nest(Open::Bracket)
            }
            (None, Token::Semicolon) if !self.is_second => {
                self.is_second = true;
                self.go(true, Awaited::Set)
            }
            _ => Err(Halt::Unexpected),
        }
    }

    fn field(&mut self, token: &Token<'_>) -> Result<(), Halt> {
        match token {
            Token::Close => self.go(true, Awaited::BehindSet),
            Token::Word(word, _) if is_key(*word) => {
                if self.keys.as_slice().contains(word) {
                    return Err(Halt::Repeated);
                }
                match self.keys.push(*word) {
                    Ok(()) => self.go(true, Awaited::Equals(*word)),
                    Err(_) => Err(Halt::Memory),
                }
            }
            _ => Err(Halt::Unexpected),
        }
    }

    fn span(&mut self, token: &Token<'_>) -> Result<(), Halt> {
        match (self.awaited, token) {
            (Awaited::Bounds, Token::Word(Word::Start | Word::After, _)) => {
                self.go(true, Awaited::LowMoment)
            }
            (Awaited::Bounds | Awaited::HighBound, Token::Word(Word::End | Word::Before, _)) => {
                self.go(true, Awaited::HighMoment)
            }
            (Awaited::Bounds | Awaited::BehindLow, Token::Close) => {
                self.go(true, Awaited::BehindSet)
            }
            (Awaited::LowMoment, Token::Moment(..)) => self.go(true, Awaited::BehindLow),
            (Awaited::BehindLow, Token::Comma) => self.go(true, Awaited::HighBound),
            (Awaited::HighMoment, Token::Moment(..)) => self.go(true, Awaited::End),
            _ => Err(Halt::Unexpected),
        }
    }

    fn leaf(&mut self, token: &Token<'_>) -> Result<(), Halt> {
        match (self.awaited, token) {
            (Awaited::FirstMoment | Awaited::NextMoment, Token::Moment(..)) => {
                self.go(true, Awaited::BehindMoment)
            }
            (Awaited::BehindMoment, Token::Comma) => self.go(true, Awaited::NextMoment),
            (Awaited::BehindMoment, Token::RightBrace) => self.go(true, Awaited::BehindSet),
            (Awaited::RuleText, Token::Text(_)) => self.go(true, Awaited::RuleComma),
            (Awaited::RuleComma, Token::Comma) => self.go(true, Awaited::RuleStart),
            (Awaited::RuleStart, Token::Moment(..)) => self.go(true, Awaited::End),
            _ => self.span(token),
        }
    }

    fn value(&mut self, token: &Token<'_>) -> Result<(), Halt> {
        match (self.awaited, token) {
            (Awaited::Equals(Word::Start), Token::Equals) => self.go(true, Awaited::StartMoment),
            (Awaited::Equals(key), Token::Equals) => self.go(true, Awaited::FirstNumber(key)),
            (Awaited::StartMoment, Token::Moment(..)) => self.go(true, Awaited::Field),
            (Awaited::FirstNumber(Word::Interval | Word::WeekStart), Token::Number(_)) => self.go(
                true,
                Awaited::Field,
            ),
            (Awaited::FirstNumber(_) | Awaited::NextNumber, Token::Number(_)) => {
                self.go(true, Awaited::BehindNumber)
            }
            (Awaited::BehindNumber, Token::Comma) => self.go(true, Awaited::NextNumber),
            (Awaited::BehindNumber, _) => self.field(token),
            _ => self.leaf(token),
        }
    }

    /// Goes on past the token, or tells why no reading does.
    fn step(&mut self, token: &Token<'_>) -> Result<(), Halt> {
        match self.awaited {
            Awaited::Set => self.set(token),
            Awaited::BehindSet => self.behind_set(token),
            Awaited::Bracket(name) => self.bracket(name, token),
            Awaited::Field => self.field(token),
            Awaited::Seconds => self.go(matches!(token, Token::Number(_)), Awaited::SecondsEnd),
            Awaited::SecondsEnd if matches!(token, Token::Close) => self.end(),
            Awaited::End => self.go(matches!(token, Token::Close), Awaited::BehindSet),
            _ => self.value(token),
        }
    }

    /// What is awaited behind a set.
    fn awaited_behind_set(&self) -> &'static str {
        match self.open.as_slice().last() {
            Some(Open::Bracket | Open::Sign) => "an operator or )",
            Some(Open::WithSeconds) => "an operator or a comma and a number of seconds",
            Some(Open::First) => "an operator or a comma and a second set",
            None if self.is_second => "an operator or the end of the text",
            None => "an operator, ; or the end of the text",
        }
    }

    /// What is awaited.
    fn awaited(&self) -> &'static str {
        match self.awaited {
            Awaited::Set => "a set",
            Awaited::BehindSet => self.awaited_behind_set(),
            Awaited::Bracket(_) => "(",
            Awaited::End | Awaited::SecondsEnd => ")",
            Awaited::Bounds => "start, after, end, before or )",
            Awaited::LowMoment | Awaited::HighMoment | Awaited::StartMoment => A_MOMENT,
            Awaited::BehindLow => "a comma or )",
            Awaited::HighBound => "end or before",
            Awaited::FirstMoment | Awaited::NextMoment => A_MOMENT,
            Awaited::BehindMoment => "a comma or }",
            Awaited::RuleText => "a string, the text of a rule such as \"FREQ=DAILY\"",
            Awaited::RuleComma => "a comma and a moment, the DTSTART of the rule",
            Awaited::RuleStart => "a moment, the DTSTART of the rule",
            Awaited::Field => "a field or )",
            Awaited::Equals(_) => "=",
            Awaited::FirstNumber(_) | Awaited::NextNumber => "a number",
            Awaited::BehindNumber => "a comma, a field or )",
            Awaited::Seconds => "a number of seconds",
        }
    }

    /// What may be meant by such a token where something else is awaited.
    fn advice(&self, token: Option<&Token<'_>>) -> &'static str {
        match (self.awaited, token) {
            (Awaited::Set, Some(Token::Moment(..))) => {
                "; moments stand in braces, {2024-01-01T00:00:00}"
            }
            (Awaited::Set, Some(Token::Name(_))) => "; no call has this name",
            (Awaited::Field | Awaited::BehindNumber, Some(Token::Name(_))) => {
                "; the fields are months, weeks, days, hours, minutes, seconds, interval, start \
                 and week_start"
            }
            (Awaited::NextNumber, Some(Token::Word(..))) => "; no comma stands between fields",
            (Awaited::FirstMoment, Some(Token::RightBrace)) => {
                "; the set without moments is empty()"
            }
            _ => "",
        }
    }
}

/// What may be meant by a key that stands again.
fn list_advice(token: Option<&Token<'_>>) -> &'static str {
    match token {
        Some(Token::Word(Word::Interval | Word::WeekStart | Word::Start, _)) => "",
        _ => "; its numbers are one list, with commas",
    }
}

/// What is wrong at the token of this number.
fn halted(
    alloc: Global,
    tokens: &Tokens<'_, '_>,
    reading: &Reading,
    index: usize,
    halt: Halt,
) -> Result<String, AllocError> {
    let name = tokens.name(alloc, index)?;
    let what = match halt {
        Halt::Memory => return Err(AllocError),
        Halt::TooDeep => {
            format!(in alloc; "brackets and signs nest at most {NESTING_LIMIT} deep")?
        }
        Halt::Repeated => {
            let advice = list_advice(tokens.found.get(index));
            format!(in alloc; "{name} stands in this rule before{advice}")?
        }
        Halt::Unexpected => {
            let awaited = reading.awaited();
            let advice = reading.advice(tokens.found.get(index));
            format!(in alloc; "expected {awaited}, found {name}{advice}")?
        }
    };
    at_byte(alloc, tokens.text, tokens.place(index), what.as_str())
}

/// A message on a text whose tokens spell no program.
pub(crate) fn of_syntax(alloc: Global, tokens: &Tokens<'_, '_>) -> Result<String, AllocError> {
    if tokens.found.is_empty() {
        return plain(
            alloc,
            "the text is empty; it says what the set is, such as daily(hours=9)",
        );
    }
    let mut reading = Reading::new(alloc);
    for (i, token) in tokens.found.iter().enumerate() {
        if let Err(halt) = reading.step(token) {
            return halted(alloc, tokens, &reading, i, halt);
        }
    }
    reading.end_signs();
    halted(
        alloc,
        tokens,
        &reading,
        tokens.found.len(),
        Halt::Unexpected,
    )
}
