//! What is wrong with a rule by its fields.

use crate::places::at_place;
use crate::tokens::Tokens;
use expr_tokens::{Token, Word};
use rule_core::{Part, RuleFault};
use std::alloc::{AllocError, Global};

/// The values that a key may have: from the least to the greatest, and down to `back` below 0,
/// where such a value counts from the end.
#[derive(Clone, Copy)]
struct Range {
    least: i64,
    most: i64,
    back: i64,
}

impl Range {
    /// The numbers from 1, and as many from the end.
    const fn dates(most: i64) -> Range {
        Range {
            least: 1,
            most,
            back: most,
        }
    }

    fn holds(self, n: i64) -> bool {
        (self.least <= n && n <= self.most) || (n < 0 && n >= 0i64.saturating_sub(self.back))
    }
}

/// The frequency or the key that a word of the grammar names.
fn part_named(word: Word) -> Option<Part> {
    match word {
        Word::Yearly => Some(Part::Yearly),
        Word::Monthly => Some(Part::Monthly),
        Word::Weekly => Some(Part::Weekly),
        Word::Daily => Some(Part::Daily),
        Word::Hourly => Some(Part::Hourly),
        Word::Minutely => Some(Part::Minutely),
        Word::Secondly => Some(Part::Secondly),
        Word::Months => Some(Part::Months),
        Word::Weeks => Some(Part::Weeks),
        Word::Days => Some(Part::Days),
        Word::Hours => Some(Part::Hours),
        Word::Minutes => Some(Part::Minutes),
        Word::Seconds => Some(Part::Seconds),
        Word::Interval => Some(Part::Interval),
        Word::Start => Some(Part::Start),
        Word::WeekStart => Some(Part::WeekStart),
        _ => None,
    }
}

/// The frequency or the key that a token names.
fn part_in(token: &Token<'_>) -> Option<Part> {
    match token {
        Token::Word(word, _) => part_named(*word),
        _ => None,
    }
}

fn is_frequency(part: Part) -> bool {
    matches!(
        part,
        Part::Yearly
            | Part::Monthly
            | Part::Weekly
            | Part::Daily
            | Part::Hourly
            | Part::Minutely
            | Part::Secondly
    )
}

/// How a key is spelled.
fn key_name(key: Part) -> &'static str {
    match key {
        Part::Months => "months",
        Part::Weeks => "weeks",
        Part::Days => "days",
        Part::Hours => "hours",
        Part::Minutes => "minutes",
        Part::Seconds => "seconds",
        Part::WeekStart => "week_start",
        _ => "values",
    }
}

/// The fields that a rule of this frequency may have.
fn fields_of(freq: Part) -> &'static str {
    match freq {
        Part::Monthly => "monthly takes days, hours, minutes, seconds, interval and start",
        Part::Weekly => {
            "weekly takes days, hours, minutes, seconds, interval, start and week_start"
        }
        Part::Daily => "daily takes hours, minutes, seconds, interval and start",
        Part::Hourly => "hourly takes minutes, seconds, interval and start",
        Part::Minutely => "minutely takes seconds, interval and start",
        Part::Secondly => "secondly takes interval and start",
        _ => "a rule has months or weeks, not both",
    }
}

/// The number of the token by which a rule has both the frequency or key and the other key.
fn second_of(tokens: &[Token<'_>], first: Part, second: Part) -> Option<usize> {
    let mut has_first = false;
    let mut has_second = false;
    for (i, token) in tokens.iter().enumerate() {
        if let Some(part) = part_in(token) {
            if is_frequency(part) {
                has_first = false;
                has_second = false;
            }
            has_first = has_first || part == first;
            has_second = has_second || part == second;
            if has_first && has_second {
                return Some(i);
            }
        }
    }
    None
}

/// Whether the rule whose frequency stands in front has the key.
fn rule_has(tokens: &[Token<'_>], key: Part) -> bool {
    for token in tokens {
        match token {
            Token::Close => return false,
            _ => {
                if part_in(token) == Some(key) {
                    return true;
                }
            }
        }
    }
    false
}

/// The values that the key may have in the rule whose frequency stands in front.
fn range_of(tokens: &[Token<'_>], freq: Part, key: Part) -> Range {
    match key {
        Part::Months => Range::dates(12),
        Part::Weeks => Range::dates(53),
        Part::Days => match freq {
            Part::Weekly => Range::dates(7),
            Part::Yearly if rule_has(tokens, Part::Weeks) => Range::dates(7),
            Part::Yearly if !rule_has(tokens, Part::Months) => Range::dates(366),
            _ => Range::dates(31),
        },
        Part::Hours => Range {
            least: 0,
            most: 23,
            back: 24,
        },
        Part::WeekStart => Range {
            least: 1,
            most: 7,
            back: 0,
        },
        Part::Interval => Range {
            least: 1,
            most: 1_000_000_000,
            back: 0,
        },
        _ => Range {
            least: 0,
            most: 59,
            back: 60,
        },
    }
}

/// The number of the first token that is a value out of the key's range, and that range.
fn out_of_range(tokens: &[Token<'_>], key: Part) -> Option<(usize, Range)> {
    let mut range = Range::dates(1);
    let mut is_key = false;
    for (i, token) in tokens.iter().enumerate() {
        match token {
            Token::Number(n) if is_key => {
                if !range.holds(*n) {
                    return Some((i, range));
                }
            }
            Token::Comma | Token::Equals => {}
            _ => match part_in(token) {
                Some(part) if is_frequency(part) => {
                    range = range_of(tokens.get(i..).unwrap_or(&[]), part, key);
                    is_key = false;
                }
                part => is_key = part == Some(key),
            },
        }
    }
    None
}

/// What the values of a key may be.
fn range_text(alloc: Global, key: Part, range: Range) -> Result<String, AllocError> {
    let Range { least, most, back } = range;
    match key {
        Part::Interval => format!(in alloc; "an interval is a number from {least} to {most}"),
        Part::WeekStart => {
            format!(in alloc; "week_start goes from {least} for Monday to {most} for Sunday")
        }
        _ => {
            let name = key_name(key);
            format!(in alloc;
                "{name} go from {least} to {most} here, or from -1 to -{back} from the end"
            )
        }
    }
}

/// A message on a text in which the first rule by fields with a fault has this one.
pub(crate) fn of_rule(
    alloc: Global,
    tokens: &Tokens<'_, '_>,
    fault: RuleFault,
) -> Result<String, AllocError> {
    let key = match fault {
        RuleFault::BadMix(first, second) => {
            let byte = second_of(tokens.found, first, second).map(|i| tokens.place(i));
            return at_place(alloc, tokens.text, byte, fields_of(first));
        }
        RuleFault::BadValue(key) => key,
        RuleFault::BadInterval => Part::Interval,
    };
    match out_of_range(tokens.found, key) {
        Some((i, range)) => {
            let what = range_text(alloc, key, range)?;
            at_place(alloc, tokens.text, Some(tokens.place(i)), what.as_str())
        }
        None => at_place(
            alloc,
            tokens.text,
            None,
            "a value of a rule is out of its range",
        ),
    }
}
