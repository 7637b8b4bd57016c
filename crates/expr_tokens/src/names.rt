//! The names of the grammar.

ghost use Rattle.std.specs.Prelude.{◌≡◌};
ghost use Rattle.expr_tokens.specs.Names.{name_of, word_of};

use crate::token::Word;

const WORDS: [Word; 30] = [
    Word::Empty,
    Word::Span,
    Word::Yearly,
    Word::Monthly,
    Word::Weekly,
    Word::Daily,
    Word::Hourly,
    Word::Minutely,
    Word::Secondly,
    Word::Rrule,
    Word::Event,
    Word::During,
    Word::Pairs,
    Word::Starts,
    Word::Ends,
    Word::Shift,
    Word::Zoned,
    Word::ZonedFirst,
    Word::Start,
    Word::After,
    Word::End,
    Word::Before,
    Word::Months,
    Word::Weeks,
    Word::Days,
    Word::Hours,
    Word::Minutes,
    Word::Seconds,
    Word::Interval,
    Word::WeekStart,
];

/// The bytes of a name of the grammar.
pub fn name(word: Word) -> &'static [u8]
    ensures { result.now ≡ name_of word }
{
    match word {
        Word::Empty => b"empty",
        Word::Span => b"span",
        Word::Yearly => b"yearly",
        Word::Monthly => b"monthly",
        Word::Weekly => b"weekly",
        Word::Daily => b"daily",
        Word::Hourly => b"hourly",
        Word::Minutely => b"minutely",
        Word::Secondly => b"secondly",
        Word::Rrule => b"rrule",
        Word::Event => b"event",
        Word::During => b"during",
        Word::Pairs => b"pairs",
        Word::Starts => b"starts",
        Word::Ends => b"ends",
        Word::Shift => b"shift",
        Word::Zoned => b"zoned",
        Word::ZonedFirst => b"zoned_first",
        Word::Start => b"start",
        Word::After => b"after",
        Word::End => b"end",
        Word::Before => b"before",
        Word::Months => b"months",
        Word::Weeks => b"weeks",
        Word::Days => b"days",
        Word::Hours => b"hours",
        Word::Minutes => b"minutes",
        Word::Seconds => b"seconds",
        Word::Interval => b"interval",
        Word::WeekStart => b"week_start",
    }
}

/// The word with this name.
#[tactic(auto, unfolding(crate::specs::Names::word_of))]
pub fn word(bytes: &[u8]) -> Option<Word>
    ensures { result ≡ word_of bytes.now }
{
    WORDS.iter().copied().find(|w| bytes == name(*w))
}
