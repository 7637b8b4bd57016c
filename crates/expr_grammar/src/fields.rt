//! Rules by their fields.

ghost use Rattle.std.specs.Prelude.{◌≡◌, ◌<◌, ◌≤◌, length, None, Some, IfOk, IfNone, IfSome};
ghost use Rattle.std.specs.List.{list_any};
ghost use Rattle.expr_tokens.specs.Plain.{plains};
ghost use Rattle.expr_grammar.specs.Fields.{field_place, is_single, key_place};
ghost use Rattle.expr_grammar.specs.Syntax.{KeepsPlaces, NamesNoSpan, field_form, shares_key, span_places};
ghost use Rattle.expr_grammar.specs.Parsing.{Gives, ReadsField, ReadsTree, field_at, freq_at, freq_named, is_close, key_named, next_at, number_at, rule_at, values_at};

use crate::fault::ParseFault;
use crate::parser::close;
use crate::syntax::{Field, Key, SyntaxTree};
use expr_tokens::{Token, Word};
use rule_core::Freq;
use std::alloc::Global;

/// The frequency with this name.
fn frequency(word: Word) -> Option<Freq>
    ensures named { result ≡ freq_named word }
    ensures places { IfSome result (λ _. NamesNoSpan word) }
{
    match word {
        Word::Yearly => Some(Freq::Yearly),
        Word::Monthly => Some(Freq::Monthly),
        Word::Weekly => Some(Freq::Weekly),
        Word::Daily => Some(Freq::Daily),
        Word::Hourly => Some(Freq::Hourly),
        Word::Minutely => Some(Freq::Minutely),
        Word::Secondly => Some(Freq::Secondly),
        _ => None,
    }
}

/// The key with this name.
fn key(word: Word) -> Option<Key>
    ensures named { result ≡ key_named word }
    ensures places { IfSome result (λ _. NamesNoSpan word) }
{
    match word {
        Word::Months => Some(Key::Months),
        Word::Weeks => Some(Key::Weeks),
        Word::Days => Some(Key::Days),
        Word::Hours => Some(Key::Hours),
        Word::Minutes => Some(Key::Minutes),
        Word::Seconds => Some(Key::Seconds),
        Word::Interval => Some(Key::Interval),
        Word::WeekStart => Some(Key::WeekStart),
        _ => None,
    }
}

impl Key {
    /// Whether just one number stands behind the key.
    fn is_single(self) -> bool
        ensures { result ≡ is_single self }
    {
        match self {
            Key::Interval => true,
            Key::WeekStart => true,
            _ => false,
        }
    }

    /// The place in the printed order.
    fn place(self) -> u8
        ensures { result ≡ key_place self }
    {
        match self {
            Key::Months => 0,
            Key::Weeks => 1,
            Key::Days => 2,
            Key::Hours => 3,
            Key::Minutes => 4,
            Key::Seconds => 5,
            Key::Interval => 6,
            Key::WeekStart => 8,
        }
    }
}

impl Field {
    /// The place of the field's key in the printed order.
    fn place(&self) -> u8
        ensures { result ≡ field_place (field_form self.now) }
    {
        match self {
            Field::Values(key, _) => key.place(),
            Field::Start(_) => 7,
        }
    }

    /// Whether one of the fields has its key.
    fn is_among(&self, fields: &[Field]) -> bool
        ensures { result ≡ list_any (shares_key self.now) fields.now }
    {
        let place = self.place();
        fields.iter().any(|other| other.place() == place)
    }
}

/// The frequency in front, its bracket, and the tokens behind it.
fn frequency_name<'t, 'a>(tokens: &'t [Token<'a>]) -> Result<(Freq, &'t [Token<'a>]), ParseFault>
    ensures read { Gives (λ x. (x.0, plains x.1.now)) result (freq_at (plains tokens.now)) }
    ensures places { IfOk result (λ x. span_places tokens.now ≡ span_places x.1.now) }
    ensures shorter { IfOk result (λ x. length x.1.now ≤ length tokens.now) }
{
    match tokens {
        [Token::Word(word, _), Token::Open, rest @ ..] => match frequency(*word) {
            Some(freq) => Ok((freq, rest)),
            None => Err(ParseFault::Syntax),
        },
        _ => Err(ParseFault::Syntax),
    }
}

/// A key and its first number, and the tokens behind it.
fn first_number<'t, 'a>(
    tokens: &'t [Token<'a>],
) -> Result<((Key, i64), &'t [Token<'a>]), ParseFault>
    ensures read { Gives (λ x. (x.0, plains x.1.now)) result (number_at (plains tokens.now)) }
    ensures places { IfOk result (λ x. span_places tokens.now ≡ span_places x.1.now) }
    ensures shorter { IfOk result (λ x. length x.1.now < length tokens.now) }
{
    match tokens {
        [
            Token::Word(word, _),
            Token::Equals,
            Token::Number(n),
            rest @ ..,
        ] => match key(*word) {
            Some(key) => Ok(((key, *n), rest)),
            None => Err(ParseFault::Syntax),
        },
        _ => Err(ParseFault::Syntax),
    }
}

/// The next number of a list, and the tokens behind it.
fn next_number<'t, 'a>(tokens: &'t [Token<'a>]) -> Option<(i64, &'t [Token<'a>])>
    ensures none { IfNone result (next_at (plains tokens.now) ≡ None) }
    ensures read { IfSome result (λ x. next_at (plains tokens.now) ≡ Some (x.0, plains x.1.now)) }
    ensures places { IfSome result (λ x. span_places x.1.now ≡ span_places tokens.now) }
    ensures shorter { IfSome result (λ x. length x.1.now < length tokens.now) }
{
    match tokens {
        [Token::Comma, Token::Number(n), rest @ ..] => Some((*n, rest)),
        _ => None,
    }
}

/// A key and all its numbers.
#[tactic(auto, unfolding(crate::specs::Parsing::values_at))]
fn values<'t, 'a>(
    alloc: Global,
    tokens: &'t [Token<'a>],
) -> Result<(Field, &'t [Token<'a>]), ParseFault>
    ensures read { ReadsField result (values_at (plains tokens.now)) }
    ensures places { IfOk result (λ x. span_places tokens.now ≡ span_places x.1.now) }
    ensures shorter { IfOk result (λ x. length x.1.now < length tokens.now) }
{
    let ((key, first), mut rest) = first_number(tokens)?;
    let mut found = Vec::new(alloc);
    found.push(first)?;
    if key.is_single() {
        return Ok((Field::Values(key, found), rest));
    }
    'numbers: while let Some((n, after)) = next_number(rest) {
        found.push(n)?;
        rest = after;
    }
    Ok((Field::Values(key, found), rest))
}

#[tactic(auto, unfolding(crate::specs::Parsing::field_at))]
fn field<'t, 'a>(
    alloc: Global,
    tokens: &'t [Token<'a>],
) -> Result<(Field, &'t [Token<'a>]), ParseFault>
    ensures read { ReadsField result (field_at (plains tokens.now)) }
    ensures places { IfOk result (λ x. span_places tokens.now ≡ span_places x.1.now) }
    ensures shorter { IfOk result (λ x. length x.1.now < length tokens.now) }
{
    match tokens {
        [
            Token::Word(Word::Start, _),
            Token::Equals,
            Token::Moment(stamp, _),
            rest @ ..,
        ] => Ok((Field::Start(*stamp), rest)),
        _ => values(alloc, tokens),
    }
}

fn is_closed(tokens: &[Token<'_>]) -> bool
    ensures { result ≡ is_close (plains tokens.now) }
{
    match tokens {
        [Token::Close, ..] => true,
        _ => false,
    }
}

/// A rule: its name, and its fields in brackets.
pub(crate) fn rule<'t, 'a>(
    alloc: Global,
    tokens: &'t [Token<'a>],
) -> Result<(SyntaxTree, &'t [Token<'a>]), ParseFault>
    ensures read { ReadsTree result (rule_at (plains tokens.now)) }
    ensures places { IfOk result (KeepsPlaces (span_places tokens.now)) }
    ensures shorter { IfOk result (λ x. length x.1.now ≤ length tokens.now) }
{
    let (freq, mut rest) = frequency_name(tokens)?;
    let mut fields = Vec::new(alloc);
    'fields: while !is_closed(rest) {
        let (next, after) = field(alloc, rest)?;
        if next.is_among(fields.as_slice()) {
            return Err(ParseFault::Syntax);
        }
        fields.push(next)?;
        rest = after;
    }
    close(SyntaxTree::Rule { freq, fields }, rest)
}
