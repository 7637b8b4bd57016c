//! The values of keys.

ghost use Rattle.std.specs.Prelude.{◌≡◌, ◌≢◌, ℕ, List, IfSome, IfNone};
ghost use Rattle.query_words.specs.declared.commands.Key.{Key};
ghost use Rattle.query_words.specs.declared.values.Value.{Value as TheValue};
ghost use Rattle.query_words.specs.Words.{word_of, IsDirValue, IsNumber, IsNumberValue, IsStampValue, IsTokenValue, IsValue};

use crate::commands::Key;
use moment_core::{Dir, Stamp};
use moment_text::read_moment;
use span_core::Token;
use token_text::read_token;

/// The greatest budget of a search.
pub const MAX_BUDGET: u64 = 1_000_000_000_000;

/// The budget of a search where the words give none.
pub const DEFAULT_BUDGET: u64 = 100_000_000;

/// The greatest limit of items.
pub const MAX_LIMIT: u64 = 1_000_000;

/// The limit of items where the words give none.
pub const DEFAULT_LIMIT: u64 = 1_000;

/// The key and the value of a word `key=value`, or None for another word.
pub(crate) fn setting(word: &str) -> Option<(Key, &str)>
    ensures some { IfSome result (λ x. word.now ≡ word_of x.0 x.1.now) }
    ensures none { IfNone result ((key : Key) (value : List ℕ) → word.now ≢ word_of key value) }
{
    let (name, value) = word.split_once('=')?;
    let key = Key::named(name)?;
    Some((key, value))
}

/// The number from `least` to `most` that decimal digits without a sign write, perhaps with zeros
/// in front, or None for another text.
fn read_number(digits: &str, least: u64, most: u64) -> Option<u64>
    ensures some { IfSome result (λ n. IsNumber least most digits.now n) }
    ensures none { IfNone result ((n : ℕ) → ¬ (IsNumber least most digits.now n)) }
{
    if digits.starts_with('+') {
        return None;
    }
    let n = digits.parse::<u64>().ok()?;
    if least <= n && n <= most {
        Some(n)
    } else {
        None
    }
}

/// What the value of a key means.
#[derive(Clone, Copy, Debug, PartialEq, Eq)]
pub enum Value {
    Stamp(Stamp),
    Dir(Dir),
    Number(u64),
    Token(Token),
}

fn stamp_value(text: &str) -> Option<Value>
    ensures some { IfSome result (IsStampValue text.now) }
    ensures none { IfNone result ((v : TheValue) → ¬ (IsStampValue text.now v)) }
{
    match read_moment(text.as_bytes()) {
        Some(stamp) => Some(Value::Stamp(stamp)),
        None => None,
    }
}

fn dir_value(text: &str) -> Option<Value>
    ensures some { IfSome result (IsDirValue text.now) }
    ensures none { IfNone result ((v : TheValue) → ¬ (IsDirValue text.now v)) }
{
    match text {
        "fore" => Some(Value::Dir(Dir::Fore)),
        "back" => Some(Value::Dir(Dir::Back)),
        _ => None,
    }
}

fn number_value(text: &str, least: u64, most: u64) -> Option<Value>
    ensures some { IfSome result (IsNumberValue (IsNumber least most) text.now) }
    ensures none { IfNone result ((v : TheValue)
        → ¬ (IsNumberValue (IsNumber least most) text.now v)) }
{
    match read_number(text, least, most) {
        Some(n) => Some(Value::Number(n)),
        None => None,
    }
}

fn token_value(text: &str) -> Option<Value>
    ensures some { IfSome result (IsTokenValue text.now) }
    ensures none { IfNone result ((v : TheValue) → ¬ (IsTokenValue text.now v)) }
{
    match read_token(text.as_bytes()) {
        Some(token) => Some(Value::Token(token)),
        None => None,
    }
}

/// The value of a key, or None for a text that isn't in the key's form.
pub(crate) fn read_value(key: Key, text: &str) -> Option<Value>
    ensures some { IfSome result (IsValue key text.now) }
    ensures none { IfNone result ((v : TheValue) → ¬ (IsValue key text.now v)) }
{
    match key {
        Key::At | Key::From | Key::To => stamp_value(text),
        Key::Dir => dir_value(text),
        Key::Limit => number_value(text, 1, MAX_LIMIT),
        Key::Budget => number_value(text, 1, MAX_BUDGET),
        Key::Token => token_value(text),
        Key::Seed => number_value(text, 0, u64::MAX),
    }
}
