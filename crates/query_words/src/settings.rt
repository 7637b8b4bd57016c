//! What the words behind a command set.

ghost use Rattle.std.specs.Prelude.{◌≡◌, ◌<◌, ◌+◌, ◌^◌, ◌++◌, ◌∷◌, [], ℕ, List, map, length, unwrap_or, IsTrue, true, false, MatchResult};
ghost use Rattle.std.specs.String.{string_bytes};
ghost use Rattle.moment_core.specs.declared.line.Dir.TheVariants.{Fore};
ghost use Rattle.query_words.specs.declared.commands.Key.TheVariants.{Budget, Dir as DirOf, Limit, Token as TokenOf};
ghost use Rattle.query_words.specs.Commands.{name_of, is_built};
ghost use Rattle.query_words.specs.Words.{word_of, Agrees, Fits, InForm, IsRefused, Lacks};
ghost use Rattle.query_words.specs.Reading.{dir_in, number_in, place_of, stamp_in, token_in, value_at, AllFit, AreOrdered, Holds};

use crate::commands::{Command, Key};
use crate::queries::WordsFault;
use crate::values::{DEFAULT_BUDGET, DEFAULT_LIMIT, Value, read_value, setting};
use moment_core::{Dir, Stamp};
use moment_text::literal_laws;
use span_core::Token;
use token_text::token_laws;

/// The values that words give, by key; None where they don't.
#[derive(Clone, Copy, Debug)]
pub(crate) struct Settings {
    values: [Option<Value>; 8],
}

/// Where the value of a key stands.
fn place_of(key: Key) -> usize
    ensures value { result ≡ place_of key }
    ensures small { result < 8 }
{
    match key {
        Key::At => 0,
        Key::From => 1,
        Key::To => 2,
        Key::Dir => 3,
        Key::Limit => 4,
        Key::Budget => 5,
        Key::Token => 6,
        Key::Seed => 7,
    }
}

/// Whether two moments are in order and on one clock, where there are both.
fn is_before(first: Option<Stamp>, last: Option<Stamp>) -> bool
    ensures fits { IsTrue result → AreOrdered first last }
    ensures unfit { result ≡ false → ¬ (AreOrdered first last) }
{
    match (first, last) {
        (Some(first), Some(last)) => {
            first.moment.0 <= last.moment.0 && first.absolute == last.absolute
        }
        _ => true,
    }
}

impl Settings {
    const NONE: Settings = Settings { values: [None; 8] };

    fn get(&self, key: Key) -> Option<Value>
        ensures { result ≡ value_at self.now key }
    {
        self.values[place_of(key)]
    }

    /// The moment that the words give the key.
    pub(crate) fn stamp(&self, key: Key) -> Option<Stamp>
        ensures { result ≡ stamp_in (value_at self.now key) }
    {
        match self.get(key) {
            Some(Value::Stamp(stamp)) => Some(stamp),
            _ => None,
        }
    }

    /// The number that the words give the key.
    fn number(&self, key: Key) -> Option<u64>
        ensures { result ≡ number_in (value_at self.now key) }
    {
        match self.get(key) {
            Some(Value::Number(n)) => Some(n),
            _ => None,
        }
    }

    /// The token that the words give.
    pub(crate) fn token(&self) -> Option<Token>
        ensures { result ≡ token_in (value_at self.now TokenOf) }
    {
        match self.get(Key::Token) {
            Some(Value::Token(token)) => Some(token),
            _ => None,
        }
    }

    /// The direction that the words give, or else forwards.
    pub(crate) fn dir(&self) -> Dir
        ensures { result ≡ unwrap_or (dir_in (value_at self.now DirOf)) Fore }
    {
        match self.get(Key::Dir) {
            Some(Value::Dir(dir)) => dir,
            _ => Dir::Fore,
        }
    }

    /// The limit that the words give, or the default.
    pub(crate) fn limit(&self) -> u64
        ensures { result ≡ unwrap_or (number_in (value_at self.now Limit)) 1_000 }
    {
        self.number(Key::Limit).unwrap_or(DEFAULT_LIMIT)
    }

    /// The budget that the words give, or the default.
    pub(crate) fn budget(&self) -> u64
        ensures { result ≡ unwrap_or (number_in (value_at self.now Budget)) 100_000_000 }
    {
        self.number(Key::Budget).unwrap_or(DEFAULT_BUDGET)
    }

    /// Whether the value and what was set before are the ends of a window in order, where they are
    /// such ends.
    fn agrees(&self, key: Key, value: Value) -> bool
        ensures fits { IsTrue result → (before : List (List ℕ)) → Holds before self.now
            → Agrees before key value }
        ensures unfit { result ≡ false → (before : List (List ℕ)) → Holds before self.now
            → ¬ (Agrees before key value) }
    {
        literal_laws();
        match (key, value) {
            (Key::From, Value::Stamp(first)) => is_before(Some(first), self.stamp(Key::To)),
            (Key::To, Value::Stamp(last)) => is_before(self.stamp(Key::From), Some(last)),
            _ => true,
        }
    }

    /// Reads a word behind the words that were read before, and tells whether it fits there.
    fn set(&mut self, command: Command, word: &str) -> bool
        ensures fits { IsTrue result → (before : List (List ℕ)) → Holds before self.old
            → Fits command before word.now × Holds (before ++ word.now ∷ []) self.new }
        ensures unfit { result ≡ false → (before : List (List ℕ)) → Holds before self.old
            → ¬ (Fits command before word.now) }
    {
        let Some((key, value)) = setting(word) else {
            return false;
        };
        command.takes(key) && self.give(key, value)
    }

    /// Reads the value of a key that wasn't given before, and tells whether that is so and the
    /// value is in the key's form.
    fn give(&mut self, key: Key, value: &str) -> bool
        ensures fits { IsTrue result → (before : List (List ℕ)) → Holds before self.old
            → Lacks before key × InForm before key value.now
            × Holds (before ++ word_of key value.now ∷ []) self.new }
        ensures unfit { result ≡ false → (before : List (List ℕ)) → Holds before self.old
            → ¬ (Lacks before key × InForm before key value.now) }
    {
        literal_laws();
        token_laws();
        let Some(read) = read_value(key, value) else {
            return false;
        };
        if self.get(key).is_some() {
            return false;
        }
        if !self.agrees(key, read) {
            return false;
        }
        self.values[place_of(key)] = Some(read);
        true
    }
}

/// The values that the words behind a command give, or the fault of the first word that doesn't
/// fit.
pub(crate) fn read_settings(command: Command, later: &[String]) -> Result<Settings, WordsFault>
    requires built { is_built command ≡ true }
    requires short { length later.now + 1 < 2 ^ 64 }
    ensures { MatchResult result
        (λ s. AllFit command (map string_bytes later.now) × Holds (map string_bytes later.now) s)
        (IsRefused (name_of command ∷ map string_bytes later.now)) }
{
    let mut settings = Settings::NONE;
    for (i, word) in later.iter().enumerate() {
        if !settings.set(command, word.as_str()) {
            return Err(WordsFault::Bad(i + 1));
        }
    }
    Ok(settings)
}
