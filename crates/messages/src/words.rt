//! What is wrong with the words of the command line.

use crate::dates::no_moment;
use moment_text::read_moment;
use query_words::{Command, Key, MAX_BUDGET, MAX_LIMIT, WordsFault};
use std::alloc::{AllocError, Global};

/// The commands that the program answers.
const COMMANDS: &str = "next, previous, current, closest, contains, walk, resume";

/// The most characters of a word that are shown.
const SHOWN: usize = 80;

/// The keys in the order in which a message lists them.
const KEYS: [Key; 8] = [
    Key::At,
    Key::Token,
    Key::Seed,
    Key::From,
    Key::To,
    Key::Dir,
    Key::Limit,
    Key::Budget,
];

/// How a key is spelled.
pub(crate) fn key_name(key: Key) -> &'static str {
    match key {
        Key::At => "at",
        Key::From => "from",
        Key::To => "to",
        Key::Dir => "dir",
        Key::Limit => "limit",
        Key::Budget => "budget",
        Key::Token => "token",
        Key::Seed => "seed",
    }
}

/// What stands behind a key that is missing.
fn needed(key: Key) -> &'static str {
    match key {
        Key::At | Key::From | Key::To => "M, with a moment such as 2024-01-01T00:00:00",
        Key::Dir => "D, with fore or back",
        Key::Limit => "L, with a number",
        Key::Budget | Key::Seed => "N, with a number",
        Key::Token => "T, with the token of a line `more T` or `budget T`",
    }
}

/// A word as a message shows it: its first characters, none of them one that moves the terminal's
/// place.
pub(crate) fn shown_word(alloc: Global, word: &str) -> Result<String, AllocError> {
    let mut out = String::new(alloc);
    for (i, c) in word.chars().enumerate() {
        if i >= SHOWN {
            out.push_str("..")?;
            break;
        }
        out.push(if c.is_control() { '?' } else { c })?;
    }
    Ok(out)
}

/// A message on the word of this number.
pub(crate) fn at_word(
    alloc: Global,
    number: usize,
    word: &str,
    what: &str,
) -> Result<String, AllocError> {
    let word = shown_word(alloc, word)?;
    format!(in alloc; "towhipae: word {number}, {word}: {what}")
}

/// The number and the value of the first of the words that gives the key.
pub(crate) fn given<'a>(words: &'a [String], key: Key) -> Option<(usize, &'a str)> {
    for (i, word) in words.iter().enumerate() {
        if let Some((name, value)) = word.as_str().split_once('=') {
            if i > 0 && name == key_name(key) {
                return Some((i, value));
            }
        }
    }
    None
}

/// The keys that the command takes, as in `next takes at= and budget=`.
fn keys_taken(alloc: Global, command: Command, name: &str) -> Result<String, AllocError> {
    let mut count = 0usize;
    for key in KEYS {
        if command.takes(key) {
            count = count.saturating_add(1);
        }
    }
    if count == 0 {
        return format!(in alloc; "{name} takes no key");
    }
    let mut out = format!(in alloc; "{name} takes ")?;
    let mut left = count;
    for key in KEYS {
        if command.takes(key) {
            let key = key_name(key);
            left = left.saturating_sub(1);
            let behind = match left {
                0 => "",
                1 => " and ",
                _ => ", ",
            };
            write!(out, "{key}={behind}")?;
        }
    }
    Ok(out)
}

/// What is wrong where no word is bad and one is missing.
fn missing(alloc: Global, words: &[String]) -> Result<String, AllocError> {
    let Some(first) = words.first() else {
        return format!(in alloc;
            "towhipae: a command is missing: {COMMANDS} or show; --help tells of them"
        );
    };
    let name = first.as_str();
    if let Some(command) = Command::named(name) {
        for key in command.required() {
            if given(words, *key).is_none() {
                let key_text = key_name(*key);
                let value = needed(*key);
                return format!(in alloc; "towhipae: {name} needs {key_text}={value}");
            }
        }
    }
    format!(in alloc; "towhipae: {name} needs more words")
}

/// What is wrong with a first word that is no command.
fn no_command(alloc: Global, word: &str) -> Result<String, AllocError> {
    if word == "--help" || word == "--version" {
        return at_word(alloc, 0, word, "no other word goes with it");
    }
    let what = format!(in alloc;
        "no such command; there are {COMMANDS} and show, of which --help tells"
    )?;
    at_word(alloc, 0, word, what.as_str())
}

/// What is wrong with the end of a window that is a moment.
fn wrong_end(alloc: Global, words: &[String]) -> Result<String, AllocError> {
    let (Some((_, from)), Some((_, to))) = (given(words, Key::From), given(words, Key::To)) else {
        return String::from_str(alloc, "the moment doesn't fit the other words");
    };
    let wrong = match (from.ends_with('Z'), to.ends_with('Z')) {
        (true, false) => "from= has a Z and to= has none",
        (false, true) => "to= has a Z and from= has none",
        _ => "from= is later than to=",
    };
    String::from_str(alloc, wrong)
}

/// What is wrong with the value that a word gives a key which the command takes.
fn wrong_value(
    alloc: Global,
    words: &[String],
    key: Key,
    value: &str,
) -> Result<String, AllocError> {
    match key {
        Key::At | Key::From | Key::To => match read_moment(value.as_bytes()) {
            Some(_) => wrong_end(alloc, words),
            None => no_moment(alloc, value.as_bytes()),
        },
        Key::Dir => String::from_str(alloc, "a direction is fore or back"),
        Key::Limit => {
            format!(in alloc; "a limit is a number from 1 to {MAX_LIMIT}, in digits alone")
        }
        Key::Budget => {
            format!(in alloc; "a budget is a number from 1 to {MAX_BUDGET}, in digits alone")
        }
        Key::Token => String::from_str(
            alloc,
            "no token; take the whole one of a line `more T` or `budget T`",
        ),
        Key::Seed => {
            let most = u64::MAX;
            format!(in alloc; "a seed is a number from 0 to {most}, in digits alone")
        }
    }
}

/// What is wrong with a word behind the command.
fn wrong_word(
    alloc: Global,
    words: &[String],
    number: usize,
    command: Command,
    name: &str,
) -> Result<String, AllocError> {
    let word = match words.get(number) {
        Some(word) => word.as_str(),
        None => "",
    };
    let taken = keys_taken(alloc, command, name)?;
    let Some((spelled, value)) = word.split_once('=') else {
        return format!(in alloc; "a word behind {name} is KEY=VALUE; {taken}");
    };
    let Some(key) = Key::named(spelled) else {
        return format!(in alloc; "no such key; {taken}");
    };
    if !command.takes(key) {
        return Ok(taken);
    }
    match given(words, key) {
        Some((earlier, _)) if earlier < number => {
            format!(in alloc; "{spelled}= stands before it, in word {earlier}")
        }
        _ => wrong_value(alloc, words, key, value),
    }
}

/// What is wrong with the words.
pub(crate) fn of_words(
    alloc: Global,
    words: &[String],
    fault: WordsFault,
) -> Result<String, AllocError> {
    let name = match words.first() {
        Some(first) => first.as_str(),
        None => "",
    };
    let number = match fault {
        WordsFault::Unbuilt => return at_word(alloc, 0, name, "this command isn't built yet"),
        WordsFault::Bad(number) => number,
    };
    let Some(word) = words.get(number) else {
        return missing(alloc, words);
    };
    match Command::named(name) {
        Some(command) if number > 0 => {
            let what = wrong_word(alloc, words, number, command, name)?;
            at_word(alloc, number, word.as_str(), what.as_str())
        }
        _ => no_command(alloc, name),
    }
}
