//! What is wrong with sets that are read, and why a search over them stopped.

use crate::places::{at_place, plain};
use crate::tokens::Tokens;
use crate::words::{at_word, given, key_name};
use expr_tokens::{Token, Word};
use expr_tree::SortFault;
use query_words::{DEFAULT_BUDGET, Key, MAX_BUDGET};
use std::alloc::{AllocError, Global};

/// Whether a call of this token is made of moments.
fn is_made_of_moments(token: &Token<'_>) -> bool {
    matches!(token, Token::Word(Word::During | Word::Pairs, _))
}

/// Where the one call stands that is made of moments, or None where there are several.
fn only_call(tokens: &[Token<'_>]) -> Option<usize> {
    let mut found = None;
    for token in tokens {
        if let Token::Word(_, place) = token {
            if is_made_of_moments(token) {
                if found.is_some() {
                    return None;
                }
                found = Some(*place);
            }
        }
    }
    found
}

/// The first literal on another clock than the first one, and whether it has a Z.
fn other_clock(tokens: &[Token<'_>]) -> Option<(usize, bool)> {
    let mut first = None;
    for token in tokens {
        if let Token::Moment(Some(stamp), place) = token {
            match first {
                None => first = Some(stamp.absolute),
                Some(absolute) if absolute != stamp.absolute => {
                    return Some((*place, stamp.absolute));
                }
                Some(_) => {}
            }
        }
    }
    None
}

/// A message on two clocks in one set.
fn of_clocks(alloc: Global, tokens: &Tokens<'_, '_>) -> Result<String, AllocError> {
    match other_clock(tokens.found) {
        Some((byte, true)) => at_place(
            alloc,
            tokens.text,
            Some(byte),
            "this moment has a Z and those before it have none: a set has one clock",
        ),
        Some((byte, false)) => at_place(
            alloc,
            tokens.text,
            Some(byte),
            "this moment has no Z and those before it have one: a set has one clock",
        ),
        None => plain(
            alloc,
            "a part of the set has moments with Z and another has some without; a rule without \
             start= has none",
        ),
    }
}

/// A message on a text whose sets don't fit together.
pub(crate) fn of_sort(
    alloc: Global,
    tokens: &Tokens<'_, '_>,
    fault: SortFault,
) -> Result<String, AllocError> {
    let what = match fault {
        SortFault::Clock => return of_clocks(alloc, tokens),
        SortFault::Kind => {
            let what = "during and pairs are made of moments, and here is a set of spans: \
                        starts(..) or ends(..) of it are the moments at which its spans begin or \
                        end";
            return at_place(alloc, tokens.text, only_call(tokens.found), what);
        }
        SortFault::Nodes => "the set has more than 1024 parts",
        SortFault::Depth => {
            "the set is more than 128 parts deep: a chain a | b | c is as deep as it is long, and \
             brackets, (a | b) | (c | d), make it shallow"
        }
        SortFault::Event => "no recurrence of the program has this name",
        SortFault::Reach => {
            "a duration is 1 second or more, and durations and shifts, one in the other, come to \
             2838240000 seconds at most"
        }
    };
    plain(alloc, what)
}

/// A message on a second set where the command asks about one.
pub(crate) fn of_two(
    alloc: Global,
    tokens: &Tokens<'_, '_>,
    command: &str,
) -> Result<String, AllocError> {
    let mut byte = None;
    for (i, token) in tokens.found.iter().enumerate() {
        if let Token::Semicolon = token {
            byte = Some(tokens.place(i));
            break;
        }
    }
    let what = format!(in alloc; "{command} asks about one set, and here a second one follows")?;
    at_place(alloc, tokens.text, byte, what.as_str())
}

/// A message on a moment of the words that isn't on the set's clock.
pub(crate) fn of_clock(alloc: Global, words: &[String]) -> Result<String, AllocError> {
    for key in [Key::At, Key::From, Key::To] {
        if let Some((number, value)) = given(words, key) {
            let what = if value.ends_with('Z') {
                "this moment has a Z and the set's moments have none"
            } else {
                "this moment has no Z and the set's moments have one"
            };
            let name = key_name(key);
            let word = format!(in alloc; "{name}={value}")?;
            return at_word(alloc, number, word.as_str(), what);
        }
    }
    plain(alloc, "the words' moments and the set's are on two clocks")
}

/// A message on a COUNT that isn't settled.
pub(crate) fn of_settling(alloc: Global) -> Result<String, AllocError> {
    plain(
        alloc,
        "a COUNT isn't reached within 20000000 places of its rule: end the rule by UNTIL, or by a \
         smaller COUNT",
    )
}

/// Why a search stopped, by the number behind its position; None where the line has no number.
fn stopped_part(line: &str) -> Option<&str> {
    let (front, number) = line.trim_ascii().rsplit_once(' ')?;
    if front == "budget" {
        None
    } else {
        Some(number)
    }
}

/// A message on a search that stopped for its budget.
pub(crate) fn of_stop(alloc: Global, words: &[String], line: &[u8]) -> Result<String, AllocError> {
    let default = format!(in alloc; "{DEFAULT_BUDGET}")?;
    let budget = match given(words, Key::Budget) {
        Some((_, value)) => value,
        None => default.as_str(),
    };
    let line = match std::str::from_utf8(line) {
        Ok(line) => line,
        Err(_) => "",
    };
    let passed = format!(in alloc;
        "{budget} places of change, all that its budget allows: budget= may be up to {MAX_BUDGET}"
    )?;
    match stopped_part(line) {
        None => format!(in alloc;
            "towhipae: the walk passed {passed}; resume goes on from the token"
        ),
        Some("0") => format!(in alloc; "towhipae: the search passed {passed}"),
        Some(part) => format!(in alloc;
            "towhipae: part {part} of the set looked back past {passed}"
        ),
    }
}
