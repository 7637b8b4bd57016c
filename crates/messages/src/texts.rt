//! What is wrong with a text.

use crate::dates::no_moment;
use crate::grammar::of_syntax;
use crate::places::{at_byte, at_place, plain};
use crate::rrules::of_rrule;
use crate::rules::of_rule;
use crate::sets::of_sort;
use crate::tokens::{Tokens, no_token};
use expr_text::{LONGEST, TextFault};
use expr_tokens::{Token, TokenFault, Word, tokens};
use moment_text::shaped_front;
use std::alloc::{AllocError, Global};

/// The tokens of a text, as many as are read.
pub(crate) fn tokens_of(alloc: Global, text: &[u8]) -> Result<Vec<Token<'_>>, AllocError> {
    match tokens(alloc, text) {
        Ok(found) => Ok(found),
        Err(TokenFault::Token { .. }) => Ok(Vec::new(alloc)),
        Err(TokenFault::Memory) => Err(AllocError),
    }
}

/// Whether a call of this name isn't built.
fn is_unbuilt(word: Word) -> bool {
    matches!(word, Word::Event | Word::Zoned | Word::ZonedFirst)
}

/// The number of the token that is the first name of a call which isn't built.
fn unbuilt_call(tokens: &[Token<'_>]) -> Option<usize> {
    let mut named = None;
    for (i, token) in tokens.iter().enumerate() {
        match token {
            Token::Open if named.is_some() => return named,
            Token::Word(word, _) if is_unbuilt(*word) => named = Some(i),
            _ => named = None,
        }
    }
    None
}

/// A message on the first call that isn't built.
fn of_unbuilt(alloc: Global, tokens: &Tokens<'_, '_>) -> Result<String, AllocError> {
    let Some(index) = unbuilt_call(tokens.found) else {
        return plain(alloc, "a call isn't built yet");
    };
    let name = tokens.name(alloc, index)?;
    let what = format!(in alloc; "{name} isn't built yet")?;
    at_byte(alloc, tokens.text, tokens.place(index), what.as_str())
}

/// A message on a literal that names no moment, or on a span without a position.
fn of_moment(alloc: Global, text: &[u8], byte: usize) -> Result<String, AllocError> {
    let bytes = text.get(byte..).unwrap_or(&[]);
    if bytes.starts_with(b"span") {
        return at_byte(
            alloc,
            text,
            byte,
            "nothing lies between the bounds of this span",
        );
    }
    let literal = bytes.get(..shaped_front(bytes)).unwrap_or(&[]);
    let what = no_moment(alloc, literal)?;
    at_byte(alloc, text, byte, what.as_str())
}

/// A message on a text of tokens.
fn of_tokens(
    alloc: Global,
    tokens: &Tokens<'_, '_>,
    fault: TextFault,
) -> Result<String, AllocError> {
    match fault {
        TextFault::Unbuilt => of_unbuilt(alloc, tokens),
        TextFault::Syntax => of_syntax(alloc, tokens),
        TextFault::Rule(fault) => of_rule(alloc, tokens, fault),
        TextFault::Rrule(_) => of_rrule(alloc, tokens),
        TextFault::Sort(fault) => of_sort(alloc, tokens, fault),
        TextFault::Long => { format!(in alloc; "towhipae: the text has more than {LONGEST} bytes") }
        TextFault::Token { byte } => {
            let what = no_token(alloc, tokens.text, byte)?;
            at_place(alloc, tokens.text, Some(byte), what.as_str())
        }
        TextFault::Moment { byte } => of_moment(alloc, tokens.text, byte),
        TextFault::Memory => Err(AllocError),
    }
}

/// A message on a text with this fault.
pub(crate) fn of_text(alloc: Global, text: &[u8], fault: TextFault) -> Result<String, AllocError> {
    let found = tokens_of(alloc, text)?;
    let tokens = Tokens {
        text,
        found: found.as_slice(),
    };
    of_tokens(alloc, &tokens, fault)
}
