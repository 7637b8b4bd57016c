//! Where the tokens of a text stand, and what is wrong where none begins.

use crate::dates::FORM;
use crate::places::shown;
use expr_tokens::{STRING_LIMIT, Token};
use moment_text::shaped_front;
use std::alloc::{AllocError, Global};

/// The most bytes of a name that are shown.
const SHOWN: usize = 40;

/// A text and its tokens.
#[derive(Clone, Copy)]
pub(crate) struct Tokens<'t, 'a> {
    pub(crate) text: &'t [u8],
    pub(crate) found: &'t [Token<'a>],
}

fn is_blank(b: u8) -> bool {
    matches!(b, b' ' | b'\t' | b'\n' | b'\r')
}

fn is_of_name(b: u8) -> bool {
    matches!(b, b'a'..=b'z' | b'0'..=b'9' | b'_')
}

/// How many blanks stand in front.
fn blanks(bytes: &[u8]) -> usize {
    match bytes.iter().position(|b| !is_blank(*b)) {
        Some(n) => n,
        None => bytes.len(),
    }
}

/// How many bytes of a name or of digits stand in front.
fn name_width(bytes: &[u8]) -> usize {
    match bytes.iter().position(|b| !is_of_name(*b)) {
        Some(n) => n,
        None => bytes.len(),
    }
}

/// How many digits stand in front.
fn digits_width(bytes: &[u8]) -> usize {
    match bytes.iter().position(|b| !b.is_ascii_digit()) {
        Some(n) => n,
        None => bytes.len(),
    }
}

/// How many bytes the token in front has.
fn width(token: &Token<'_>, bytes: &[u8]) -> usize {
    match token {
        Token::Word(..) | Token::Name(_) => name_width(bytes),
        Token::Text(quoted) => quoted.len().saturating_add(2),
        Token::Moment(..) => shaped_front(bytes),
        Token::Number(_) => match bytes {
            [b'-', rest @ ..] => digits_width(rest).saturating_add(1),
            _ => digits_width(bytes),
        },
        _ => 1,
    }
}

impl<'t, 'a> Tokens<'t, 'a> {
    /// What stands behind so many tokens, blanks included.
    fn behind(&self, count: usize) -> &'t [u8] {
        let mut rest = self.text;
        for token in self.found.iter().take(count) {
            let at = rest.get(blanks(rest)..).unwrap_or(&[]);
            rest = at.get(width(token, at)..).unwrap_or(&[]);
        }
        rest
    }

    /// The first byte of the token of this number, or the one behind all of them.
    pub(crate) fn place(&self, index: usize) -> usize {
        let rest = self.behind(index);
        let gap = if index < self.found.len() {
            blanks(rest)
        } else {
            0
        };
        self.text
            .len()
            .saturating_sub(rest.len())
            .saturating_add(gap)
    }

    /// What a message calls the token of this number.
    pub(crate) fn name(&self, alloc: Global, index: usize) -> Result<String, AllocError> {
        match self.found.get(index) {
            None => String::from_str(alloc, "the end of the text"),
            Some(Token::Moment(..)) => String::from_str(alloc, "a moment"),
            Some(Token::Number(_)) => String::from_str(alloc, "a number"),
            Some(Token::Text(_)) => String::from_str(alloc, "a string"),
            Some(token) => {
                let at = self.text.get(self.place(index)..).unwrap_or(&[]);
                let mut out = String::new(alloc);
                for b in at.iter().take(width(token, at).min(SHOWN)) {
                    out.push(shown(*b))?;
                }
                Ok(out)
            }
        }
    }
}

/// What is wrong with a string that begins with the quote in front.
fn bad_string(bytes: &[u8]) -> &'static str {
    for b in bytes.iter().skip(1) {
        match b {
            b'"' => return "a string has at most 1024 bytes between its quotes",
            b'\n' | b'\r' => return "no quote ends this string",
            b' '..=b'~' => {}
            _ => return "a string has printable ASCII alone between its quotes",
        }
    }
    "no quote ends this string"
}

const _: () = prove!(STRING_LIMIT == 1024);

/// Whether a digit stands before the byte.
fn follows_digit(text: &[u8], byte: usize) -> bool {
    match text.get(byte.saturating_sub(1)) {
        Some(b) => b.is_ascii_digit(),
        None => false,
    }
}

/// What is wrong at a byte at which no token begins.
pub(crate) fn no_token(alloc: Global, text: &[u8], byte: usize) -> Result<String, AllocError> {
    let bytes = text.get(byte..).unwrap_or(&[]);
    let wrong = match bytes.first().copied() {
        Some(b'"') => bad_string(bytes),
        Some(b'0'..=b'9' | b'-') => "a number has at most 13 digits",
        Some(b'T' | b'Z' | b':') if follows_digit(text, byte) => FORM,
        Some(b'A'..=b'Z') => "names are written in small letters",
        Some(b'\'') => "a string stands in double quotes",
        Some(b @ b'!'..=b'~') => {
            let sign = char::from(b);
            return format!(in alloc; "nothing in a text begins with {sign}");
        }
        _ => "a text is written in ASCII",
    };
    String::from_str(alloc, wrong)
}
