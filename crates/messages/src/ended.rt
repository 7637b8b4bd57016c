//! The message on a query that ended without its whole answer.

use crate::sets::{of_clock, of_settling, of_stop, of_two};
use crate::texts::{of_text, tokens_of};
use crate::tokens::Tokens;
use crate::words::of_words;
use expr_text::read_sorted;
use query_words::read_words;
use std::alloc::{AllocError, Global};
use std::io::ErrorKind;
use stored_pair::Book;

/// What is said of words that aren't all texts.
pub const UNREADABLE_WORDS: &str = "towhipae: the words aren't all UTF-8";

/// What is said where memory ran out.
pub const NO_MEMORY: &str = "towhipae: memory ran out; nothing was written";

/// What is said where a write failed.
pub const CUT_OFF: &str = "towhipae: standard output didn't take all of the lines";

/// What is said where the text comes from a terminal.
pub const WAITING: &str = "towhipae: the text that says what the set is comes from the terminal; \
                           end it by a line feed and Ctrl-D";

/// A query that ended.
#[derive(Clone, Copy)]
pub struct Ended<'a> {
    /// The words behind the program's name.
    pub words: &'a [String],
    /// The text, as far as it was read.
    pub text: &'a [u8],
    /// The first bytes of the line that was written last.
    pub line: &'a [u8],
}

/// A message on a query that was refused.
fn of_refusal(alloc: Global, book: &Book, ended: &Ended<'_>) -> Result<String, AllocError> {
    if let Err(fault) = read_words(ended.words) {
        return of_words(alloc, ended.words, fault);
    }
    if let Err(fault) = read_sorted(alloc, ended.text, book) {
        return of_text(alloc, ended.text, fault);
    }
    if ended.line.starts_with(b"refused settle") {
        return of_settling(alloc);
    }
    if ended.line.starts_with(b"refused clock") {
        return of_clock(alloc, ended.words);
    }
    let found = tokens_of(alloc, ended.text)?;
    let tokens = Tokens {
        text: ended.text,
        found: found.as_slice(),
    };
    let command = match ended.words.first() {
        Some(first) => first.as_str(),
        None => "",
    };
    of_two(alloc, &tokens, command)
}

/// What is said of a query that was refused or stopped, or None for another status.
///
/// What is said of the others takes no memory: [`unread`], [`CUT_OFF`] and [`NO_MEMORY`].
pub fn message(
    alloc: Global,
    book: &Book,
    ended: &Ended<'_>,
    status: u8,
) -> Result<Option<String>, AllocError> {
    let message = match status {
        2 => of_refusal(alloc, book, ended)?,
        3 => of_stop(alloc, ended.words, ended.line)?,
        _ => return Ok(None),
    };
    Ok(Some(message))
}

/// What is said where the text couldn't be read, by the kind of the failure.
pub fn unread(kind: Option<ErrorKind>) -> &'static str {
    match kind {
        Some(ErrorKind::IsADirectory) => {
            "towhipae: standard input is a folder; the text stands in a file, as in < FILE"
        }
        _ => "towhipae: standard input can't be read; the text stands in a file, as in < FILE",
    }
}
