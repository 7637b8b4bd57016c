//! Places in texts, and messages that point at them.

use std::alloc::{AllocError, Global};

/// The most bytes of a line that are shown before a place.
const SHOWN_BEFORE: usize = 60;

/// The most bytes of a line that are shown.
const SHOWN: usize = 90;

/// The character that shows a byte: itself where it is printable ASCII.
pub(crate) fn shown(b: u8) -> char {
    match b {
        b' '..=b'~' => char::from(b),
        b'\t' => ' ',
        _ => '?',
    }
}

/// The number of the line in which the byte stands, from 1, and the first byte of that line.
fn line_of(text: &[u8], byte: usize) -> (usize, usize) {
    let mut number = 1usize;
    let mut start = 0usize;
    for (i, b) in text.iter().enumerate() {
        if i >= byte {
            break;
        }
        if *b == b'\n' {
            number = number.saturating_add(1);
            start = i.saturating_add(1);
        }
    }
    (number, start)
}

/// Puts the line that begins at `start`, and a caret under the byte. A long line is cut.
fn put_excerpt(out: &mut String, text: &[u8], start: usize, byte: usize) -> Result<(), AllocError> {
    let from = byte.saturating_sub(SHOWN_BEFORE).max(start);
    out.push_str("\n  ")?;
    if from > start {
        out.push_str("..")?;
    }
    let rest = text.get(from..).unwrap_or(&[]);
    for b in rest.iter().take(SHOWN) {
        if *b == b'\n' || *b == b'\r' {
            break;
        }
        out.push(shown(*b))?;
    }
    out.push_str("\n  ")?;
    if from > start {
        out.push_str("  ")?;
    }
    for _ in from..byte {
        out.push(' ')?;
    }
    out.push('^')
}

/// A message on what stands at a byte of a text.
pub(crate) fn at_byte(
    alloc: Global,
    text: &[u8],
    byte: usize,
    what: &str,
) -> Result<String, AllocError> {
    let (line, start) = line_of(text, byte);
    let column = byte.saturating_sub(start).saturating_add(1);
    let mut out = format!(in alloc; "towhipae: line {line}, column {column}: {what}")?;
    put_excerpt(&mut out, text, start, byte)?;
    Ok(out)
}

/// A message without a place.
pub(crate) fn plain(alloc: Global, what: &str) -> Result<String, AllocError> {
    format!(in alloc; "towhipae: {what}")
}

/// A message on what stands at a byte, where that is known.
pub(crate) fn at_place(
    alloc: Global,
    text: &[u8],
    byte: Option<usize>,
    what: &str,
) -> Result<String, AllocError> {
    match byte {
        Some(byte) => at_byte(alloc, text, byte, what),
        None => plain(alloc, what),
    }
}
