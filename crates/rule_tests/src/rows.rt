use std::process::Abort;
use std::str::Lines;

/// The rows of a text, one a line. A text without rows is refused.
pub(crate) fn rows<'a>(rt: &impl Abort, text: &'a str) -> Lines<'a> {
    assert!(rt; !text.is_empty(), "no rows");
    text.lines()
}

/// What a row asks and what it wants, with an arrow between them. Another row is refused.
pub(crate) fn sides<'a>(rt: &impl Abort, row: &'a str) -> (&'a str, &'a str) {
    let Some(sides) = row.split_once(" -> ") else {
        panic!(rt; "no row: {row}");
    };
    sides
}
