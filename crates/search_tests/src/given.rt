//! What tests give: rows, sets and positions.

ghost use Rattle.std.specs.Prelude.{◌≡◌, true};
ghost use Rattle.moment_core.specs.Line.{IsCalendarPosition};
ghost use Rattle.expr_tree.specs.Tree.{tree_of};
ghost use Rattle.cert_audit.specs.Lowered.{CanBeReady};

use expr_text::read_sorted;
use expr_tree::Expr;
use moment_core::{HIGH, LOW, Pos};
use std::alloc::{AllocError, Global};
use std::process::Abort;
use stored_pair::Book;

/// The rows of a text, one a line: what is asked and what is wanted, with an arrow between them.
pub(crate) fn rows_of<'t>(
    rt: &impl Abort,
    alloc: Global,
    text: &'t str,
) -> Result<Vec<(&'t str, &'t str)>, AllocError> {
    let mut rows = Vec::new(alloc);
    for line in text.lines() {
        let Some(row) = line.split_once(" -> ") else {
            panic!(rt; "no row: {line}");
        };
        rows.push(row)?;
    }
    assert!(rt; !rows.is_empty(), "a text without rows");
    Ok(rows)
}

/// The set of the text.
pub(crate) fn set_of(rt: &impl Abort, alloc: Global, text: &str) -> Expr
    ensures { CanBeReady (tree_of result) }
{
    match read_sorted(alloc, text.as_bytes(), &Book::empty(alloc)) {
        Ok(program) => program.first.set,
        Err(fault) => panic!(rt; "{text}: {fault:?}"),
    }
}

pub(crate) fn is_in_range(p: Pos) -> bool
    ensures { result ≡ true → IsCalendarPosition p.0 }
{
    2 * LOW <= p.0 && p.0 <= 2 * HIGH
}
