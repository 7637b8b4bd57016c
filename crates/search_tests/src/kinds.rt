//! Tests of expr_tree: which sort a tree has.

use crate::given::rows_of;
use expr_text::{TextFault, read_sorted};
use expr_tree::{Expr, Kind, Sort, SortFault, sort_of};
use moment_core::{Clock, REACH};
use std::alloc::{AllocError, Global};
use std::process::Abort;
use std::test::Fail;
use stored_pair::Book;

/// The sort of the set of the text, or why it is none.
fn sort_in(alloc: Global, text: &str) -> Result<Sort, TextFault> {
    let book = Book::empty(alloc);
    let program = read_sorted(alloc, text.as_bytes(), &book)?;
    Ok(program.first.sort)
}

/// A kind and a clock, or a fault.
fn told(alloc: Global, sort: Result<Sort, TextFault>) -> Result<String, AllocError> {
    match sort {
        Ok(Sort { kind, clock, .. }) => format!(in alloc; "{kind:?} {clock:?}"),
        Err(fault) => format!(in alloc; "{fault:?}"),
    }
}

/// Each row is a set with its kind and its clock, or with its fault.
fn are_told(rt: &impl Abort, alloc: Global, rows: &str) -> Result<(), Fail> {
    for (text, wanted) in rows_of(rt, alloc, rows)? {
        let found = told(alloc, sort_in(alloc, text))?;
        assert_eq!(rt; found.as_str(), wanted, "{text}");
    }
    Ok(())
}

#[test]
fn a_leaf_has_its_own_kind_and_clock(rt: HostRuntime) -> Result<(), Fail> {
    const ROWS: &str = "\
empty() -> Moments Any
{1970-01-01T00:00:00, 1970-01-01T00:00:00} -> Moments Floating
{1970-01-01T00:00:00Z, 1970-01-01T00:00:00Z} -> Moments Absolute
{1970-01-01T00:00:00, 1970-01-01T00:00:00Z} -> Sort(Clock)
span(start 1970-01-01T00:00:00) -> Spans Floating
span(start 1970-01-01T00:00:00, before 1970-01-01T00:00:01Z) -> Sort(Clock)
";
    are_told(&rt, rt.alloc(), ROWS)
}

#[test]
fn unions_have_spans_where_either_has(rt: HostRuntime) -> Result<(), Fail> {
    const ROWS: &str = "\
{1970-01-01T00:00:00} | empty() -> Moments Floating
{1970-01-01T00:00:00} | span(start 1970-01-01T00:00:00) -> Spans Floating
{1970-01-01T00:00:00} | {1970-01-01T00:00:00Z} -> Sort(Clock)
";
    are_told(&rt, rt.alloc(), ROWS)
}

#[test]
fn meets_have_moments_where_either_has(rt: HostRuntime) -> Result<(), Fail> {
    const ROWS: &str = "\
span(start 1970-01-01T00:00:00) & {1970-01-01T00:00:00} -> Moments Floating
span(start 1970-01-01T00:00:00) & span(start 1970-01-01T00:00:00) -> Spans Floating
";
    are_told(&rt, rt.alloc(), ROWS)
}

#[test]
fn differences_have_the_kind_of_the_first_and_inverses_have_spans(
    rt: HostRuntime,
) -> Result<(), Fail> {
    const ROWS: &str = "\
{1970-01-01T00:00:00} - span(start 1970-01-01T00:00:00) -> Moments Floating
span(start 1970-01-01T00:00:00) - {1970-01-01T00:00:00} -> Spans Floating
!{1970-01-01T00:00:00Z} -> Spans Absolute
";
    are_told(&rt, rt.alloc(), ROWS)
}

#[test]
fn spans_are_made_of_moments_alone(rt: HostRuntime) -> Result<(), Fail> {
    const ROWS: &str = "\
during({1970-01-01T00:00:00}, 3600) -> Spans Floating
pairs({1970-01-01T00:00:00Z}, empty()) -> Spans Absolute
during(span(start 1970-01-01T00:00:00), 60) -> Sort(Kind)
pairs({1970-01-01T00:00:00Z}, span(start 1970-01-01T00:00:00)) -> Sort(Kind)
pairs({1970-01-01T00:00:00}, {1970-01-01T00:00:00Z}) -> Sort(Clock)
";
    are_told(&rt, rt.alloc(), ROWS)
}

#[test]
fn starts_and_ends_are_moments_and_shifts_keep_the_kind(rt: HostRuntime) -> Result<(), Fail> {
    const ROWS: &str = "\
starts(span(start 1970-01-01T00:00:00)) -> Moments Floating
ends(span(start 1970-01-01T00:00:00)) -> Moments Floating
shift(span(start 1970-01-01T00:00:00), 60) -> Spans Floating
";
    are_told(&rt, rt.alloc(), ROWS)
}

#[test]
fn durations_and_shifts_reach_no_farther_than_they_may(rt: HostRuntime) {
    const REFUSED: TextFault = TextFault::Sort(SortFault::Reach);
    const ROWS: &[(&str, Result<i64, TextFault>)] = &[
        ("shift(during(starts(empty()), 60), -2838239939)", Ok(REACH)),
        ("shift(ends(empty()), 2838240000)", Err(REFUSED)),
        ("during(empty(), 0)", Err(REFUSED)),
    ];
    for (text, reach) in ROWS {
        let found = sort_in(rt.alloc(), text).map(|sort| sort.reach);
        assert_eq!(rt; found, *reach, "{text}");
    }
}

fn inverse(alloc: Global, a: Expr) -> Result<Expr, AllocError> {
    Ok(Expr::Not(Box::new(alloc, a)?))
}

/// The inverse of no position, taken so many times.
fn inverses(alloc: Global, times: u32) -> Result<Expr, AllocError> {
    let mut set = Expr::Empty;
    for _ in 0..times {
        set = inverse(alloc, set)?;
    }
    Ok(set)
}

/// Unions of unions, down so many levels.
fn unions(alloc: Global, levels: u32) -> Result<Expr, AllocError> {
    if levels == 0 {
        return Ok(Expr::Empty);
    }
    let left = Box::new(alloc, unions(alloc, levels - 1)?)?;
    let right = Box::new(alloc, unions(alloc, levels - 1)?)?;
    Ok(Expr::Union(left, right))
}

/// The sort of a set, which is given up.
fn sort(set: Expr, book: &Book) -> Result<Sort, SortFault> {
    sort_of(&set, book)
}

/// The sort of a tree of spans without a clock that has this depth and so many nodes.
fn sized(depth: u32, nodes: u32) -> Result<Sort, SortFault> {
    Ok(Sort {
        kind: Kind::Spans,
        clock: Clock::Any,
        reach: 0,
        depth,
        nodes,
    })
}

#[test]
fn a_tree_has_at_most_128_nodes_on_a_path(rt: HostRuntime) -> Result<(), Fail> {
    let alloc = rt.alloc();
    let book = Book::empty(alloc);
    assert_eq!(rt; sort(inverses(alloc, 127)?, &book), sized(128, 128));
    assert_eq!(rt; sort(inverses(alloc, 128)?, &book), Err(SortFault::Depth));
    Ok(())
}

#[test]
fn a_tree_has_at_most_1024_nodes(rt: HostRuntime) -> Result<(), Fail> {
    let alloc = rt.alloc();
    let book = Book::empty(alloc);
    let full = inverse(alloc, unions(alloc, 9)?)?;
    assert_eq!(rt; sort(full, &book), sized(11, 1024));
    let more = inverse(alloc, inverse(alloc, unions(alloc, 9)?)?)?;
    assert_eq!(rt; sort(more, &book), Err(SortFault::Nodes));
    assert_eq!(rt; sort(inverses(alloc, 1024)?, &book), Err(SortFault::Nodes));
    Ok(())
}
