//! Tests of query_words. Words that are refused are rows of the built program.

use moment_core::{Dir, Moment, Pos, Stamp};
use query_words::{Neighbour, Query, read_words};
use span_core::Token;
use std::alloc::{AllocError, Global};
use std::process::Abort;
use std::test::Fail;

// 2024-01-01T00:00:00 is `date -u -d 2024-01-01 +%s`.
const AT: Moment = Moment(1_704_067_200);

const FLOATING: Stamp = Stamp {
    moment: AT,
    absolute: false,
};

const ABSOLUTE: Stamp = Stamp {
    moment: AT,
    absolute: true,
};

/// The first position past a window that ends at 3.
const PAST: Token = Token {
    dir: Dir::Fore,
    place: Pos(4),
    begun: None,
    end: Pos(3),
};

/// The words of the line are read as this query.
fn is_read(rt: &impl Abort, alloc: Global, line: &str, query: Query) -> Result<(), AllocError> {
    let mut words = Vec::new(alloc);
    for word in line.split_whitespace() {
        words.push(String::from_str(alloc, word)?)?;
    }
    assert_eq!(rt; read_words(words.as_slice()), Ok(query), "{line}");
    Ok(())
}

#[test]
fn next_is_read_with_or_without_a_budget(rt: HostRuntime) -> Result<(), Fail> {
    const ROWS: &[(&str, bool, u64)] = &[
        ("next at=2024-01-01T00:00:00", false, 100_000_000),
        ("next at=2024-01-01T00:00:00Z", true, 100_000_000),
        ("next at=2024-01-01T00:00:00 budget=5", false, 5),
        (
            "next budget=1000000000000 at=2024-01-01T00:00:00",
            false,
            1_000_000_000_000,
        ),
        (
            "next at=2024-01-01T00:00:00 budget=000000000000000000000000000007",
            false,
            7,
        ),
    ];
    for (line, absolute, budget) in ROWS {
        let at = Stamp {
            moment: AT,
            absolute: *absolute,
        };
        let near = Query::Near {
            side: Neighbour::Next,
            at,
            budget: *budget,
        };
        is_read(&rt, rt.alloc(), line, near)?;
    }
    Ok(())
}

#[test]
fn walks_resumed_walks_and_shown_sets_are_read(rt: HostRuntime) -> Result<(), Fail> {
    const ROWS: &[(&str, Query)] = &[
        (
            "walk",
            Query::Walk {
                from: None,
                to: None,
                dir: Dir::Fore,
                limit: 1_000,
                budget: 100_000_000,
            },
        ),
        (
            "walk limit=1000000 to=2024-01-01T00:00:00 dir=back",
            Query::Walk {
                from: None,
                to: Some(FLOATING),
                dir: Dir::Back,
                limit: 1_000_000,
                budget: 100_000_000,
            },
        ),
        (
            "walk to=2024-01-01T00:00:00Z from=2024-01-01T00:00:00Z dir=fore budget=5 limit=07",
            Query::Walk {
                from: Some(ABSOLUTE),
                to: Some(ABSOLUTE),
                dir: Dir::Fore,
                limit: 7,
                budget: 5,
            },
        ),
        (
            "resume token=fore:4:-:3",
            Query::Resume {
                token: PAST,
                limit: 1_000,
                budget: 100_000_000,
            },
        ),
        (
            "resume budget=5 limit=7 token=fore:4:-:3",
            Query::Resume {
                token: PAST,
                limit: 7,
                budget: 5,
            },
        ),
        ("show", Query::Show),
    ];
    for (line, query) in ROWS {
        is_read(&rt, rt.alloc(), line, *query)?;
    }
    Ok(())
}
