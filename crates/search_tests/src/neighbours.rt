//! Tests of query_core.

ghost use Rattle.std.specs.Prelude.{◌≡◌, ◌<◌};
ghost use Rattle.moment_core.specs.Line.{IsCalendarMoment};

use crate::given::set_of;
use moment_core::{HIGH, LOW, Moment, Pos, Steps, Window, in_range};
use plan_core::Plan;
use query_core::{closest, contains, current, next, previous};
use span_core::{Bound, Near, Run, Test};
use std::alloc::Global;
use std::marker::Brand;
use std::process::Abort;
use std::sync::ledger::{Blank, Ledger};
use std::test::Fail;
use stored_pair::Book;

/// 2024-01-01T00:00:00, and ten seconds later.
const T: Moment = Moment(1_704_067_200);

const LATER: Moment = Moment(1_704_067_210);

#[derive(Clone, Copy, Debug)]
enum Query {
    Next,
    Previous,
    Current,
    Closest,
}

/// A query, its moment and its answer.
#[derive(Clone, Copy)]
struct Row(Query, Moment, Near);

fn ask<L: Ledger>(plan: &mut Plan, query: Query, at: Moment, blank: Blank) -> Near
    requires at { IsCalendarMoment at.0 }
    requires name { blank.name ≡ L.name }
    requires parts { blank.parts ≡ L.parts }
    requires some { 0 < blank.parts }
{
    let mut steps = Steps::<L>::new(blank);
    let _member = contains(plan, at, 1, &mut steps) == Test::In;
    match query {
        Query::Next => next(plan, at, 10_000, &mut steps),
        Query::Previous => previous(plan, at, 10_000, &mut steps),
        Query::Current => current(plan, at, 10_000, &mut steps),
        Query::Closest => closest(plan, at, 10_000, &mut steps),
    }
}

fn asked(plan: &mut Plan, query: Query, at: Moment) -> Near
    requires { IsCalendarMoment at.0 }
{
    ask::<Brand>(plan, query, at, Blank::new(1))
}

/// The set of the text gives each answer.
fn gives(rt: &impl Abort, alloc: Global, text: &str, rows: &[Row]) -> Result<(), Fail> {
    let set = set_of(rt, alloc, text);
    let book = Book::empty(alloc);
    let mut plan = Plan::make(alloc, &set, &book)?;
    for Row(query, at, want) in rows {
        assert!(rt; in_range(*at));
        assert_eq!(rt; asked(&mut plan, *query, *at), *want, "{query:?} at {at:?}");
    }
    Ok(())
}

fn found(first: Bound, last: Bound) -> Near {
    Near::Found(Run { first, last })
}

fn never(lo: i64, hi: i64) -> Near {
    Near::None(Window {
        lo: Pos(lo),
        hi: Pos(hi),
    })
}

const FIRST: Near = Near::Found(Run {
    first: Bound::Closed(T),
    last: Bound::Closed(T),
});

const SECOND: Near = Near::Found(Run {
    first: Bound::Closed(LATER),
    last: Bound::Closed(LATER),
});

#[test]
fn two_moments_and_a_tie(rt: HostRuntime) -> Result<(), Fail> {
    const TEXT: &str = "{2024-01-01T00:00:00, 2024-01-01T00:00:10}";
    let rows = [
        Row(Query::Next, T, SECOND),
        Row(Query::Next, LATER, never(3_408_134_421, 3_408_134_423)),
        Row(Query::Previous, LATER, FIRST),
        Row(Query::Current, T, FIRST),
        Row(Query::Current, Moment(1_704_067_209), FIRST),
        Row(Query::Closest, Moment(1_704_067_205), FIRST),
        Row(Query::Closest, Moment(1_704_067_206), SECOND),
    ];
    gives(&rt, rt.alloc(), TEXT, &rows)
}

#[test]
fn runs_without_a_bound(rt: HostRuntime) -> Result<(), Fail> {
    const TEXT: &str = "!{2024-01-01T00:00:00, 2024-01-01T00:00:10}";
    let rows = [
        Row(Query::Next, LATER, found(Bound::Open(LATER), Bound::Inf)),
        Row(Query::Previous, T, found(Bound::Inf, Bound::Open(T))),
        Row(Query::Current, Moment(0), found(Bound::Inf, Bound::Open(T))),
        Row(Query::Closest, T, found(Bound::Inf, Bound::Open(T))),
    ];
    gives(&rt, rt.alloc(), TEXT, &rows)
}

#[test]
fn the_edge_of_the_range(rt: HostRuntime) -> Result<(), Fail> {
    const TEXT: &str = "span(start -9900-01-01T00:00:00, end -9900-01-01T00:00:01)";
    let whole = found(Bound::Edge, Bound::Closed(Moment(LOW + 1)));
    let rows = [
        Row(Query::Previous, Moment(LOW + 3), whole),
        Row(Query::Previous, Moment(LOW + 1), Near::Edge),
        Row(Query::Closest, Moment(HIGH), whole),
    ];
    gives(&rt, rt.alloc(), TEXT, &rows)
}
