ghost use Rattle.std.specs.Prelude.{◌≡◌, ◌<◌, ◌≤◌, ◌^◌, ◌+◌, Some, None, Ok, nat_le, pos, int_lt, unsigned_abs, if◌then◌else◌};
ghost use Rattle.expr_tree.specs.Sorts.{as_kind, both_kind, clock_of_stamps, clock_of_start, depth_of, either_kind, join_judged, joined_kind, judge, nodes_of, pairs_judged, reach_of, reaches_badly, sort_of_tree, spans_of, with_clock};
ghost use Rattle.expr_tree.specs.Tree.{tree_of};

use crate::tree::{Expr, Kind};
use moment_core::{Clock, Op, REACH, Stamp};
use std::cmp::max;
use stored_pair::Book;
use thiserror::Error;

/// The kind and the clock of a set, how far it looks, and its size.
#[derive(Clone, Copy, Debug, PartialEq, Eq)]
pub struct Sort {
    pub kind: Kind,
    pub clock: Clock,
    /// How many seconds past the calendar range one may look for a position in it.
    pub reach: i64,
    /// The nodes of the longest path from the root.
    pub depth: u32,
    /// The nodes of the tree.
    pub nodes: u32,
}

/// Why a tree has no sort.
#[derive(Clone, Copy, Debug, PartialEq, Eq, Error)]
pub enum SortFault {
    #[error("more than 1,024 nodes")]
    Nodes,
    #[error("a path of more than 128 nodes")]
    Depth,
    #[error("no entry of the book has the name")]
    Event,
    #[error("spans where moments are needed")]
    Kind,
    #[error("floating and absolute moments in one set")]
    Clock,
    #[error("a duration below 1, or shifts and durations that reach too far")]
    Reach,
}

/// The most nodes that a tree with a sort has.
pub const NODE_LIMIT: u32 = 1024;

/// The most nodes that a path from the root of a tree with a sort has.
pub const PATH_LIMIT: u32 = 128;

/// The kind and the clock of a set.
#[derive(Clone, Copy, Debug)]
struct Judged {
    kind: Kind,
    clock: Clock,
}

/// The sort of a set, or the first fault of this order: too many nodes; a path of too many; then
/// the fault of the first node that has one, children first, left before right; then a duration
/// below 1, or shifts and durations that reach too far.
pub fn sort_of(e: &Expr, _book: &Book) -> Result<Sort, SortFault>
    ensures { result ≡ sort_of_tree (tree_of e.now) }
{
    let nodes = nodes_within(e, NODE_LIMIT).ok_or(SortFault::Nodes)?;
    let depth = depth_within(e, PATH_LIMIT).ok_or(SortFault::Depth)?;
    let judged = judge_tree(e)?;
    let reach = reach_within(e).ok_or(SortFault::Reach)?;
    Ok(Sort {
        kind: judged.kind,
        clock: judged.clock,
        reach: reach as i64,
        depth,
        nodes,
    })
}

/// How many nodes the tree has, or None where they are more than the limit.
fn nodes_within(e: &Expr, limit: u32) -> Option<u32>
    ensures { result ≡ (if nat_le (nodes_of (tree_of e.now)) limit
        then Some (nodes_of (tree_of e.now)) else None) }
{
    if limit == 0 {
        return None;
    }
    let below = limit - 1;
    match e {
        Expr::Empty | Expr::List(_) | Expr::Span(_, _, _) | Expr::Field(_) | Expr::Rrule(_) => Some(
            1,
        ),
        Expr::Union(a, b) | Expr::Meet(a, b) | Expr::Minus(a, b) | Expr::Pairs(a, b) => {
            let left = nodes_within(a, below)?;
            let right = nodes_within(b, below - left)?;
            Some(1 + left + right)
        }
        Expr::Not(a) | Expr::During(a, _) | Expr::Starts(a) | Expr::Ends(a) | Expr::Shift(a, _) => {
            Some(1 + nodes_within(a, below)?)
        }
    }
}

/// How many nodes the longest path has, or None where they are more than the limit.
fn depth_within(e: &Expr, limit: u32) -> Option<u32>
    ensures { result ≡ (if nat_le (depth_of (tree_of e.now)) limit
        then Some (depth_of (tree_of e.now)) else None) }
{
    if limit == 0 {
        return None;
    }
    let below = limit - 1;
    match e {
        Expr::Empty | Expr::List(_) | Expr::Span(_, _, _) | Expr::Field(_) | Expr::Rrule(_) => Some(
            1,
        ),
        Expr::Union(a, b) | Expr::Meet(a, b) | Expr::Minus(a, b) | Expr::Pairs(a, b) => {
            let left = depth_within(a, below)?;
            let right = depth_within(b, below)?;
            Some(1 + max(left, right))
        }
        Expr::Not(a) | Expr::During(a, _) | Expr::Starts(a) | Expr::Ends(a) | Expr::Shift(a, _) => {
            Some(1 + depth_within(a, below)?)
        }
    }
}

/// How many seconds past the calendar range one may look, along some path; None where that is more
/// than `REACH`, or a duration is below 1.
fn reach_within(e: &Expr) -> Option<u64>
    ensures { result ≡ (if reaches_badly (tree_of e.now) then None
        else Some (reach_of (tree_of e.now))) }
{
    match e {
        Expr::Empty | Expr::List(_) | Expr::Span(_, _, _) | Expr::Field(_) | Expr::Rrule(_) => Some(
            0,
        ),
        Expr::Union(a, b) | Expr::Meet(a, b) | Expr::Minus(a, b) | Expr::Pairs(a, b) => {
            let left = reach_within(a)?;
            let right = reach_within(b)?;
            Some(max(left, right))
        }
        Expr::Not(a) => reach_within(a),
        Expr::During(a, seconds) => {
            if *seconds < 1 {
                return None;
            }
            farther(seconds.unsigned_abs(), reach_within(a)?)
        }
        Expr::Starts(a) | Expr::Ends(a) => farther(1, reach_within(a)?),
        Expr::Shift(a, seconds) => farther(seconds.unsigned_abs(), reach_within(a)?),
    }
}

/// The sum, where it isn't above `REACH`.
fn farther(seconds: u64, reach: u64) -> Option<u64>
    requires seconds { seconds ≤ 2 ^ 63 }
    requires reach { reach ≤ unsigned_abs REACH }
    ensures { result ≡ (if int_lt REACH (pos (seconds + reach)) then None
        else Some (seconds + reach)) }
{
    let sum = seconds + reach;
    if sum > REACH as u64 { None } else { Some(sum) }
}

/// The kind and the clock of a set, or the fault of the first node that has one.
fn judge_tree(e: &Expr) -> Result<Judged, SortFault>
    ensures { result ≡ judge (tree_of e.now) }
{
    match e {
        Expr::Empty => Ok(Judged {
            kind: Kind::Moments,
            clock: Clock::Any,
        }),
        Expr::List(stamps) => with_clock(Kind::Moments, clock_of_stamps(stamps.items())),
        Expr::Span(_, low, high) => with_clock(Kind::Spans, low.common(*high)),
        Expr::Field(rule) => Ok(Judged {
            kind: Kind::Moments,
            clock: clock_of_start(rule.start),
        }),
        Expr::Rrule(rule) => Ok(Judged {
            kind: Kind::Moments,
            clock: rule.start.clock(),
        }),
        Expr::Union(a, b) => join_judged(Op::Union, judge_tree(a)?, judge_tree(b)?),
        Expr::Meet(a, b) => join_judged(Op::Meet, judge_tree(a)?, judge_tree(b)?),
        Expr::Minus(a, b) => join_judged(Op::Minus, judge_tree(a)?, judge_tree(b)?),
        Expr::Not(a) => Ok(as_kind(Kind::Spans, judge_tree(a)?)),
        Expr::During(a, _) => {
            let inner = judge_tree(a)?;
            spans_of(inner.kind, Some(inner.clock))
        }
        Expr::Pairs(a, b) => pairs_judged(judge_tree(a)?, judge_tree(b)?),
        Expr::Starts(a) => Ok(as_kind(Kind::Moments, judge_tree(a)?)),
        Expr::Ends(a) => Ok(as_kind(Kind::Moments, judge_tree(a)?)),
        Expr::Shift(a, _) => judge_tree(a),
    }
}

/// The kind with the clock of a set.
fn as_kind(kind: Kind, a: Judged) -> Judged
    ensures { Ok result ≡ as_kind kind (Ok a) }
{
    Judged {
        kind,
        clock: a.clock,
    }
}

/// Spans with the clock, which are made of a set of the kind: of moments alone.
fn spans_of(kind: Kind, clock: Option<Clock>) -> Result<Judged, SortFault>
    ensures { result ≡ spans_of kind clock }
{
    match kind {
        Kind::Moments => with_clock(Kind::Spans, clock),
        Kind::Spans => Err(SortFault::Kind),
    }
}

/// The kind and the clock of spans from moments of one set up to moments of another.
fn pairs_judged(a: Judged, b: Judged) -> Result<Judged, SortFault>
    ensures { result ≡ pairs_judged (Ok a) (Ok b) }
{
    spans_of(either_kind(a.kind, b.kind), a.clock.common(b.clock))
}

/// The kind and the clock of what joins two sets.
fn join_judged(op: Op, a: Judged, b: Judged) -> Result<Judged, SortFault>
    ensures { result ≡ join_judged op (Ok a) (Ok b) }
{
    with_clock(joined_kind(op, a.kind, b.kind), a.clock.common(b.clock))
}

/// The kind of what joins two sets.
fn joined_kind(op: Op, a: Kind, b: Kind) -> Kind
    ensures { result ≡ joined_kind op a b }
{
    match op {
        Op::Union => either_kind(a, b),
        Op::Meet => both_kind(a, b),
        Op::Minus => a,
    }
}

fn with_clock(kind: Kind, clock: Option<Clock>) -> Result<Judged, SortFault>
    ensures { result ≡ with_clock kind clock }
{
    match clock {
        Some(clock) => Ok(Judged { kind, clock }),
        None => Err(SortFault::Clock),
    }
}

/// The one clock of the moments, any where there are none.
fn clock_of_stamps(stamps: &[Stamp]) -> Option<Clock>
    ensures { result ≡ clock_of_stamps stamps.now }
{
    let mut clock = Clock::Any;
    for stamp in stamps {
        clock = clock.common(stamp.clock())?;
    }
    Some(clock)
}

/// The clock of a rule's start, floating where none is given.
fn clock_of_start(start: Option<Stamp>) -> Clock
    ensures { result ≡ clock_of_start start }
{
    match start {
        Some(stamp) => stamp.clock(),
        None => Clock::Floating,
    }
}

/// The kind of what either set has.
fn either_kind(a: Kind, b: Kind) -> Kind
    ensures { result ≡ either_kind a b }
{
    match (a, b) {
        (Kind::Moments, Kind::Moments) => Kind::Moments,
        _ => Kind::Spans,
    }
}

/// The kind of what both sets have.
fn both_kind(a: Kind, b: Kind) -> Kind
    ensures { result ≡ both_kind a b }
{
    match (a, b) {
        (Kind::Spans, Kind::Spans) => Kind::Spans,
        _ => Kind::Moments,
    }
}
