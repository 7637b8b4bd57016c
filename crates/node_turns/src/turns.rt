ghost use Rattle.std.specs.Prelude.{◌≡◌, ℤ, ◌+◌, ◌<◌, ◌≤◌, ◌^◌, ◌-ℤ◌, ◌≤ℤ◌, Bool, ◌||◌, int_le, unsigned_abs};
ghost use Rattle.std.specs.Ordering.{int_eq};
ghost use Rattle.moment_core.specs.Line.{moment_of, position_of};
ghost use Rattle.moment_core.specs.Sets.{moments_in};
ghost use Rattle.moment_core.specs.declared.line.Dir.TheVariants.{Fore, Back};
ghost use Rattle.moment_core.specs.declared.line.TheConstants.{LOW};
ghost use Rattle.span_core.specs.Bounds.{IsGiven, ends_after, lies_between, reaches};
ghost use Rattle.expr_tree.specs.Members.{is_member};
ghost use Rattle.expr_tree.specs.Sorts.{reach_of};
ghost use Rattle.expr_tree.specs.Sound.{IsSound};
ghost use Rattle.expr_tree.specs.Tree.{Unary};
ghost use Rattle.search_core.specs.LookingBack.{either};
ghost use Rattle.search_core.specs.Candidates.{bounds_at, is_bound_at, is_candidate};
ghost use Rattle.lowered_tree.specs.Nodes.{meant_of_node};
ghost use Rattle.node_turns.specs.Room.{HasRoom, IsWorkingPosition};
ghost use Rattle.node_turns.specs.Turns.{Follows, IsEdge, IsTurn, IsWorkingStep, StandsIfCounted, StaysCounted, crossed, edge_at, edge_up_to, nearer_turn, passed_by, turn_of_step, turn_up_to};

use crate::places::{candidate_at, is_past, next, open_before};
use expr_tree::member_laws;
use lowered_tree::{Leaf, Node, earlier, later, one_after, one_before};
use moment_core::{Dir, Pos, Step, Steps, UnaryOp, floor, of};
use search_core::counting_laws;
use span_core::{Bound, Span, bound_laws};
use std::sync::ledger::Ledger;

/// A place at which a set may change.
#[derive(Clone, Copy, Debug, PartialEq, Eq)]
pub struct Turn {
    pub place: Pos,
    /// Whether it counts as a candidate: one stands at the place, or at the moment right before it
    /// in the direction.
    pub counts: bool,
}

/// The nearest place past `p`, up to the end, at which a leaf of the tree may change; None where
/// nothing changes up to there.
#[cycle(next_turn)]
pub fn next_turn<L: Ledger>(
    node: &Node,
    p: Pos,
    dir: Dir,
    end: Pos,
    steps: &mut Steps<L>,
) -> Option<Turn>
    requires sound { IsSound (meant_of_node node.now) }
    requires here { HasRoom (reach_of (meant_of_node node.now)) p.0 }
    requires there { HasRoom (reach_of (meant_of_node node.now)) end.0 }
    ensures turn { IsTurn (is_member (meant_of_node node.now)) dir p.0 end.0 result }
    ensures counts { StandsIfCounted (is_candidate (meant_of_node node.now)) dir result }
    ensures counted { steps.old ≤ steps.new }
{
    member_laws();
    match node {
        Node::Empty => None,
        Node::List(moments) => leaf_turn(moments, p, dir, end, steps),
        Node::Span(span, _, _) => span_turn(span, p, dir, end),
        Node::Field(leaf) => leaf_turn(leaf, p, dir, end, steps),
        Node::Ical(leaf) => leaf_turn(leaf, p, dir, end, steps),
        Node::Joined(_, a, b) => either_turn(a, b, p, dir, end, steps),
        Node::Pairs(a, b) => either_turn(a, b, p, dir, end, steps),
        Node::Unary(op, a) => unary_turn(*op, a, p, dir, end, steps),
    }
}

/// The nearest turn of what is made of the set.
#[cycle(next_turn)]
fn unary_turn<L: Ledger>(
    op: UnaryOp,
    a: &Node,
    p: Pos,
    dir: Dir,
    end: Pos,
    steps: &mut Steps<L>,
) -> Option<Turn>
    requires sound { IsSound (Unary op (meant_of_node a.now)) }
    requires here { HasRoom (reach_of (Unary op (meant_of_node a.now))) p.0 }
    requires there { HasRoom (reach_of (Unary op (meant_of_node a.now))) end.0 }
    ensures turn { IsTurn (is_member (Unary op (meant_of_node a.now))) dir p.0 end.0 result }
    ensures counts { StandsIfCounted
        (is_candidate (Unary op (meant_of_node a.now))) dir result }
    ensures counted { steps.old ≤ steps.new }
{
    member_laws();
    match op {
        UnaryOp::Not => next_turn(a, p, dir, end, steps),
        UnaryOp::During(seconds) => {
            let near = next_turn(a, p, dir, end, steps);
            let other = shifted_turn(a, seconds, p, dir, end, steps);
            nearer(dir, near, other)
        }
        UnaryOp::Starts => edge_turn(a, p, dir, end, steps),
        UnaryOp::Ends => edge_turn(a, p, dir, end, steps),
        UnaryOp::Shift(seconds) => shifted_turn(a, seconds, p, dir, end, steps),
    }
}

/// The nearest turn of either set.
#[cycle(next_turn)]
pub fn either_turn<L: Ledger>(
    a: &Node,
    b: &Node,
    p: Pos,
    dir: Dir,
    end: Pos,
    steps: &mut Steps<L>,
) -> Option<Turn>
    requires sound { IsSound (meant_of_node a.now) × IsSound (meant_of_node b.now) }
    requires a_here { HasRoom (reach_of (meant_of_node a.now)) p.0 }
    requires a_there { HasRoom (reach_of (meant_of_node a.now)) end.0 }
    requires b_here { HasRoom (reach_of (meant_of_node b.now)) p.0 }
    requires b_there { HasRoom (reach_of (meant_of_node b.now)) end.0 }
    ensures turn { (h : ℤ → Bool) →
        Follows (is_member (meant_of_node a.now)) (is_member (meant_of_node b.now)) h dir p.0 →
        IsTurn h dir p.0 end.0 result }
    ensures either { IsTurn (either (is_member (meant_of_node a.now))
        (is_member (meant_of_node b.now))) dir p.0 end.0 result }
    ensures counts { StandsIfCounted
        (λ q. is_candidate (meant_of_node a.now) q || is_candidate (meant_of_node b.now) q)
        dir result }
    ensures counted { steps.old ≤ steps.new }
{
    let near = next_turn(a, p, dir, end, steps);
    let other = next_turn(b, p, dir, end, steps);
    nearer(dir, near, other)
}

/// The nearest turn of the set, so many seconds later.
#[cycle(next_turn)]
fn shifted_turn<L: Ledger>(
    a: &Node,
    seconds: i64,
    p: Pos,
    dir: Dir,
    end: Pos,
    steps: &mut Steps<L>,
) -> Option<Turn>
    requires sound { IsSound (meant_of_node a.now) }
    requires here { HasRoom (unsigned_abs seconds + reach_of (meant_of_node a.now)) p.0 }
    requires there { HasRoom (unsigned_abs seconds + reach_of (meant_of_node a.now)) end.0 }
    ensures turn { IsTurn (λ q. is_member (meant_of_node a.now) (q -ℤ position_of seconds))
        dir p.0 end.0 result }
    ensures counts { StandsIfCounted
        (λ q. is_candidate (meant_of_node a.now) (q -ℤ position_of seconds)) dir result }
    ensures counted { steps.old ≤ steps.new }
{
    match next_turn(a, earlier(p, seconds), dir, earlier(end, seconds), steps) {
        Some(turn) => Some(Turn {
            place: later(turn.place, seconds),
            counts: turn.counts,
        }),
        None => None,
    }
}

/// The nearest turn of the moments at which runs of the set begin, or end.
#[cycle(next_turn)]
fn edge_turn<L: Ledger>(a: &Node, p: Pos, dir: Dir, end: Pos, steps: &mut Steps<L>) -> Option<Turn>
    requires sound { IsSound (meant_of_node a.now) }
    requires here { HasRoom (1 + reach_of (meant_of_node a.now)) p.0 }
    requires there { HasRoom (1 + reach_of (meant_of_node a.now)) end.0 }
    ensures turn { (h : ℤ → Bool) → IsEdge (is_member (meant_of_node a.now)) h →
        IsTurn h dir p.0 end.0 result }
    ensures counts { StandsIfCounted (is_candidate (meant_of_node a.now)) dir result }
    ensures counted { steps.old ≤ steps.new }
{
    match next_turn(a, open_before(dir, p), dir, next(dir, end), steps) {
        Some(turn) => edge_up_to(dir, turn, edge_at(dir, p, turn.place), end),
        None => None,
    }
}

/// The moment of a turn at `q`, or where that is `p` itself the position next to it.
fn edge_at(dir: Dir, p: Pos, q: Pos) -> Pos
    requires p { IsWorkingPosition p.0 }
    requires q { unsigned_abs q.0 ≤ 2 ^ 60 }
    ensures { result.0 ≡ edge_at dir p.0 q.0 }
{
    let candidate = candidate_at(dir, q);
    if candidate == p {
        next(dir, p)
    } else {
        candidate
    }
}

/// The turn at the place, where it isn't past the end.
fn edge_up_to(dir: Dir, turn: Turn, place: Pos, end: Pos) -> Option<Turn>
    ensures { result ≡ edge_up_to dir turn place end }
{
    if is_past(dir, place, end) {
        None
    } else {
        Some(Turn {
            place,
            counts: turn.counts,
        })
    }
}

/// The nearest turn of a leaf of moments: right past the place where that is a member, and else at
/// the nearest candidate.
fn leaf_turn<F: Leaf, L: Ledger>(
    leaf: &F,
    p: Pos,
    dir: Dir,
    end: Pos,
    steps: &mut Steps<L>,
) -> Option<Turn>
    requires here { IsWorkingPosition p.0 }
    requires there { IsWorkingPosition end.0 }
    ensures turn { IsTurn (moments_in (F.has leaf.now)) dir p.0 end.0 result }
    ensures counts { StandsIfCounted (moments_in (F.cand leaf.now)) dir result }
    ensures counted { steps.old ≤ steps.new }
{
    match dir {
        Dir::Fore => leaf_turn_up(leaf, p, end, steps),
        Dir::Back => leaf_turn_down(leaf, p, end, steps),
    }
}

fn leaf_turn_up<F: Leaf, L: Ledger>(
    leaf: &F,
    p: Pos,
    end: Pos,
    steps: &mut Steps<L>,
) -> Option<Turn>
    requires here { IsWorkingPosition p.0 }
    requires there { IsWorkingPosition end.0 }
    ensures turn { IsTurn (moments_in (F.has leaf.now)) Fore p.0 end.0 result }
    ensures counts { StandsIfCounted (moments_in (F.cand leaf.now)) Fore result }
    ensures counted { steps.old ≤ steps.new }
{
    let t = floor(p);
    if of(t) == p {
        if leaf.test(t, steps) {
            return turn_up_to(Dir::Fore, one_after(p), end);
        }
    }
    let step = leaf.after(t, steps);
    turn_of_step(Dir::Fore, end, step)
}

fn leaf_turn_down<F: Leaf, L: Ledger>(
    leaf: &F,
    p: Pos,
    end: Pos,
    steps: &mut Steps<L>,
) -> Option<Turn>
    requires here { IsWorkingPosition p.0 }
    requires there { IsWorkingPosition end.0 }
    ensures turn { IsTurn (moments_in (F.has leaf.now)) Back p.0 end.0 result }
    ensures counts { StandsIfCounted (moments_in (F.cand leaf.now)) Back result }
    ensures counted { steps.old ≤ steps.new }
{
    let t = floor(p);
    if leaf.test(t, steps) {
        return turn_up_to(Dir::Back, one_before(p), end);
    }
    let step = leaf.before(t, steps);
    turn_of_step(Dir::Back, end, step)
}

/// The turn at the candidate of a step.
fn turn_of_step(dir: Dir, end: Pos, step: Step) -> Option<Turn>
    requires { IsWorkingStep step }
    ensures { result ≡ turn_of_step dir end step }
{
    match step {
        Step::Hit(u) | Step::Pass(u) => turn_up_to(dir, of(u), end),
        Step::End => None,
    }
}

/// A turn that counts, where it isn't past the end.
fn turn_up_to(dir: Dir, place: Pos, end: Pos) -> Option<Turn>
    ensures { result ≡ turn_up_to dir place end }
{
    if is_past(dir, place, end) {
        None
    } else {
        Some(Turn {
            place,
            counts: true,
        })
    }
}

/// The nearest turn of a span, at one of its bounds.
fn span_turn(span: &Span, p: Pos, dir: Dir, end: Pos) -> Option<Turn>
    ensures turn { IsTurn (λ q. lies_between span.now.0 span.now.1 q) dir p.0 end.0 result }
    ensures counts { StandsIfCounted (λ q. bounds_at span.now q) dir result }
{
    let low = low_turn(span.low(), p, dir, end);
    let high = high_turn(span.high(), p, dir, end);
    nearer(dir, low, high)
}

/// Where the positions from a low bound on begin.
fn low_turn(low: Bound, p: Pos, dir: Dir, end: Pos) -> Option<Turn>
    requires { IsGiven low }
    ensures turn { IsTurn (λ q. reaches low q) dir p.0 end.0 result }
    ensures counts { StandsIfCounted (λ q. is_bound_at low q) dir result }
{
    bound_laws();
    match low.first_position() {
        Some(first) => crossing(first, p, dir, end),
        None => None,
    }
}

/// Where the positions up to a high bound end.
fn high_turn(high: Bound, p: Pos, dir: Dir, end: Pos) -> Option<Turn>
    requires { IsGiven high }
    ensures turn { IsTurn (λ q. ends_after high q) dir p.0 end.0 result }
    ensures counts { StandsIfCounted (λ q. is_bound_at high q) dir result }
{
    bound_laws();
    match high.last_position() {
        Some(last) => crossing(one_after(last), p, dir, end),
        None => None,
    }
}

/// The nearest place past `p`, up to the end, at which the positions from `first` on begin or end,
/// with the moment of `first` as its candidate.
fn crossing(first: Pos, p: Pos, dir: Dir, end: Pos) -> Option<Turn>
    requires low { position_of LOW ≤ℤ first.0 }
    ensures turn { IsTurn (λ q. int_le first.0 q) dir p.0 end.0 result }
    ensures counts { StandsIfCounted (λ q. int_eq (position_of (moment_of first.0)) q) dir result }
{
    let place = crossed(first, dir);
    if is_past(dir, place, p) && !is_past(dir, place, end) {
        Some(Turn {
            place,
            counts: true,
        })
    } else {
        None
    }
}

/// Where one comes to on crossing the lower end of the positions from `first` on.
fn crossed(first: Pos, dir: Dir) -> Pos
    requires low { position_of LOW ≤ℤ first.0 }
    ensures { result.0 ≡ crossed first.0 dir }
{
    match dir {
        Dir::Fore => first,
        Dir::Back => one_before(first),
    }
}

/// The nearer of two turns: the next one of a set that follows two others.
fn nearer(dir: Dir, a: Option<Turn>, b: Option<Turn>) -> Option<Turn>
    ensures turn { (f g h : ℤ → Bool) (p end : ℤ) → Follows f g h dir p →
        IsTurn f dir p end a → IsTurn g dir p end b → IsTurn h dir p end result }
    ensures counts { (x y : ℤ → Bool) → StandsIfCounted x dir a → StandsIfCounted y dir b →
        StandsIfCounted (λ q. x q || y q) dir result }
{
    match (a, b) {
        (Some(near), Some(other)) => Some(nearer_turn(dir, near, other)),
        (Some(near), None) => Some(near),
        (None, other) => other,
    }
}

/// The nearer of two turns, which counts at one place where either does.
fn nearer_turn(dir: Dir, a: Turn, b: Turn) -> Turn
    ensures { result ≡ nearer_turn dir a b }
{
    if is_past(dir, a.place, b.place) {
        b
    } else if is_past(dir, b.place, a.place) {
        a
    } else {
        Turn {
            place: a.place,
            counts: a.counts || b.counts,
        }
    }
}

/// One more for a turn that counts, where its candidate wasn't passed before.
pub fn with_candidate(passed: u64, dir: Dir, p: Pos, place: Pos, turn: Turn) -> u64
    requires room { passed + 1 < 2 ^ 64 }
    requires turn { IsWorkingPosition turn.place.0 }
    ensures value { result ≡ passed_by passed dir p.0 place.0 turn }
    ensures few { StaysCounted passed dir p.0 place.0 turn result }
{
    counting_laws();
    if turn.counts && (place == p || is_past(dir, candidate_at(dir, turn.place), place)) {
        passed + 1
    } else {
        passed
    }
}
