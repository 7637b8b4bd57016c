ghost use Rattle.std.specs.Prelude.{◌≡◌, ◌≤◌, ◌<◌, ◌+◌, ◌^◌, IfErr, IfOk};
ghost use Rattle.expr_tree.specs.Members.{is_member};
ghost use Rattle.expr_tree.specs.Sorts.{nodes_of, reach_of};
ghost use Rattle.expr_tree.specs.Sound.{IsSound};
ghost use Rattle.expr_tree.specs.Tree.{Joined, Pairs, Unary};
ghost use Rattle.moment_core.specs.declared.joining.UnaryOp.TheVariants.{During};
ghost use Rattle.moment_core.specs.Sets.{moments_in};
ghost use Rattle.search_core.specs.Due.{IsDueAt};
ghost use Rattle.lowered_tree.specs.Nodes.{meant_of_node};
ghost use Rattle.node_turns.specs.Room.{HasRoom, IsWorkingPosition};
ghost use Rattle.node_members.specs.Joining.{is_decided, negated, with_second};
ghost use Rattle.node_members.specs.Looking.{IsAskedAt, IsAskedRound, IsBeside};

use crate::looks::{Looked, during_first, during_look, pairs_first, pairs_look, pairs_open};
use lowered_tree::{Leaf, Node, earlier, node_count, one_after, one_before};
use moment_core::{Op, Pos, Steps, UnaryOp, floor, of};
use node_turns::is_moment;
use span_core::Stop;
use std::sync::ledger::Ledger;

/// Whether the position is a member, or a stop where looking back used the budget up. The numbers
/// of nodes are counted from 1 at this one.
pub fn holds<L: Ledger>(
    node: &Node,
    p: Pos,
    budget: u64,
    steps: &mut Steps<L>,
) -> Result<bool, Stop>
    requires sound { IsSound (meant_of_node node.now) }
    requires room { HasRoom (reach_of (meant_of_node node.now)) p.0 }
    requires small { nodes_of (meant_of_node node.now) < 2 ^ 32 }
    ensures value { IfOk result (λ v. v ≡ is_member (meant_of_node node.now) p.0) }
    ensures due { IfErr result (λ s. IsDueAt (meant_of_node node.now) 1 budget s p.0) }
    ensures counted { steps.old ≤ steps.new }
{
    asked(node, 0, p, budget, steps)
}

/// The same in a larger tree, where so many nodes are numbered before this one.
#[cycle(asked)]
fn asked<L: Ledger>(
    node: &Node,
    before: u32,
    p: Pos,
    budget: u64,
    steps: &mut Steps<L>,
) -> Result<bool, Stop>
    requires sound { IsSound (meant_of_node node.now) }
    requires room { HasRoom (reach_of (meant_of_node node.now)) p.0 }
    requires small { before + nodes_of (meant_of_node node.now) < 2 ^ 32 }
    ensures answer { IsAskedAt (meant_of_node node.now) (before + 1) budget p.0 result }
    ensures counted { steps.old ≤ steps.new }
{
    match node {
        Node::Empty => Ok(false),
        Node::List(moments) => Ok(is_met(moments, p, steps)),
        Node::Span(span, _, _) => Ok(span.holds(p)),
        Node::Field(leaf) => Ok(is_met(leaf, p, steps)),
        Node::Ical(leaf) => Ok(is_met(leaf, p, steps)),
        Node::Joined(op, a, b) => asked_joined(*op, a, b, before + 1, p, budget, steps),
        Node::Pairs(a, b) => asked_pairs(a, b, before + 1, p, budget, steps),
        Node::Unary(op, a) => asked_unary(*op, a, before + 1, p, budget, steps),
    }
}

/// Whether the position is a moment of the leaf.
fn is_met<F: Leaf, L: Ledger>(leaf: &F, p: Pos, steps: &mut Steps<L>) -> bool
    requires { IsWorkingPosition p.0 }
    ensures value { result ≡ moments_in (F.has leaf.now) p.0 }
    ensures counted { steps.old ≤ steps.new }
{
    let t = floor(p);
    of(t) == p && leaf.test(t, steps)
}

/// Whether the position is a member of what is made of the two sets, by a node of this number. The
/// second one is asked only where the first doesn't decide.
#[cycle(asked)]
fn asked_joined<L: Ledger>(
    op: Op,
    a: &Node,
    b: &Node,
    number: u32,
    p: Pos,
    budget: u64,
    steps: &mut Steps<L>,
) -> Result<bool, Stop>
    requires sound { IsSound (Joined op (meant_of_node a.now) (meant_of_node b.now)) }
    requires room { HasRoom
        (reach_of (Joined op (meant_of_node a.now) (meant_of_node b.now))) p.0 }
    requires small { number + nodes_of (meant_of_node a.now) + nodes_of (meant_of_node b.now)
        < 2 ^ 32 }
    ensures answer { IsAskedAt (Joined op (meant_of_node a.now) (meant_of_node b.now))
        number budget p.0 result }
    ensures counted { steps.old ≤ steps.new }
{
    let first = asked(a, number, p, budget, steps);
    if is_decided(op, first) {
        return first;
    }
    let second = asked(b, number + node_count(a), p, budget, steps);
    with_second(op, second)
}

/// Whether the answer for the first set is that for what is made of both.
fn is_decided(op: Op, first: Result<bool, Stop>) -> bool
    ensures { result ≡ is_decided op first }
{
    match (op, first) {
        (_, Err(_)) => true,
        (Op::Union, Ok(member)) => member,
        (Op::Meet, Ok(member)) => !member,
        (Op::Minus, Ok(member)) => !member,
    }
}

/// The answer for what is made of both sets, by that for the second one.
fn with_second(op: Op, second: Result<bool, Stop>) -> Result<bool, Stop>
    ensures { result ≡ with_second op second }
{
    match op {
        Op::Union => second,
        Op::Meet => second,
        Op::Minus => negated(second),
    }
}

/// The other answer; a stop is none.
fn negated(answer: Result<bool, Stop>) -> Result<bool, Stop>
    ensures { result ≡ negated answer }
{
    match answer {
        Ok(member) => Ok(!member),
        Err(stop) => Err(stop),
    }
}

/// Whether the position is a member of what is made of the set, by a node of this number.
#[cycle(asked)]
fn asked_unary<L: Ledger>(
    op: UnaryOp,
    a: &Node,
    number: u32,
    p: Pos,
    budget: u64,
    steps: &mut Steps<L>,
) -> Result<bool, Stop>
    requires sound { IsSound (Unary op (meant_of_node a.now)) }
    requires room { HasRoom (reach_of (Unary op (meant_of_node a.now))) p.0 }
    requires small { number + nodes_of (meant_of_node a.now) < 2 ^ 32 }
    ensures answer { IsAskedAt (Unary op (meant_of_node a.now)) number budget p.0 result }
    ensures counted { steps.old ≤ steps.new }
{
    match op {
        UnaryOp::Not => negated(asked(a, number, p, budget, steps)),
        UnaryOp::During(seconds) => asked_during(a, seconds, number, p, budget, steps),
        UnaryOp::Starts => asked_edge(a, number, p, one_before(p), one_after(p), budget, steps),
        UnaryOp::Ends => asked_edge(a, number, p, one_after(p), one_before(p), budget, steps),
        UnaryOp::Shift(seconds) => asked(a, number, earlier(p, seconds), budget, steps),
    }
}

/// Whether the position is a moment at which a run of the set begins or ends: of the positions
/// beside it the one lies without the run, the other within.
#[cycle(asked)]
fn asked_edge<L: Ledger>(
    a: &Node,
    number: u32,
    p: Pos,
    without: Pos,
    within: Pos,
    budget: u64,
    steps: &mut Steps<L>,
) -> Result<bool, Stop>
    requires sound { IsSound (meant_of_node a.now) }
    requires room { HasRoom (1 + reach_of (meant_of_node a.now)) p.0 }
    requires beside { IsBeside p.0 without.0 × IsBeside p.0 within.0 }
    requires small { number + nodes_of (meant_of_node a.now) < 2 ^ 32 }
    ensures answer { IsAskedRound (meant_of_node a.now) (number + 1) budget
        p.0 without.0 within.0 result }
    ensures counted { steps.old ≤ steps.new }
{
    if !is_moment(p) {
        return Ok(false);
    }
    match asked(a, number, p, budget, steps) {
        Ok(true) => negated(asked(a, number, without, budget, steps)),
        Ok(false) => asked(a, number, within, budget, steps),
        Err(stop) => Err(stop),
    }
}

/// Whether a member of the set lies within the seconds before the position, by a node of this
/// number.
#[cycle(asked)]
fn asked_during<L: Ledger>(
    a: &Node,
    seconds: i64,
    number: u32,
    p: Pos,
    budget: u64,
    steps: &mut Steps<L>,
) -> Result<bool, Stop>
    requires sound { IsSound (Unary (During seconds) (meant_of_node a.now)) }
    requires room { HasRoom (reach_of (Unary (During seconds) (meant_of_node a.now))) p.0 }
    requires small { number + nodes_of (meant_of_node a.now) < 2 ^ 32 }
    ensures answer { IsAskedAt (Unary (During seconds) (meant_of_node a.now))
        number budget p.0 result }
    ensures counted { steps.old ≤ steps.new }
{
    let Some(first) = during_first(a, seconds, p) else {
        return Ok(false);
    };
    let mut look = first;
    'back: loop {
        let here = asked(a, number, look.place, budget, steps);
        match during_look(a, seconds, number, p, look, here, budget, steps) {
            Looked::Told(answer) => return answer,
            Looked::Next(next) => look = next,
        }
    }
}

/// Whether the latest member of the first set up to the position, not below the calendar range, is
/// followed by none of the second, by a node of this number.
#[cycle(asked)]
fn asked_pairs<L: Ledger>(
    opens: &Node,
    closes: &Node,
    number: u32,
    p: Pos,
    budget: u64,
    steps: &mut Steps<L>,
) -> Result<bool, Stop>
    requires sound { IsSound (Pairs (meant_of_node opens.now) (meant_of_node closes.now)) }
    requires room { HasRoom
        (reach_of (Pairs (meant_of_node opens.now) (meant_of_node closes.now))) p.0 }
    requires small { number + nodes_of (meant_of_node opens.now)
        + nodes_of (meant_of_node closes.now) < 2 ^ 32 }
    ensures answer { IsAskedAt (Pairs (meant_of_node opens.now) (meant_of_node closes.now))
        number budget p.0 result }
    ensures counted { steps.old ≤ steps.new }
{
    let Some(first) = pairs_first(opens, closes, p) else {
        return Ok(false);
    };
    let mut look = first;
    'back: loop {
        let opened = asked(opens, number, look.place, budget, steps);
        if let Some(answer) = pairs_open(opens, closes, number, p, look, opened, budget) {
            return answer;
        }
        let closed = asked(
            closes,
            number + node_count(opens),
            look.place,
            budget,
            steps,
        );
        match pairs_look(opens, closes, number, p, look, closed, budget, steps) {
            Looked::Told(answer) => return answer,
            Looked::Next(next) => look = next,
        }
    }
}
