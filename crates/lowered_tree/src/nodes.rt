ghost use Rattle.std.specs.Prelude.{◌≡◌, ◌<◌, ◌^◌, IfErr, IfOk};
ghost use Rattle.expr_tree.specs.Sorts.{nodes_of};
ghost use Rattle.expr_tree.specs.Lists.{meaning_of_list};
ghost use Rattle.expr_tree.specs.Tree.{Ical, Joined, Pairs, Ruled, Unary, meant_of, tree_of};
ghost use Rattle.expr_tree.specs.WellFormed.{IsWellFormed};
ghost use Rattle.ical_rules.specs.Rules.{meaning_of_ical};
ghost use Rattle.stored_pair.specs.Names.{entries_of};
ghost use Rattle.lowered_tree.specs.Nodes.{meant_of_node};
ghost use Rattle.lowered_tree.specs.Settling.{AreSettled, IsFaultOf};
ghost use Rattle.lowered_tree.specs.Stamped.{AreCalendarMoments};
ghost use Rattle.lowered_tree.specs.declared.faults.PlanFault.TheVariants.{Memory};

use crate::faults::{PlanFault, SETTLE_LIMIT};
use crate::moments::Moments;
use expr_tree::{Expr, Stamps};
use field_rules::{FieldLeaf, lower_field};
use ical_rules::{IcalLeaf, lower_ical, settle};
use moment_core::{Clock, Op, UnaryOp};
use rule_core::IcalRule;
use span_core::Span;
use std::alloc::{AllocError, Global};
use stored_pair::{Book, Guarded};

/// A tree whose leaves are made ready for searches.
#[derive(Drop)]
pub enum Node {
    /// No position.
    Empty,
    /// The moments of a list.
    List(Moments),
    /// The positions of a span, with the clocks of its low and its high bound.
    Span(Span, Clock, Clock),
    /// The moments of a rule by fields.
    Field(Guarded<FieldLeaf>),
    /// The moments of a rule of RFC 5545, with the end that its COUNT gives it.
    Ical(Guarded<IcalLeaf>),
    /// The positions of two sets joined.
    Joined(Op, Box<Node>, Box<Node>),
    /// From each moment of the first set the positions up to the next later one of the second.
    Pairs(Box<Node>, Box<Node>),
    /// What is made of one set.
    Unary(UnaryOp, Box<Node>),
}

/// How many nodes the tree has.
pub fn node_count(node: &Node) -> u32
    requires { nodes_of (meant_of_node node.now) < 2 ^ 32 }
    ensures { result ≡ nodes_of (meant_of_node node.now) }
{
    match node {
        Node::Empty | Node::List(_) | Node::Span(_, _, _) | Node::Field(_) | Node::Ical(_) => 1,
        Node::Joined(_, a, b) => 1 + node_count(a) + node_count(b),
        Node::Pairs(a, b) => 1 + node_count(a) + node_count(b),
        Node::Unary(_, a) => 1 + node_count(a),
    }
}

impl Node {
    /// A copy of the tree with its leaves made ready and its counts settled, over the book whose
    /// entries it may name. No form names one yet.
    ///
    /// `Settle` comes exactly for the first rule of the tree, left before right, whose COUNT isn't
    /// settled within `SETTLE_LIMIT` candidates.
    #[cycle(lower)]
    pub fn lower(alloc: Global, e: &Expr, book: &Book) -> Result<Node, PlanFault>
        requires { IsWellFormed (tree_of e.now) }
        ensures meant { IfOk result
            (λ node. meant_of_node node ≡ meant_of (entries_of book.now) (tree_of e.now)) }
        ensures settled { IfOk result (λ node. AreSettled (tree_of e.now)) }
        ensures fault { IfErr result (IsFaultOf (tree_of e.now)) }
    {
        match e {
            Expr::Empty => Ok(Node::Empty),
            Expr::List(stamps) => Node::lower_list(alloc, stamps),
            Expr::Span(span, low, high) => Ok(Node::Span(*span, *low, *high)),
            Expr::Field(rule) => Ok(Node::Field(lower_field(rule))),
            Expr::Rrule(rule) => Node::lower_rrule(rule),
            Expr::Union(a, b) => Node::lower_joined(alloc, Op::Union, a, b, book),
            Expr::Meet(a, b) => Node::lower_joined(alloc, Op::Meet, a, b, book),
            Expr::Minus(a, b) => Node::lower_joined(alloc, Op::Minus, a, b, book),
            Expr::Not(a) => Node::lower_unary(alloc, UnaryOp::Not, a, book),
            Expr::During(a, seconds) => {
                Node::lower_unary(alloc, UnaryOp::During(*seconds), a, book)
            }
            Expr::Pairs(a, b) => Node::lower_pairs(alloc, a, b, book),
            Expr::Starts(a) => Node::lower_unary(alloc, UnaryOp::Starts, a, book),
            Expr::Ends(a) => Node::lower_unary(alloc, UnaryOp::Ends, a, book),
            Expr::Shift(a, seconds) => {
                Node::lower_unary(alloc, UnaryOp::Shift(*seconds), a, book)
            }
        }
    }

    /// The list's moments, put in order.
    fn lower_list(alloc: Global, stamps: &Stamps) -> Result<Node, PlanFault>
        requires { AreCalendarMoments stamps.now }
        ensures meant { IfOk result
            (λ node. meant_of_node node ≡ Ruled (meaning_of_list stamps.now)) }
        ensures fault { IfErr result (λ fault. fault ≡ Memory) }
    {
        let moments = Moments::in_order(alloc, stamps.items())?;
        Ok(Node::List(moments))
    }

    /// The rule with its count settled, and so ready for searches.
    fn lower_rrule(rule: &IcalRule) -> Result<Node, PlanFault>
        requires { IsWellFormed (Ruled (Ical rule.now)) }
        ensures meant { IfOk result
            (λ node. meant_of_node node ≡ Ruled (meaning_of_ical rule.now)) }
        ensures settled { IfOk result (λ node. AreSettled (Ruled (Ical rule.now))) }
        ensures fault { IfErr result (IsFaultOf (Ruled (Ical rule.now))) }
    {
        let settled = settle(rule, SETTLE_LIMIT)?;
        Ok(Node::Ical(lower_ical(rule, settled)))
    }

    /// What joins copies of two trees.
    #[cycle(lower)]
    #[tactic(auto, using(crate::proofs::Settling::fault_of_first, crate::proofs::Settling::fault_of_second))]
    fn lower_joined(
        alloc: Global,
        op: Op,
        a: &Expr,
        b: &Expr,
        book: &Book,
    ) -> Result<Node, PlanFault>
        requires a { IsWellFormed (tree_of a.now) }
        requires b { IsWellFormed (tree_of b.now) }
        ensures meant { IfOk result (λ node. meant_of_node node ≡
            meant_of (entries_of book.now) (Joined op (tree_of a.now) (tree_of b.now))) }
        ensures settled { IfOk result
            (λ node. AreSettled (Joined op (tree_of a.now) (tree_of b.now))) }
        ensures fault { IfErr result (IsFaultOf (Joined op (tree_of a.now) (tree_of b.now))) }
    {
        let first = Node::lower(alloc, a, book)?;
        let second = Node::lower(alloc, b, book)?;
        Ok(Node::join(alloc, op, first, second)?)
    }

    /// Spans from a copy of one tree up to a copy of another.
    #[cycle(lower)]
    #[tactic(auto, using(crate::proofs::Settling::fault_of_opening, crate::proofs::Settling::fault_of_closing))]
    fn lower_pairs(alloc: Global, a: &Expr, b: &Expr, book: &Book) -> Result<Node, PlanFault>
        requires a { IsWellFormed (tree_of a.now) }
        requires b { IsWellFormed (tree_of b.now) }
        ensures meant { IfOk result (λ node. meant_of_node node ≡
            meant_of (entries_of book.now) (Pairs (tree_of a.now) (tree_of b.now))) }
        ensures settled { IfOk result
            (λ node. AreSettled (Pairs (tree_of a.now) (tree_of b.now))) }
        ensures fault { IfErr result (IsFaultOf (Pairs (tree_of a.now) (tree_of b.now))) }
    {
        let opens = Node::lower(alloc, a, book)?;
        let closes = Node::lower(alloc, b, book)?;
        Ok(Node::pairs(alloc, opens, closes)?)
    }

    /// What is made of a copy of one tree.
    #[cycle(lower)]
    #[tactic(auto, using(crate::proofs::Settling::fault_of_only))]
    fn lower_unary(alloc: Global, op: UnaryOp, a: &Expr, book: &Book) -> Result<Node, PlanFault>
        requires { IsWellFormed (tree_of a.now) }
        ensures meant { IfOk result (λ node. meant_of_node node ≡
            meant_of (entries_of book.now) (Unary op (tree_of a.now))) }
        ensures settled { IfOk result (λ node. AreSettled (Unary op (tree_of a.now))) }
        ensures fault { IfErr result (IsFaultOf (Unary op (tree_of a.now))) }
    {
        let inner = Node::lower(alloc, a, book)?;
        Ok(Node::unary(alloc, op, inner)?)
    }

    fn join(alloc: Global, op: Op, a: Node, b: Node) -> Result<Node, AllocError>
        ensures { IfOk result (λ node.
            meant_of_node node ≡ Joined op (meant_of_node a) (meant_of_node b)) }
    {
        Ok(Node::Joined(op, Box::new(alloc, a)?, Box::new(alloc, b)?))
    }

    fn pairs(alloc: Global, a: Node, b: Node) -> Result<Node, AllocError>
        ensures { IfOk result
            (λ node. meant_of_node node ≡ Pairs (meant_of_node a) (meant_of_node b)) }
    {
        Ok(Node::Pairs(Box::new(alloc, a)?, Box::new(alloc, b)?))
    }

    fn unary(alloc: Global, op: UnaryOp, a: Node) -> Result<Node, AllocError>
        ensures { IfOk result (λ node. meant_of_node node ≡ Unary op (meant_of_node a)) }
    {
        Ok(Node::Unary(op, Box::new(alloc, a)?))
    }
}
