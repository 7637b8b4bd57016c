ghost use Rattle.std.specs.Prelude.{◌≡◌, ◌≤◌, ◌≤ℤ◌, ◌^◌, pos, unsigned_abs, IfSome, option_map};
ghost use Rattle.moment_core.specs.Line.{position_of};
ghost use Rattle.frame_core.specs.Frames.{HasPeriod};
ghost use Rattle.stored_pair.specs.Recurrences.{AreModest};
ghost use Rattle.expr_tree.specs.Lists.{frame_from};
ghost use Rattle.expr_tree.specs.Sorts.{nodes_of, reach_of};
ghost use Rattle.search_core.specs.Lawful.{AreLawful};
ghost use Rattle.lowered_tree.specs.Modest.{HasModestLeaves, IsWithin};
ghost use Rattle.lowered_tree.specs.Nodes.{meant_of_node};
ghost use Rattle.search_core.specs.TreeFrames.{frame_of_tree, join_framed, moved, opened, span_frame, span_hi, span_lo};
ghost use Rattle.search_core.specs.Unary.{hi_moves, lo_moves};

use crate::nodes::Node;
use crate::places::{greater, later, lesser, one_after, one_before};
use frame_core::{Frame, join};
use moment_core::{HIGH, LOW, Pos, REACH, UnaryOp};
use search_core::tree_frame_laws;
use span_core::Span;

/// From where on, and after how long, the positions of the tree repeat. None exactly where a rule
/// of the tree has no frame, or the least common period of two children is above `WIDTH`.
pub fn node_frame(node: &Node) -> Option<Frame>
    requires lawful { AreLawful (meant_of_node node.now) }
    requires reach { pos (reach_of (meant_of_node node.now)) ≤ℤ REACH }
    requires small { nodes_of (meant_of_node node.now) ≤ 2 ^ 12 }
    ensures value { result ≡ frame_of_tree (meant_of_node node.now) }
    ensures modest { HasModestLeaves (meant_of_node node.now) }
{
    tree_frame_laws();
    match node {
        Node::Empty => Some(unchanging(Pos(2 * (LOW - REACH)), Pos(2 * (HIGH + REACH)))),
        Node::List(moments) => Some(moments.frame()),
        Node::Span(span, _, _) => Some(span_frame(span)),
        Node::Field(leaf) => leaf.frame(),
        Node::Ical(leaf) => leaf.frame(),
        Node::Joined(_, a, b) => join_framed(node_frame(a), node_frame(b)),
        Node::Pairs(a, b) => opened(join_framed(node_frame(a), node_frame(b))),
        Node::Unary(op, a) => moved(node_frame(a), lo_moves(*op), hi_moves(*op)),
    }
}

/// How many seconds later `lo` of the frame comes.
fn lo_moves(op: UnaryOp) -> i64
    ensures { result ≡ lo_moves op }
{
    match op {
        UnaryOp::Not | UnaryOp::During(_) => 0,
        UnaryOp::Starts | UnaryOp::Ends => -1,
        UnaryOp::Shift(seconds) => seconds,
    }
}

/// How many seconds later `hi` of the frame comes.
fn hi_moves(op: UnaryOp) -> i64
    ensures { result ≡ hi_moves op }
{
    match op {
        UnaryOp::Not => 0,
        UnaryOp::Starts | UnaryOp::Ends => 1,
        UnaryOp::During(seconds) | UnaryOp::Shift(seconds) => seconds,
    }
}

/// The frame with its ends so many seconds later.
fn moved(frame: Option<Frame>, lo: i64, hi: i64) -> Option<Frame>
    requires lo { unsigned_abs lo ≤ 2 ^ 60 }
    requires hi { unsigned_abs hi ≤ 2 ^ 60 }
    requires ends { IfSome frame (IsWithin (2 ^ 60)) }
    ensures { result ≡ option_map (moved lo hi) frame }
{
    match frame {
        Some(frame) => Some(Frame {
            lo: later(frame.lo, lo),
            hi: later(frame.hi, hi),
            period: frame.period,
        }),
        None => None,
    }
}

/// The frame of spans that begin no earlier than the calendar range.
fn opened(frame: Option<Frame>) -> Option<Frame>
    requires period { HasPeriod frame }
    requires ends { IfSome frame (IsWithin (2 ^ 60)) }
    ensures { result ≡ option_map opened frame }
{
    match frame {
        Some(frame) => Some(Frame {
            lo: lesser(frame.lo, Pos(2 * LOW - 1)),
            hi: later(greater(frame.hi, Pos(2 * LOW)), frame.period as i64),
            period: frame.period,
        }),
        None => None,
    }
}

/// The frame of a set that stays the same from `hi` upwards and from `lo` downwards.
pub(crate) fn unchanging(hi: Pos, lo: Pos) -> Frame
    ensures { result ≡ frame_from hi.0 lo.0 }
{
    Frame { lo, hi, period: 1 }
}

/// The joined frame, where both are there.
fn join_framed(a: Option<Frame>, b: Option<Frame>) -> Option<Frame>
    requires a { HasPeriod a }
    requires b { HasPeriod b }
    ensures { result ≡ join_framed a b }
{
    match (a, b) {
        (Some(a), Some(b)) => join(a, b),
        _ => None,
    }
}

/// A span stays the same past its last position and before its first one.
fn span_frame(span: &Span) -> Frame
    ensures value { result ≡ span_frame span.now }
    ensures modest { AreModest result }
{
    let first = span.low().first_position();
    let last = span.high().last_position();
    unchanging(span_hi(first, last), span_lo(first, last))
}

/// From where on upwards a span of these first and last positions stays as it is.
fn span_hi(first: Option<Pos>, last: Option<Pos>) -> Pos
    requires { IfSome last (λ last. last.0 ≤ℤ position_of HIGH) }
    ensures { result.0 ≡ span_hi first last }
{
    match (first, last) {
        (_, Some(last)) => one_after(last),
        (Some(first), None) => first,
        (None, None) => Pos(2 * (LOW - REACH)),
    }
}

/// From where on downwards a span of these first and last positions stays as it is.
fn span_lo(first: Option<Pos>, last: Option<Pos>) -> Pos
    requires { IfSome first (λ first. position_of LOW ≤ℤ first.0) }
    ensures { result.0 ≡ span_lo first last }
{
    match (first, last) {
        (Some(first), _) => one_before(first),
        (None, Some(last)) => last,
        (None, None) => Pos(2 * (HIGH + REACH)),
    }
}
