ghost use Rattle.std.specs.Prelude.{◌≡◌, ℤ, pos, ◌+◌, ◌<◌, ◌≤◌, ◌^◌, ◌+ℤ◌, ◌-ℤ◌, Bool, false, unsigned_abs, IfNone, IfSome};
ghost use Rattle.moment_core.specs.Line.{position_of};
ghost use Rattle.moment_core.specs.declared.joining.UnaryOp.TheVariants.{During};
ghost use Rattle.moment_core.specs.declared.line.Dir.TheVariants.{Back};
ghost use Rattle.moment_core.specs.declared.line.TheConstants.{LOW};
ghost use Rattle.expr_tree.specs.Members.{is_member};
ghost use Rattle.expr_tree.specs.Sorts.{nodes_of, reach_of};
ghost use Rattle.expr_tree.specs.Sound.{IsSound};
ghost use Rattle.expr_tree.specs.Tree.{Pairs, Unary};
ghost use Rattle.search_core.specs.Candidates.{is_candidate};
ghost use Rattle.lowered_tree.specs.Nodes.{meant_of_node};
ghost use Rattle.node_turns.specs.Room.{HasRoom, IsWorkingPosition};
ghost use Rattle.node_turns.specs.Turns.{StaysCounted};
ghost use Rattle.node_members.specs.Looking.{IsAskedAt, IsLook, IsLookFrom, TellsOrLooks, candidate_of_either, in_either};

use expr_tree::member_laws;
use lowered_tree::{Node, earlier, one_after};
use moment_core::{Dir, LOW, Pos, Steps};
use node_turns::{Turn, either_turn, next_turn, room_laws, with_candidate};
use search_core::{candidate_laws, due_laws};
use span_core::Stop;
use std::sync::ledger::Ledger;

/// How far looking back from a position has come.
#[derive(Clone, Copy)]
pub(crate) struct Look {
    /// The place that is looked at.
    pub(crate) place: Pos,
    /// How many candidates were passed on the way to it.
    pub(crate) passed: u64,
}

/// What comes of looking at a place.
pub(crate) enum Looked {
    /// The answer for the position from which one looks back.
    Told(Result<bool, Stop>),
    /// The next place to look at.
    Next(Look),
}

impl Look {
    /// At the position itself.
    pub(crate) fn from(p: Pos) -> Look
        ensures start { (event candidate : ℤ → Bool) → IsLook event candidate p.0 result }
        ensures here { result.place ≡ p }
    {
        Look {
            place: p,
            passed: 0,
        }
    }

    /// On to the turn before the place.
    fn past(self, p: Pos, turn: Turn) -> Look
        requires room { self.passed + 1 < 2 ^ 64 }
        requires turn { IsWorkingPosition turn.place.0 }
        ensures place { result.place ≡ turn.place }
        ensures few { StaysCounted self.passed Back p.0 self.place.0 turn result.passed }
    {
        Look {
            place: turn.place,
            passed: with_candidate(self.passed, Dir::Back, p, self.place, turn),
        }
    }
}

/// The first place from which a moment lasts to the position for so many seconds.
pub(crate) fn earliest(p: Pos, seconds: i64) -> Pos
    requires { HasRoom (unsigned_abs seconds) p.0 }
    ensures { result.0 ≡ p.0 -ℤ position_of seconds +ℤ pos 1 }
{
    one_after(earlier(p, seconds))
}

/// Where a duration looks first: nowhere where it lasts for no second.
pub(crate) fn during_first(a: &Node, seconds: i64, p: Pos) -> Option<Look>
    requires { HasRoom (unsigned_abs seconds) p.0 }
    ensures some { IfSome result (IsLookFrom
        (is_member (meant_of_node a.now)) (is_candidate (meant_of_node a.now))
        p.0 (p.0 -ℤ position_of seconds +ℤ pos 1)) }
    ensures none { IfNone result
        (is_member (Unary (During seconds) (meant_of_node a.now)) p.0 ≡ false) }
{
    due_laws();
    candidate_laws();
    member_laws();
    if p < earliest(p, seconds) {
        return None;
    }
    Some(Look::from(p))
}

/// What the answer at a place tells a duration, or where it looks next.
pub(crate) fn during_look<L: Ledger>(
    a: &Node,
    seconds: i64,
    number: u32,
    p: Pos,
    look: Look,
    here: Result<bool, Stop>,
    budget: u64,
    steps: &mut Steps<L>,
) -> Looked
    requires sound { IsSound (Unary (During seconds) (meant_of_node a.now)) }
    requires room { HasRoom (reach_of (Unary (During seconds) (meant_of_node a.now))) p.0 }
    requires look { IsLookFrom (is_member (meant_of_node a.now))
        (is_candidate (meant_of_node a.now)) p.0 (p.0 -ℤ position_of seconds +ℤ pos 1) look }
    requires here { IsAskedAt (meant_of_node a.now) (number + 1) budget look.place.0 here }
    ensures looked { TellsOrLooks
        (IsAskedAt (Unary (During seconds) (meant_of_node a.now)) number budget p.0)
        (is_member (meant_of_node a.now)) (is_candidate (meant_of_node a.now))
        p.0 look.place.0 (p.0 -ℤ position_of seconds +ℤ pos 1) result }
    ensures counted { steps.old ≤ steps.new }
{
    due_laws();
    candidate_laws();
    member_laws();
    match here {
        Ok(true) => Looked::Told(Ok(true)),
        Ok(false) => during_next(a, seconds, number, p, look, budget, steps),
        Err(stop) => Looked::Told(Err(stop)),
    }
}

/// Where a duration looks next, after a place without a member of its set: nowhere where it has
/// none from the earliest place on. Stops at the place once the budget is used up.
fn during_next<L: Ledger>(
    a: &Node,
    seconds: i64,
    number: u32,
    p: Pos,
    look: Look,
    budget: u64,
    steps: &mut Steps<L>,
) -> Looked
    requires sound { IsSound (Unary (During seconds) (meant_of_node a.now)) }
    requires room { HasRoom (reach_of (Unary (During seconds) (meant_of_node a.now))) p.0 }
    requires look { IsLookFrom (is_member (meant_of_node a.now))
        (is_candidate (meant_of_node a.now)) p.0 (p.0 -ℤ position_of seconds +ℤ pos 1) look }
    requires none { is_member (meant_of_node a.now) look.place.0 ≡ false }
    ensures looked { TellsOrLooks
        (IsAskedAt (Unary (During seconds) (meant_of_node a.now)) number budget p.0)
        (is_member (meant_of_node a.now)) (is_candidate (meant_of_node a.now))
        p.0 look.place.0 (p.0 -ℤ position_of seconds +ℤ pos 1) result }
    ensures counted { steps.old ≤ steps.new }
{
    due_laws();
    candidate_laws();
    member_laws();
    if budget <= look.passed {
        return Looked::Told(Err(Stop {
            at: look.place,
            node: number,
        }));
    }
    let end = earliest(p, seconds);
    match next_turn(a, look.place, Dir::Back, end, steps) {
        Some(turn) => Looked::Next(look.past(p, turn)),
        None => Looked::Told(Ok(false)),
    }
}

/// Where pairs look first: nowhere from below the calendar range.
pub(crate) fn pairs_first(opens: &Node, closes: &Node, p: Pos) -> Option<Look>
    ensures some { IfSome result (IsLookFrom
        (in_either (meant_of_node opens.now) (meant_of_node closes.now))
        (candidate_of_either (meant_of_node opens.now) (meant_of_node closes.now))
        p.0 (position_of LOW)) }
    ensures none { IfNone result
        (is_member (Pairs (meant_of_node opens.now) (meant_of_node closes.now)) p.0 ≡ false) }
{
    due_laws();
    candidate_laws();
    member_laws();
    if p < Pos(2 * LOW) {
        return None;
    }
    Some(Look::from(p))
}

/// What the answer of the first set at a place tells pairs, if anything.
pub(crate) fn pairs_open(
    opens: &Node,
    closes: &Node,
    number: u32,
    p: Pos,
    look: Look,
    here: Result<bool, Stop>,
    budget: u64,
) -> Option<Result<bool, Stop>>
    requires sound { IsSound (Pairs (meant_of_node opens.now) (meant_of_node closes.now)) }
    requires look { IsLookFrom (in_either (meant_of_node opens.now) (meant_of_node closes.now))
        (candidate_of_either (meant_of_node opens.now) (meant_of_node closes.now))
        p.0 (position_of LOW) look }
    requires here { IsAskedAt (meant_of_node opens.now) (number + 1) budget look.place.0 here }
    ensures told { IfSome result
        (IsAskedAt (Pairs (meant_of_node opens.now) (meant_of_node closes.now)) number budget
        p.0) }
    ensures none { IfNone result (is_member (meant_of_node opens.now) look.place.0 ≡ false) }
{
    due_laws();
    candidate_laws();
    member_laws();
    match here {
        Ok(true) => Some(Ok(true)),
        Ok(false) => None,
        Err(stop) => Some(Err(stop)),
    }
}

/// What the answer of the second set at a place tells pairs, where the first hasn't the place, or
/// where they look next.
pub(crate) fn pairs_look<L: Ledger>(
    opens: &Node,
    closes: &Node,
    number: u32,
    p: Pos,
    look: Look,
    here: Result<bool, Stop>,
    budget: u64,
    steps: &mut Steps<L>,
) -> Looked
    requires sound { IsSound (Pairs (meant_of_node opens.now) (meant_of_node closes.now)) }
    requires room { HasRoom
        (reach_of (Pairs (meant_of_node opens.now) (meant_of_node closes.now))) p.0 }
    requires look { IsLookFrom (in_either (meant_of_node opens.now) (meant_of_node closes.now))
        (candidate_of_either (meant_of_node opens.now) (meant_of_node closes.now))
        p.0 (position_of LOW) look }
    requires opened { is_member (meant_of_node opens.now) look.place.0 ≡ false }
    requires here { IsAskedAt (meant_of_node closes.now)
        (number + 1 + nodes_of (meant_of_node opens.now)) budget look.place.0 here }
    ensures looked { TellsOrLooks
        (IsAskedAt (Pairs (meant_of_node opens.now) (meant_of_node closes.now)) number budget p.0)
        (in_either (meant_of_node opens.now) (meant_of_node closes.now))
        (candidate_of_either (meant_of_node opens.now) (meant_of_node closes.now))
        p.0 look.place.0 (position_of LOW) result }
    ensures counted { steps.old ≤ steps.new }
{
    due_laws();
    candidate_laws();
    member_laws();
    match here {
        Ok(true) => Looked::Told(Ok(false)),
        Ok(false) => pairs_next(opens, closes, number, p, look, budget, steps),
        Err(stop) => Looked::Told(Err(stop)),
    }
}

/// Where pairs look next, after a place without a member of either set: nowhere where neither has
/// one from the first position of the calendar range on. Stops at the place once the budget is
/// used up.
fn pairs_next<L: Ledger>(
    opens: &Node,
    closes: &Node,
    number: u32,
    p: Pos,
    look: Look,
    budget: u64,
    steps: &mut Steps<L>,
) -> Looked
    requires sound { IsSound (Pairs (meant_of_node opens.now) (meant_of_node closes.now)) }
    requires room { HasRoom
        (reach_of (Pairs (meant_of_node opens.now) (meant_of_node closes.now))) p.0 }
    requires look { IsLookFrom (in_either (meant_of_node opens.now) (meant_of_node closes.now))
        (candidate_of_either (meant_of_node opens.now) (meant_of_node closes.now))
        p.0 (position_of LOW) look }
    requires none { in_either (meant_of_node opens.now) (meant_of_node closes.now) look.place.0
        ≡ false }
    ensures looked { TellsOrLooks
        (IsAskedAt (Pairs (meant_of_node opens.now) (meant_of_node closes.now)) number budget p.0)
        (in_either (meant_of_node opens.now) (meant_of_node closes.now))
        (candidate_of_either (meant_of_node opens.now) (meant_of_node closes.now))
        p.0 look.place.0 (position_of LOW) result }
    ensures counted { steps.old ≤ steps.new }
{
    due_laws();
    candidate_laws();
    member_laws();
    room_laws();
    if budget <= look.passed {
        return Looked::Told(Err(Stop {
            at: look.place,
            node: number,
        }));
    }
    match either_turn(opens, closes, look.place, Dir::Back, Pos(2 * LOW), steps) {
        Some(turn) => Looked::Next(look.past(p, turn)),
        None => Looked::Told(Ok(false)),
    }
}
