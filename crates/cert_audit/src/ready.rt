ghost use Rattle.std.specs.Prelude.{◌≡◌, ◌≤◌, IfErr, IfOk};
ghost use Rattle.moment_core.specs.Line.{IsCalendarPosition};
ghost use Rattle.search_core.specs.Candidates.{is_candidate};
ghost use Rattle.search_core.specs.Due.{IsDueInTest, IsTestOf};
ghost use Rattle.lowered_tree.specs.Nodes.{meant_of_node};
ghost use Rattle.cert_audit.specs.Searchable.{IsSearchable, IsSearchable-prop};
ghost use Rattle.search_core.specs.TreeFrames.{frame_of_tree};

use expr_tree::{Expr, tree_laws};
use frame_core::Frame;
use lowered_tree::{Node, PlanFault, lawful_laws, node_frame};
use moment_core::{Dir, Pos, Steps};
use node_members::holds;
use node_turns::{Turn, next_turn};
use span_core::{Stop, Test};
use std::alloc::Global;
use std::sync::ledger::Ledger;
use stored_pair::Book;

/// A tree with its leaves made ready for searches, over the book whose entries it names.
#[derive(Drop)]
pub struct Ready<'b> {
    root: Node,
    pub(crate) frame: Option<Frame>,
    book: &'b Book,
    ghost framed: { frame ≡ frame_of_tree (meant_of_node root) },
    ghost searchable: { IsSearchable (meant_of_node root) } by { IsSearchable-prop (meant_of_node root) },
}

impl<'b> Ready<'b> {
    ghost use Rattle.expr_tree.specs.Tree.{meant_of, tree_of};
    ghost use Rattle.stored_pair.specs.Names.{entries_of};
    ghost use Rattle.cert_audit.specs.Lowered.{CanBeReady, members_of, meant_of_ready};
    ghost use Rattle.node_turns.specs.Turns.{IsTurn, StandsIfCounted};
    ghost use Rattle.lowered_tree.specs.Settling.{AreSettled, IsFaultOf};

    /// Copies the tree and makes its leaves ready, with the last member of each rule that has a
    /// COUNT.
    ///
    /// `Settle` comes exactly where a rule has more than `SETTLE_LIMIT` candidates, its COUNT put
    /// aside, and fewer members than its COUNT among the first so many of them. The first such rule
    /// of the tree decides, left before right.
    pub fn make(alloc: Global, e: &Expr, book: &'b Book) -> Result<Ready<'b>, PlanFault>
        requires { CanBeReady (tree_of e.now) }
        ensures meant { IfOk result
            (λ ready. meant_of_ready ready ≡ meant_of (entries_of book.now) (tree_of e.now)) }
        ensures settled { IfOk result (λ ready. AreSettled (tree_of e.now)) }
        ensures fault { IfErr result (IsFaultOf (tree_of e.now)) }
    {
        tree_laws();
        lawful_laws();
        let root = Node::lower(alloc, e, book)?;
        let frame = node_frame(&root);
        Ok(Ready { root, frame, book })
    }

    /// Whether the position is a member. `Budget` comes only where a node had to look back from the
    /// position, with at least `budget` candidates and no member on the way.
    pub fn test<L: Ledger>(&self, p: Pos, budget: u64, steps: &mut Steps<L>) -> Test
        requires range { IsCalendarPosition p.0 }
        requires budget { 1 ≤ budget }
        ensures value { IsTestOf (meant_of_ready self.now) p.0 budget result }
        ensures counted { steps.old ≤ steps.new }
    {
        match self.holds(p, budget, steps) {
            Ok(true) => Test::In,
            Ok(false) => Test::Out,
            Err(stop) => Test::Budget(stop),
        }
    }

    /// Whether the position is a member, or a stop of looking back from it.
    pub(crate) fn holds<L: Ledger>(
        &self,
        p: Pos,
        budget: u64,
        steps: &mut Steps<L>,
    ) -> Result<bool, Stop>
        requires range { IsCalendarPosition p.0 }
        requires budget { 1 ≤ budget }
        ensures value { IfOk result (λ v. v ≡ members_of self.now p.0) }
        ensures due { IfErr result (λ s. IsDueInTest (meant_of_ready self.now) p.0 budget s) }
        ensures counted { steps.old ≤ steps.new }
    {
        holds(&self.root, p, budget, steps)
    }

    /// The nearest place past `p`, up to the end, at which a leaf of the set may change.
    pub(crate) fn next_turn<L: Ledger>(
        &self,
        p: Pos,
        dir: Dir,
        end: Pos,
        steps: &mut Steps<L>,
    ) -> Option<Turn>
        requires here { IsCalendarPosition p.0 }
        requires there { IsCalendarPosition end.0 }
        ensures turn { IsTurn (members_of self.now) dir p.0 end.0 result }
        ensures counts { StandsIfCounted (is_candidate (meant_of_ready self.now)) dir result }
        ensures counted { steps.old ≤ steps.new }
    {
        next_turn(&self.root, p, dir, end, steps)
    }
}
