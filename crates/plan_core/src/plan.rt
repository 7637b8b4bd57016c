ghost use Rattle.std.specs.Prelude.{◌≡◌, ◌≤◌, IfErr, IfOk};
ghost use Rattle.moment_core.specs.Line.{IsCalendarPosition};
ghost use Rattle.expr_tree.specs.Tree.{meant_of, tree_of};
ghost use Rattle.stored_pair.specs.Names.{entries_of};
ghost use Rattle.cert_audit.specs.Lowered.{CanBeReady, meant_of_ready};
ghost use Rattle.lowered_tree.specs.Settling.{AreSettled, IsFaultOf};
ghost use Rattle.search_core.specs.Due.{IsTestOf};
ghost use Rattle.plan_core.specs.Plans.{AnswersFor, meant_of_plan};

use cert_audit::{PlanFault, Ready, sweep};
use expr_tree::Expr;
use moment_core::{Dir, Pos, Steps};
use span_core::{Answer, Test};
use std::alloc::Global;
use std::sync::ledger::Ledger;
use stored_pair::Book;

/// A set made ready for one search after another, over the book whose entries it names.
///
/// No call changes the set, and each answer is that of the set alone, whatever was asked before.
#[derive(Drop)]
pub struct Plan<'b> {
    ready: Ready<'b>,
}

impl<'b> Plan<'b> {
    /// Copies the tree and makes its leaves ready, with the refusals of `Ready::make`.
    pub fn make(alloc: Global, e: &Expr, book: &'b Book) -> Result<Plan<'b>, PlanFault>
        requires { CanBeReady (tree_of e.now) }
        ensures meant { IfOk result
            (λ plan. meant_of_plan plan ≡ meant_of (entries_of book.now) (tree_of e.now)) }
        ensures settled { IfOk result (λ plan. AreSettled (tree_of e.now)) }
        ensures fault { IfErr result (IsFaultOf (tree_of e.now)) }
    {
        let ready = Ready::make(alloc, e, book)?;
        Ok(Plan { ready })
    }

    /// Whether the position is a member. `Budget` comes only where a node had to look back from the
    /// position, with at least `budget` candidates and no member on the way.
    pub fn test<L: Ledger>(&mut self, p: Pos, budget: u64, steps: &mut Steps<L>) -> Test
        requires range { IsCalendarPosition p.0 }
        requires budget { 1 ≤ budget }
        ensures value { IsTestOf (meant_of_plan self.old) p.0 budget result }
        ensures same { meant_of_plan self.new ≡ meant_of_plan self.old }
        ensures counted { steps.old ≤ steps.new }
    {
        self.ready.test(p, budget, steps)
    }

    /// Looks for the nearest position past `p`, in the direction, whose membership differs.
    ///
    /// `At`, `None` and `Edge` are the answer. `Budget` with node 0 comes only where nothing
    /// differs from `p` up to the stop, which is not past the search's end, and at least `budget`
    /// candidates lie between. With another node it comes only where that one had to look back from
    /// a place of the search, with as many candidates and no member on the way.
    pub fn change<L: Ledger>(
        &mut self,
        p: Pos,
        dir: Dir,
        budget: u64,
        steps: &mut Steps<L>,
    ) -> Answer
        requires range { IsCalendarPosition p.0 }
        requires budget { 1 ≤ budget }
        ensures answer { AnswersFor (meant_of_plan self.old) p.0 dir budget result }
        ensures same { meant_of_plan self.new ≡ meant_of_plan self.old }
        ensures counted { steps.old ≤ steps.new }
    {
        sweep(&self.ready, p, dir, budget, steps)
    }

    /// Tells that searches in the direction are about to begin at the position. It takes no step
    /// and changes no answer.
    pub fn begin(&mut self, _p: Pos, _dir: Dir)
        ensures same { meant_of_plan self.new ≡ meant_of_plan self.old }
    {}

    /// The set made ready.
    pub fn ready(&self) -> &Ready<'b>
        ensures { meant_of_ready result.now ≡ meant_of_plan self.now }
    {
        &self.ready
    }
}
