ghost use Rattle.std.specs.Prelude.{◌≡◌};
ghost use Rattle.expr_text.specs.Sorted.{GivesSort, GivesSorts, trees_of_sorted};
ghost use Rattle.expr_tree.specs.Tree.{tree_of, trees_of};

use expr_tree::{Expr, Program, Sort, SortFault, sort_of};
use stored_pair::Book;

/// A set and its sort.
#[derive(Debug, Drop)]
pub struct SortedSet {
    pub set: Expr,
    pub sort: Sort,
}

/// One set, or two on clocks that don't differ, each with its sort.
#[derive(Debug, Drop)]
pub struct SortedProgram {
    pub first: SortedSet,
    pub second: Option<SortedSet>,
}

impl SortedProgram {
    /// The sets alone.
    pub fn program(self) -> Program
        ensures { trees_of result ≡ trees_of_sorted self }
    {
        Program {
            first: self.first.set,
            second: match self.second {
                Some(second) => Some(second.set),
                None => None,
            },
        }
    }
}

/// The set with its sort, or why it has none.
fn sort(set: Expr, book: &Book) -> Result<SortedSet, SortFault>
    ensures { GivesSort (tree_of set) result }
{
    match sort_of(&set, book) {
        Ok(sort) => Ok(SortedSet { set, sort }),
        Err(fault) => Err(fault),
    }
}

/// The sets with their sorts, or the first fault: the first set's, then the second's, then that of
/// their two clocks.
pub(crate) fn sort_all(sets: Program, book: &Book) -> Result<SortedProgram, SortFault>
    ensures { GivesSorts (trees_of sets) result }
{
    let first = sort(sets.first, book)?;
    let Some(second) = sets.second else {
        return Ok(SortedProgram {
            first,
            second: None,
        });
    };
    let second = sort(second, book)?;
    if first.sort.clock.common(second.sort.clock).is_none() {
        return Err(SortFault::Clock);
    }
    Ok(SortedProgram {
        first,
        second: Some(second),
    })
}
