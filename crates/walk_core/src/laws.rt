ghost use Rattle.walk_core.specs.Laws.{AmpleSteps, EndsHaveReasons, EnoughSteps, FirstItemsLead, ItemsAreLeft, ItemsAreOneList, ItemsFollow, ItemsReverse, LeftIsOneList, StepsHoldForEver, WindowsBegin, WindowsHaveItems};

use run_search::{endless_laws, run_laws};
use search_core::ample_laws;
use span_core::answer_laws;

/// From each token that fits a list of items is left, and no second one: a first item and those
/// past it, or none, for a reason. Each window of the calendar range has one list of items too, and
/// backwards they are the same in reverse.
pub fn items_laws()
    ensures left { ItemsAreLeft }
    ensures one_left { LeftIsOneList }
    ensures first { FirstItemsLead }
    ensures follow { ItemsFollow }
    ensures ends { EndsHaveReasons }
    ensures some { WindowsHaveItems }
    ensures one { ItemsAreOneList }
    ensures reversed { ItemsReverse }
{
    answer_laws();
    run_laws();
}

/// For a tree that looks no farther than `REACH`, no stop is due in the steps of walks for an ample
/// budget; nor for a budget above the candidates of the search from each place of the step.
pub fn ample_step_laws()
    ensures ample { AmpleSteps }
    ensures enough { EnoughSteps }
{
    ample_laws();
}

/// A walk over a window of the calendar range begins with the window's items. What its steps say of
/// a tree of lawful rules holds on all whole numbers.
pub fn step_laws()
    ensures begin { WindowsBegin }
    ensures hold { StepsHoldForEver }
{
    answer_laws();
    endless_laws();
}
