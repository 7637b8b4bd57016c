ghost use Rattle.run_search.specs.Laws.{AmpleFindsAll, EnoughFindsAll, ItemsAreInRange, ItemsHoldForEver, NoneIsForEver, RunsAreUnique, RunsExist};

use frame_core::window_laws;
use search_core::{ample_laws, tree_frame_laws};
use span_core::answer_laws;

/// From each position of the calendar range up to another, either way, a set has a first run or no
/// member, and no second first run.
pub fn run_laws()
    ensures exist { RunsExist }
    ensures unique { RunsAreUnique }
{
    answer_laws();
}

/// What the answers of a tree of lawful rules say of all whole numbers: where a search answers
/// none, nothing ever differs, and a run without a bound never ends there. The moments of a run's
/// bounds are of the calendar range.
pub fn endless_laws()
    ensures none { NoneIsForEver }
    ensures items { ItemsHoldForEver }
    ensures in_range { ItemsAreInRange }
{
    tree_frame_laws();
    window_laws();
}

/// For a tree that looks no farther than `REACH`, no stop is due for an ample budget from a
/// position, nor from the nearest changes past it; nor is one for a budget above the candidates of
/// the search from each of them.
pub fn ample_place_laws()
    ensures ample { AmpleFindsAll }
    ensures enough { EnoughFindsAll }
{
    ample_laws();
}
