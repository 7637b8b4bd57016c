ghost use Rattle.query_core.specs.Laws.{AmpleFindsNeighbours, EnoughFindsNeighbours, NeighboursAreInRange, NeighboursAreUnique, NeighboursExist, NeighboursHoldForEver};

use frame_core::window_laws;
use run_search::{ample_place_laws, run_laws};
use search_core::ample_laws;
use span_core::answer_laws;

/// At each moment of the calendar range each query has an answer, and no second one.
pub fn neighbour_laws()
    ensures exist { NeighboursExist }
    ensures unique { NeighboursAreUnique }
{
    answer_laws();
    run_laws();
}

/// What the answers for a tree say of all whole numbers: where none is found by the tree's frame,
/// none ever is, and a run without a bound never ends there. The moments of the answers are of the
/// calendar range.
pub fn endless_laws()
    ensures for_ever { NeighboursHoldForEver }
    ensures in_range { NeighboursAreInRange }
{
    run_search::endless_laws();
    window_laws();
}

/// For a tree that looks no farther than `REACH`, no stop is due in a query for an ample budget;
/// nor for a budget above the candidates of the search from each of the query's places.
pub fn budget_laws()
    ensures ample { AmpleFindsNeighbours }
    ensures enough { EnoughFindsNeighbours }
{
    ample_laws();
    ample_place_laws();
}
