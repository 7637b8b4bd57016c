ghost use Rattle.std.specs.Prelude.{◌≡◌, ◌*◌, pos, ◌+ℤ◌, ◌-ℤ◌};
ghost use Rattle.moment_core.specs.declared.line.TheConstants.{HIGH, LOW, REACH};
ghost use Rattle.search_core.specs.Ample.{days_of_working_range};
ghost use Rattle.search_core.specs.Laws.{AheadNeverStopsTests, AmpleIsAbove, AmpleNeverStops, AmpleNeverStopsTests, DurationsLookBack, EnoughNeverStops, FramesHavePeriods, FramesMoveWithinReach, NoneBackwards, OnePasses, PartsAdd, PairsLookBack, PartsHaveAll, PlacesAreFewer, StopsOfTestsAreDue, StopsOfTestsAreNumbered, StretchesAreTheirPositions, TreesRepeat, WiderCountsMore, WiderHasMore};

use expr_tree::member_laws;
use frame_core::{frame_laws, window_laws};
use span_core::{answer_laws, bound_laws};

/// A tree of lawful rules repeats by its frame, which what is made of a set moves no farther than
/// it looks.
pub fn tree_frame_laws()
    ensures period { FramesHavePeriods }
    ensures repeats { TreesRepeat }
    ensures moves { FramesMoveWithinReach }
{
    bound_laws();
    frame_laws();
    member_laws();
}

/// How many positions of a stretch pass a test.
pub fn counting_laws()
    ensures one { OnePasses }
    ensures parts { PartsAdd }
    ensures wider { WiderCountsMore }
{}

/// A stretch has no more candidates than its two parts, none where it ends before it begins, and no
/// more than one round it. The positions at which a candidate stands are no more than the
/// candidates.
pub fn candidate_laws()
    ensures parts { PartsHaveAll }
    ensures none { NoneBackwards }
    ensures wider { WiderHasMore }
    ensures places { PlacesAreFewer }
{}

/// A stop is due in looking back over a stretch just where it is due at a position of it. Durations
/// and pairs look back at least to a place up to which they have met no member. A stop of a test
/// has the number of a node, and is due in searches from there both ways.
pub fn due_laws()
    ensures stretches { StretchesAreTheirPositions }
    ensures during { DurationsLookBack }
    ensures pairs { PairsLookBack }
    ensures numbered { StopsOfTestsAreNumbered }
    ensures tests { StopsOfTestsAreDue }
{
    window_laws();
}

/// The working range has just its whole days. For a tree that looks no farther than `REACH`, an
/// ample budget is above the candidates of every stretch of the calendar range, and no stop is due
/// for it, in a search or in a test. For a tree that doesn't look back, no stop is due in a test,
/// nor in a search for a budget above its candidates.
pub fn ample_laws()
    ensures days { HIGH +ℤ REACH +ℤ pos 1 ≡ LOW -ℤ REACH +ℤ pos (86_400 * days_of_working_range) }
    ensures above { AmpleIsAbove }
    ensures ample { AmpleNeverStops }
    ensures tests { AmpleNeverStopsTests }
    ensures ahead { AheadNeverStopsTests }
    ensures enough { EnoughNeverStops }
{
    answer_laws();
    window_laws();
}
