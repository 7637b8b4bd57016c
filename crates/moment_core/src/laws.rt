ghost use Rattle.moment_core.specs.LineLaws.{StepsAdd, StepsTellApart, SightsFollow, PositionsHaveMoments, RangesHaveNoGaps, NextChangesAreOne, NextStepsAreOne};

/// The laws of steps on the line in either direction, of what is seen on the way, and of the
/// nearest places that a search finds. It does nothing.
pub fn line_laws()
    ensures steps_add { StepsAdd }
    ensures steps_tell_apart { StepsTellApart }
    ensures sights_follow { SightsFollow }
    ensures positions_have_moments { PositionsHaveMoments }
    ensures ranges_have_no_gaps { RangesHaveNoGaps }
    ensures next_changes_are_one { NextChangesAreOne }
    ensures next_steps_are_one { NextStepsAreOne }
{}
