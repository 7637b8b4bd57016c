ghost use Rattle.span_core.specs.Laws.{AnswersAreUnique, HighBoundsEnd, LowBoundsBegin, RunsHoldTheirPositions, SearchesAreAnswered};

/// Every search has an answer and no second one, and between the bounds of a run lie just the run's
/// positions. It does nothing.
pub fn answer_laws()
    ensures some { SearchesAreAnswered }
    ensures one { AnswersAreUnique }
    ensures run { RunsHoldTheirPositions }
{}

/// A low bound lets positions through from its first one on, and a high bound up to its last one.
/// It does nothing.
pub fn bound_laws()
    ensures low { LowBoundsBegin }
    ensures high { HighBoundsEnd }
{}
