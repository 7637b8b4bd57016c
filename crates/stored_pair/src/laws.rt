ghost use Rattle.stored_pair.specs.Laws.{NeighboursAreFound, StepsSkipNone};

/// What follows from the steps of a recurrence whose members are candidates.
///
/// No step skips a member. Of two members of the working range without a candidate between them,
/// the step after the lesser is the greater, and the step before the greater is the lesser.
pub fn recurrence_laws()
    ensures skips { StepsSkipNone }
    ensures neighbours { NeighboursAreFound }
{}
