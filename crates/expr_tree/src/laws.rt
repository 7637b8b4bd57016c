ghost use Rattle.expr_tree.specs.Laws.{IsBetweenMoments, LastsFromMoment, MomentsAreAlone, SortedAreSmall, SortedAreSound, SortedStayInReach};

/// A set whose kind is moments has no open second. No set with a sort looks farther than `REACH`,
/// has too many nodes, or has spans that are made of spans.
pub fn tree_laws()
    ensures moments { MomentsAreAlone }
    ensures reach { SortedStayInReach }
    ensures sound { SortedAreSound }
    ensures small { SortedAreSmall }
{}

/// Which positions durations and pairs have, in the words of their definition.
pub fn member_laws()
    ensures during { LastsFromMoment }
    ensures pairs { IsBetweenMoments }
{}
