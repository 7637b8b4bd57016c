ghost use Rattle.sieve_core.specs.Laws.{CandidatesLieBetween, MembersAreCandidates, RulesDecideBetween, RulesRepeat, SettingKeepsOthers, WordsHaveBits};

/// What follows from the definitions of sieves and of their tables.
///
/// A rule repeats after as many times 400 years as hold a whole number of its intervals. Each
/// member is a candidate, and each candidate lies from the sieve's first moment to its last,
/// between which the members are those of the rule. A bit that is set is set, and each other bit of
/// the table stays as it was.
pub fn sieve_laws()
    ensures repeats { RulesRepeat }
    ensures members { MembersAreCandidates }
    ensures ends { CandidatesLieBetween }
    ensures between { RulesDecideBetween }
    ensures word { WordsHaveBits }
    ensures set { SettingKeepsOthers }
{}
