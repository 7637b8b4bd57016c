ghost use Rattle.expr_grammar.specs.Laws.{SpellOne, SpellOrNot, MomentsAreKept, SpansAreNamed, PrintedIsSpelled};

/// The laws of the grammar: a call has no effect, and a proof cites its clauses.
pub fn grammar_laws()
    ensures one { SpellOne }
    ensures decided { SpellOrNot }
    ensures moments { MomentsAreKept }
    ensures spans { SpansAreNamed }
    ensures printed { PrintedIsSpelled }
{}
