ghost use Rattle.expr_tokens.specs.Laws.{NothingIsRead, PartsAreRead, TextsAreRead, SpacesAreRead, SignsAreRead, WordsAreRead, StringsAreRead, NumbersAreRead, MomentsAreRead};
ghost use Rattle.expr_tokens.specs.Longest.{ReadsLongest, SpellsOne};

use moment_text::literal_laws;

/// The laws of tokens: a call has no effect, and a proof cites its clauses. What is read at the
/// front is the longest token there, and no bytes spell two tokens.
pub fn token_laws()
    ensures longest { ReadsLongest }
    ensures one { SpellsOne }
{
    literal_laws();
}

/// The laws of writing tokens: a call has no effect, and a proof cites its clauses.
pub fn writing_laws()
    ensures nothing { NothingIsRead }
    ensures parts { PartsAreRead }
    ensures texts { TextsAreRead }
    ensures spaces { SpacesAreRead }
    ensures signs { SignsAreRead }
    ensures words { WordsAreRead }
    ensures strings { StringsAreRead }
    ensures numbers { NumbersAreRead }
    ensures moments { MomentsAreRead }
{
    literal_laws();
}
