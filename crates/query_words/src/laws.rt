//! The laws of words, for proofs that cite them.

ghost use Rattle.query_words.specs.Laws.{WordsAreRead, WordsAreReadOnce};

use moment_text::literal_laws;
use token_text::token_laws;

/// Any words have one answer, a query or a fault, so that what [`read_words`](crate::read_words)
/// gives is settled by them.
pub fn words_laws()
    ensures exist { WordsAreRead }
    ensures unique { WordsAreReadOnce }
{
    literal_laws();
    token_laws();
}
