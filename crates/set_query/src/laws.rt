//! The laws of outcomes, for proofs that cite them.

ghost use Rattle.set_query.specs.Laws.{OutcomesAreUnique, OutcomesExist, RefusalsAreAlone};

use query_reply::reply_laws;
use query_words::words_laws;

/// Words have an outcome over each text, and one alone but for stops; a refusal is alone.
pub fn outcome_laws()
    ensures exist { OutcomesExist }
    ensures unique { OutcomesAreUnique }
    ensures alone { RefusalsAreAlone }
{
    words_laws();
    reply_laws();
}
