ghost use Rattle.expr_text.specs.Laws.{AcceptedAreWellFormed, AcceptedHaveSorts, LongTextsAreRefused, PrintedFormsAreRead, ReadingsAreUnique, ReadingsExist};

use expr_grammar::grammar_laws;
use expr_tokens::writing_laws;
use rrule_text::text_laws;
use rule_core::rule_laws;
use span_core::bound_laws;

/// The laws of reading texts: a call has no effect, and a proof cites its clauses.
///
/// Each text is read as trees or has a fault, and not both. What is accepted is well formed and has
/// a sort, and its printed form is read as the same trees, where neither it nor a string in it is
/// too long.
pub fn reading_laws()
    ensures exist { ReadingsExist }
    ensures unique { ReadingsAreUnique }
    ensures well_formed { AcceptedAreWellFormed }
    ensures sorted { AcceptedHaveSorts }
    ensures long { LongTextsAreRefused }
    ensures printed { PrintedFormsAreRead }
{
    grammar_laws();
    writing_laws();
    bound_laws();
    rule_laws();
    text_laws();
}
