ghost use Rattle.rrule_text.specs.Laws.{RulesAreWritable, WrittenIsPlain, WrittenIsRead};

use rrule_values::value_laws;
use rule_core::rule_laws;

/// The laws of the texts of rules: a call has no effect, and a proof cites its clauses.
///
/// What is read has a written form, and the written form of a rule is read as the rule. It has
/// digits, capital letters, and the signs `,`, `-`, `;` and `=` alone.
pub fn text_laws()
    ensures writable { RulesAreWritable }
    ensures back { WrittenIsRead }
    ensures plain { WrittenIsPlain }
{
    rule_laws();
    value_laws();
}
