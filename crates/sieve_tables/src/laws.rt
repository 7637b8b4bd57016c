ghost use Rattle.sieve_tables.specs.Lowered.{SievesHaveRules, SievesTestRules};
ghost use Rattle.sieve_tables.specs.Laws.{TablesTestLists, WeekdaysByThemselves};

use moment_core::calendar_laws;

/// What tables test is what the lists mean that they were filled with.
pub fn table_laws()
    ensures signed { TablesTestLists }
    ensures weekdays { WeekdaysByThemselves }
{}

/// A sieve with the tables of a rule has the rule's members.
pub fn lowering_laws()
    ensures tests { SievesTestRules }
    ensures members { SievesHaveRules }
{
    calendar_laws();
}
