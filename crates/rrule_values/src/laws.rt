ghost use Rattle.rrule_values.specs.Laws.{ItemsAreOrdered, ItemsAreWeekdays, JoinedAreCut, NamesAreWeekdays, NumbersAreOrdered, ValuesAreBack};

use rule_core::rule_laws;

/// The laws of values: a call has no effect, and a proof cites its clauses.
///
/// What is written of a value is read back as the value, in digits, capital letters, commas and
/// minuses alone. Lists that are read are in order, weekdays that are read are weekdays, and texts
/// joined by a sign are cut at the sign again.
pub fn value_laws()
    ensures back { ValuesAreBack }
    ensures numbers_ordered { NumbersAreOrdered }
    ensures items_ordered { ItemsAreOrdered }
    ensures item_days { ItemsAreWeekdays }
    ensures named_days { NamesAreWeekdays }
    ensures cut { JoinedAreCut }
{
    rule_laws();
}
