ghost use Rattle.std.specs.Prelude.{◌≡◌};
ghost use Rattle.ical_rules.specs.Laws.{CheckedIcalRulesRepeat};
ghost use Rattle.ical_rules.specs.Lowered.{meaning_of_leaf};

use crate::leaf::IcalLeaf;
use frame_core::period_laws;
use rule_core::rule_laws;
use stored_pair::{Guarded, Recurrence};

/// The members of a rule that `check` accepts, with DTSTART in the calendar range, repeat by the
/// rule's frame, where it has one.
pub fn ical_laws()
    ensures { CheckedIcalRulesRepeat }
{
    period_laws();
    rule_laws();
}

/// What a leaf means is what its answers tell: its members, its candidates and its frame are those
/// of the recurrence that it is.
pub fn ical_leaf_laws(leaf: &Guarded<IcalLeaf>)
    ensures { meaning_of_leaf leaf.now ≡ record {
      member = ⟦<IcalLeaf as Recurrence>⟧.has leaf.now.inner;
      candidate = ⟦<IcalLeaf as Recurrence>⟧.cand leaf.now.inner;
      frame = ⟦<IcalLeaf as Recurrence>⟧.frame leaf.now.inner;
    } }
{}
