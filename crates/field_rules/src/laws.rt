ghost use Rattle.std.specs.Prelude.{◌≡◌};
ghost use Rattle.field_rules.specs.Laws.{CheckedRulesRepeat};
ghost use Rattle.field_rules.specs.Lowered.{meaning_of_leaf};

use crate::leaf::FieldLeaf;
use frame_core::period_laws;
use rule_core::rule_laws;
use stored_pair::{Guarded, Recurrence};

/// The members of a rule that `check` accepts repeat by the rule's frame, where it has one.
pub fn field_laws()
    ensures { CheckedRulesRepeat }
{
    period_laws();
    rule_laws();
}

/// What a leaf means is what its answers tell: its members, its candidates and its frame are those
/// of the recurrence that it is.
pub fn field_leaf_laws(leaf: &Guarded<FieldLeaf>)
    ensures { meaning_of_leaf leaf.now ≡ record {
      member = ⟦<FieldLeaf as Recurrence>⟧.has leaf.now.inner;
      candidate = ⟦<FieldLeaf as Recurrence>⟧.cand leaf.now.inner;
      frame = ⟦<FieldLeaf as Recurrence>⟧.frame leaf.now.inner;
    } }
{}
