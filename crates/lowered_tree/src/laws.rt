ghost use Rattle.lowered_tree.specs.Laws.{FirstUnsettledIsOne, SettledHaveNone, TreesSettleOrNot, UnsettledAreWorking, WellFormedAreLawful};

use field_rules::field_laws;
use frame_core::frame_laws;
use ical_rules::{ical_laws, settling_laws};

/// What a well-formed tree means has lawful rules.
pub fn lawful_laws()
    ensures { WellFormedAreLawful }
{
    field_laws();
    ical_laws();
    frame_laws();
}

/// The counts of a well-formed tree are settled, or one rule is the first for which that fails, and
/// not both. The candidate that it passed last lies in the working range.
pub fn settle_laws()
    ensures exist { TreesSettleOrNot }
    ensures apart { SettledHaveNone }
    ensures one { FirstUnsettledIsOne }
    ensures working { UnsettledAreWorking }
{
    settling_laws();
}
