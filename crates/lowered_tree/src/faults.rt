ghost use Rattle.std.specs.Prelude.{◌≡◌};
ghost use Rattle.lowered_tree.specs.declared.faults.PlanFault.TheVariants.{Memory, Settle};

use ical_rules::Unsettled;
use moment_core::Moment;
use std::alloc::AllocError;

/// Within how many candidates the last member of a rule with a COUNT has to be found.
pub const SETTLE_LIMIT: u64 = 20_000_000;

/// Why a tree can't be made ready.
#[derive(Clone, Copy, Debug, PartialEq, Eq)]
pub enum PlanFault {
    /// A rule with a count has no last member within so many candidates, the last of them at the
    /// moment.
    Settle { passed: u64, at: Moment },
    Memory,
}

impl From<AllocError> for PlanFault {
    ghost from_gives = { λ _ e. e ≡ Memory };

    fn from(_e: AllocError) -> PlanFault {
        PlanFault::Memory
    }
}

impl From<Unsettled> for PlanFault {
    ghost from_gives = { λ u e. e ≡ Settle u.passed u.at };

    fn from(u: Unsettled) -> PlanFault {
        PlanFault::Settle {
            passed: u.passed,
            at: u.at,
        }
    }
}
