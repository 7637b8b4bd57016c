ghost use Rattle.std.specs.Prelude.{◌≡◌};
ghost use Rattle.rrule_text.specs.declared.fault.RruleFault.TheVariants.{Memory};

use rule_core::{Part, RuleFault};
use std::alloc::{AllocError, AllocFailed};

/// Why a text isn't read as a rule.
#[derive(Clone, Copy, Debug, PartialEq, Eq)]
pub enum RruleFault {
    /// The text isn't of the form of a rule.
    Syntax,
    /// The part stands in the text twice.
    Repeated(Part),
    /// The text writes a rule that is none.
    Rule(RuleFault),
    /// Memory ran out.
    Memory,
}

impl From<AllocError> for RruleFault {
    ghost from_gives = { λ _ e. e ≡ Memory };

    fn from(_e: AllocError) -> RruleFault {
        RruleFault::Memory
    }
}

impl<T: Drop> From<AllocFailed<T>> for RruleFault {
    ghost from_gives = { λ _ e. e ≡ Memory };

    fn from(_e: AllocFailed<T>) -> RruleFault {
        RruleFault::Memory
    }
}
