ghost use Rattle.std.specs.Prelude.{◌≡◌};
ghost use Rattle.expr_text.specs.declared.fault.TextFault.TheVariants.{Memory, Sort};
ghost use Rattle.expr_text.specs.Making.{text_fault};

use crate::building::Unmade;
use expr_tree::SortFault;
use rrule_text::RruleFault;
use rule_core::RuleFault;
use std::alloc::{AllocError, AllocFailed};
use thiserror::Error;

/// The most bytes that a text may have.
pub const LONGEST: usize = 65_536;

/// Why a text isn't read as a program. The first cause of this order decides; within a cause, the
/// first place in the text.
#[derive(Clone, Copy, Debug, PartialEq, Eq, Error)]
pub enum TextFault {
    /// The text has more than `LONGEST` bytes.
    #[error("more than 65,536 bytes")]
    Long,
    /// No token begins at the byte, counted from 0.
    #[error("no token at byte {byte}")]
    Token { byte: usize },
    /// The name of a call that isn't built stands before a `(`.
    #[error("a call that isn't built")]
    Unbuilt,
    /// The tokens spell no program of the grammar.
    #[error("no program of the grammar")]
    Syntax,
    /// The literal at the byte names no moment of the calendar range; or, if each literal names
    /// one, no position lies between the bounds of the span whose name begins at the byte.
    #[error("no moment, or no position of a span, at byte {byte}")]
    Moment { byte: usize },
    /// The first rule by fields that is none, by its fault.
    #[error("no rule")]
    Rule(RuleFault),
    /// The first text of a rule of RFC 5545 that is that of none, by its fault, which is never
    /// want of memory.
    #[error("no rule of RFC 5545")]
    Rrule(RruleFault),
    /// The first expression has no sort, or the second, or their clocks differ.
    #[error("no sort")]
    Sort(SortFault),
    /// No memory was left.
    #[error("no memory was left")]
    Memory,
}

impl From<AllocError> for TextFault {
    ghost from_gives = { λ _ e. e ≡ Memory };

    fn from(_e: AllocError) -> TextFault {
        TextFault::Memory
    }
}

impl<T: Drop> From<AllocFailed<T>> for TextFault {
    ghost from_gives = { λ _ e. e ≡ Memory };

    fn from(_e: AllocFailed<T>) -> TextFault {
        TextFault::Memory
    }
}

impl From<Unmade> for TextFault {
    ghost from_gives = { λ unmade e. e ≡ text_fault unmade };

    fn from(unmade: Unmade) -> TextFault {
        match unmade {
            Unmade::Rule(fault) => TextFault::Rule(fault),
            Unmade::Rrule(fault) => TextFault::Rrule(fault),
        }
    }
}

impl From<SortFault> for TextFault {
    ghost from_gives = { λ fault e. e ≡ Sort fault };

    fn from(fault: SortFault) -> TextFault {
        TextFault::Sort(fault)
    }
}
