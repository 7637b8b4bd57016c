//! Why a text has no tokens.

ghost use Rattle.std.specs.Prelude.{◌≡◌};
ghost use Rattle.expr_tokens.specs.declared.fault.TokenFault.TheVariants.{Memory};

use std::alloc::{AllocError, AllocFailed};

/// Why a text isn't read as tokens.
#[derive(Clone, Copy, Debug, PartialEq, Eq)]
pub enum TokenFault {
    /// No token begins at this byte, counted from 0, or the string or number that does is too long
    /// or not closed.
    Token { byte: usize },
    /// Memory ran out.
    Memory,
}

impl From<AllocError> for TokenFault {
    ghost from_gives = { λ _ e. e ≡ Memory };

    fn from(_e: AllocError) -> TokenFault {
        TokenFault::Memory
    }
}

impl<T: Drop> From<AllocFailed<T>> for TokenFault {
    ghost from_gives = { λ _ e. e ≡ Memory };

    fn from(_e: AllocFailed<T>) -> TokenFault {
        TokenFault::Memory
    }
}
