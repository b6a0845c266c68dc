//! Why a gate is refused, or a formula.

ghost use Rattle.std.specs.Prelude.{◌≡◌};

use std::alloc::AllocError;

/// Why a gate is refused, or a formula.
#[derive(Clone, Copy, Debug, PartialEq, Eq)]
pub enum EncodingFault {
    /// A name that is to be given is given already.
    Given,
    /// A literal is of a name that is not given yet.
    Unknown,
    /// There are more clauses than QDIMACS can count.
    TooLong,
    /// An allocation failed.
    NoMemory,
}

impl From<AllocError> for EncodingFault {
    ghost use Rattle.std.specs.Prelude.{◌≡◌};
    ghost use Rattle.gate_clauses.specs.declared.fault.EncodingFault.TheVariants.{NoMemory};

    ghost from_gives = { λ _ e. e ≡ NoMemory };

    fn from(_e: AllocError) -> EncodingFault {
        EncodingFault::NoMemory
    }
}
