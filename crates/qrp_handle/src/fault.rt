//! Why a part of a proof is not added.

use std::alloc::{AllocError, AllocFailed};

/// Why a part of a proof is not added.
#[derive(Clone, Copy, Debug, PartialEq, Eq)]
pub enum AddFault {
    /// An allocation failed.
    NoMemory,
    /// A number is outside the range of literals, or of step numbers.
    Range,
    /// A variable is bound already.
    Bound,
    /// A variable of a clause is not bound.
    Unbound,
    /// There are as many clauses as the format allows.
    Full,
    /// A step has this number already.
    Used,
    /// A step has more than two antecedents.
    Many,
}

impl<T: Drop> From<AllocFailed<T>> for AddFault {
    ghost use Rattle.std.specs.Prelude.{◌≡◌};
    ghost use Rattle.qrp_handle.specs.declared.fault.AddFault.TheVariants.{NoMemory};

    ghost from_gives = { λ _ e. e ≡ NoMemory };

    fn from(_e: AllocFailed<T>) -> AddFault {
        AddFault::NoMemory
    }
}

impl From<AllocError> for AddFault {
    ghost use Rattle.std.specs.Prelude.{◌≡◌};
    ghost use Rattle.qrp_handle.specs.declared.fault.AddFault.TheVariants.{NoMemory};

    ghost from_gives = { λ _ e. e ≡ NoMemory };

    fn from(_e: AllocError) -> AddFault {
        AddFault::NoMemory
    }
}
