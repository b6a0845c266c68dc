//! Why a gate was not put.

use std::alloc::{AllocError, AllocFailed};

/// Why a gate was not put.
#[derive(Clone, Copy, Debug, PartialEq, Eq)]
pub enum GateFault {
    /// An allocation failed.
    NoMemory,
    /// AIGER has no number for it: its variable would be 2147483648.
    TooLong,
}

impl From<AllocError> for GateFault {
    ghost use Rattle.std.specs.Prelude.{◌≡◌};
    ghost use Rattle.aiger.specs.declared.fault.GateFault.TheVariants.{NoMemory};

    ghost from_gives = { λ _ e. e ≡ NoMemory };

    fn from(_refused: AllocError) -> GateFault {
        GateFault::NoMemory
    }
}

impl<T: Drop> From<AllocFailed<T>> for GateFault {
    ghost use Rattle.std.specs.Prelude.{◌≡◌};
    ghost use Rattle.aiger.specs.declared.fault.GateFault.TheVariants.{NoMemory};

    ghost from_gives = { λ _ e. e ≡ NoMemory };

    fn from(_refused: AllocFailed<T>) -> GateFault {
        GateFault::NoMemory
    }
}
