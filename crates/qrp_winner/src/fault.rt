//! Why there is no strategy.

ghost use Rattle.std.specs.Prelude.{◌≡◌};
ghost use Rattle.qrp_winner.specs.declared.fault.StrategyFault.TheVariants.{NoMemory};

use qrp_check::Fault;
use std::alloc::AllocError;

/// Why there is no strategy.
#[derive(Clone, Copy, Debug, PartialEq, Eq)]
pub enum StrategyFault {
    /// Nothing was verified.
    Check(Fault),
    /// An allocation failed once the trace was verified.
    NoMemory,
    /// The trace was verified, and its circuit was not made: AIGER has no numbers for so many
    /// gates.
    NoCircuit,
}

impl From<AllocError> for StrategyFault {
    ghost from_gives = { λ _ fault. fault ≡ NoMemory };

    fn from(_refused: AllocError) -> StrategyFault {
        StrategyFault::NoMemory
    }
}
