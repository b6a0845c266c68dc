//! Why the core of a trace does not follow.

use qrp_rules::RuleFault;
use std::alloc::AllocError;

/// Why the core of a trace does not follow.
#[derive(Clone, Copy, Debug, PartialEq, Eq)]
pub enum CoreFault {
    /// An allocation failed.
    OutOfMemory,
    /// The step of this number does not follow.
    Step(u64, RuleFault),
}

impl From<AllocError> for CoreFault {
    ghost use Rattle.std.specs.Prelude.{◌≡◌};
    ghost use Rattle.core_walk.specs.declared.fault.CoreFault.TheVariants.{OutOfMemory};

    ghost from_gives = { λ _ e. e ≡ OutOfMemory };

    fn from(_e: AllocError) -> CoreFault {
        CoreFault::OutOfMemory
    }
}
