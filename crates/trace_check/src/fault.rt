//! Why a trace is refused.

use qbf_core::Var;
use qrp_rules::RuleFault;
use std::alloc::AllocError;

/// Why a trace is refused; the names in the order in which they are looked at.
#[derive(Clone, Copy, Debug, PartialEq, Eq)]
pub enum CheckFault {
    /// A set variable is unbound in the formula.
    C1(Var),
    /// It has the other quantifier in the formula.
    C2(Var),
    /// Its block is smaller than one named before.
    C3(Var),
    /// There is no step without literals.
    C4,
    /// An allocation failed.
    C5,
    /// The core step of this number does not follow.
    C6(u64, RuleFault),
}

impl From<AllocError> for CheckFault {
    ghost use Rattle.std.specs.Prelude.{◌≡◌};
    ghost use Rattle.trace_check.specs.declared.fault.CheckFault.TheVariants.{C5};

    ghost from_gives = { λ _ e. e ≡ C5 };

    fn from(_e: AllocError) -> CheckFault {
        CheckFault::C5
    }
}
