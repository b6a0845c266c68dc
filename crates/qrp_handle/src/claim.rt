//! The claim of a caller in C about a formula.

ghost use Rattle.std.specs.Prelude.{◌≡◌};
ghost use Rattle.qrp_handle.specs.Checks.{outcome_of};

use trace_items::Outcome;

/// The outcome that a caller claims: that the formula is true, or that it is false.
pub fn outcome_of(sat: bool) -> Outcome
    ensures { result ≡ outcome_of sat }
{
    if sat { Outcome::Sat } else { Outcome::Unsat }
}
