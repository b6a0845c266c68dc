//! Why no formula of gates was verified.

ghost use Rattle.std.specs.Prelude.{◌≡◌};
ghost use Rattle.gate_verify.specs.declared.fault.Unverified.TheVariants.{Question};

use qcir::QuestionFault;
use qrp_check::Fault;

/// Why no formula of gates was verified.
#[derive(Clone, Copy, Debug, PartialEq, Eq)]
pub enum Unverified {
    /// The text of the formula of gates has a fault, on this line.
    Question(QuestionFault, u64),
    /// The formula was read, and its clauses are more than the 2147483647 that QDIMACS can count.
    TooLong,
    /// The clauses were made, and the trace's text has a fault, or it does not prove its result of
    /// them. It is never a fault of a formula.
    Proof(Fault),
}

impl From<(QuestionFault, u64)> for Unverified {
    ghost from_gives = { λ found fault. fault ≡ Question found.0 found.1 };

    fn from(found: (QuestionFault, u64)) -> Unverified {
        Unverified::Question(found.0, found.1)
    }
}
