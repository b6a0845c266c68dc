//! Why no formula of gates was read.

ghost use Rattle.std.specs.Prelude.{◌≡◌};

use std::alloc::{AllocError, AllocFailed};

/// Why no formula of gates was read.
///
/// Each fault comes with a line: that of the first line that is not accepted at its place, counted
/// from 1, or that of the end with Q9 and with an output that no line gives, or 0 with Q1 and Q11.
#[derive(Clone, Copy, Debug, PartialEq, Eq)]
pub enum QuestionFault {
    /// The source failed during the call.
    Q1 = 1,
    /// The first line is not `#QCIR-14` or `#QCIR-G14`, with a number after it or not.
    Q2,
    /// A line that is not allowed here.
    Q3,
    /// A name that is given twice.
    Q4,
    /// A gate before its definition: an input whose name only this line or a later one gives.
    Q5,
    /// Free variables.
    Q6,
    /// A gate with a quantifier.
    Q7,
    /// A gate with more or fewer inputs than its kind has.
    Q8,
    /// The end before the output.
    Q9,
    /// More than 2147483647 names.
    Q10,
    /// Out of memory: an allocation failed.
    Q11,
    /// A name that no line gives: a variable that is not bound, or the output.
    Q12,
}

impl From<AllocError> for QuestionFault {
    ghost use Rattle.std.specs.Prelude.{◌≡◌};
    ghost use Rattle.qcir.specs.declared.fault.QuestionFault.TheVariants.{Q11};

    ghost from_gives = { λ _ e. e ≡ Q11 };

    fn from(_e: AllocError) -> QuestionFault {
        QuestionFault::Q11
    }
}
