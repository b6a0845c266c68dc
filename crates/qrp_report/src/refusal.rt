//! Refusals as data: the letter and the number of a fault's name, and the position of the fault.

ghost use Rattle.std.specs.Prelude.{◌≡◌};
ghost use Rattle.qrp_report.specs.OfFaults.{CheckNamesVariable, NamesVariable};
ghost use Rattle.qrp_report.specs.Refusals.{with_parts, check_refusal, refusal_of, status};

use qrp_check::{CheckFault, Fault};

/// Why nothing was verified, as data: `S7` of step 5 is `C6` with rule 7 and position 5.
#[derive(Clone, Copy, Debug, PartialEq, Eq)]
pub struct Refusal {
    /// The letter of the fault: `F` of the formula's text, `P` of the trace's, `C` of the check.
    pub letter: u8,
    /// The number of the fault, as 4 of C4.
    pub number: u8,
    /// For C6 the number of the step's fault, as 7 of S7, else 0.
    pub rule: u8,
    /// The step (C6), the variable (C1, C2, C3) or the line (F, P), else 0.
    pub position: u64,
}

/// A refusal by its parts.
fn with_parts(letter: u8, number: u8, rule: u8, position: u64) -> Refusal
    ensures { result ≡ with_parts letter number rule position }
{
    Refusal {
        letter,
        number,
        rule,
        position,
    }
}

/// The refusal for a fault of a check.
fn check_refusal(fault: CheckFault) -> Refusal
    ensures is { result ≡ check_refusal fault }
    ensures named { CheckNamesVariable fault }
{
    match fault {
        CheckFault::C1(var) => with_parts(b'C', 1, 0, u64::from(var.number())),
        CheckFault::C2(var) => with_parts(b'C', 2, 0, u64::from(var.number())),
        CheckFault::C3(var) => with_parts(b'C', 3, 0, u64::from(var.number())),
        CheckFault::C4 => with_parts(b'C', 4, 0, 0),
        CheckFault::C5 => with_parts(b'C', 5, 0, 0),
        CheckFault::C6(step, rule) => with_parts(b'C', 6, rule as u8, step),
    }
}

impl Refusal {
    /// The refusal for a fault.
    pub fn of(fault: &Fault) -> Refusal
        ensures is { result ≡ refusal_of fault.now }
        // If it names a variable, the number of that is in range.
        ensures named { NamesVariable fault.now }
    {
        match *fault {
            Fault::Formula(fault, line) => with_parts(b'F', fault as u8, 0, line),
            Fault::Trace(fault, line) => with_parts(b'P', fault as u8, 0, line),
            Fault::Check(fault) => check_refusal(fault),
        }
    }

    /// The status that the program ends with: 1 the proof is refused, 2 a text is refused, 3 a
    /// source failed, 4 an allocation failed.
    pub fn status(&self) -> u8
        ensures { result ≡ status self.now }
    {
        match (self.letter, self.number) {
            (b'C', 5) => 4,
            (b'C', _) => 1,
            (_, 1) => 3,
            (_, 9) => 4,
            (_, _) => 2,
        }
    }
}
