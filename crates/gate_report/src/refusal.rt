//! Refusals of a formula of gates as data: the number in the name of a fault, and its line.

ghost use Rattle.std.specs.Prelude.{◌≡◌, ◌↔◌, IsTrue};
ghost use Rattle.gate_report.specs.Refusals.{IsOfGates, gate_status, question_number};
ghost use Rattle.gate_report.specs.Refusals.{question_refusal, too_long};

use qcir::QuestionFault;

/// Why a formula of gates was refused, as data: `Q5` of line 4 is number 5 with line 4.
#[derive(Clone, Copy, Debug, PartialEq, Eq)]
pub struct GateRefusal {
    /// The number of the fault, as 5 of Q5; 13 if there are more clauses than QDIMACS can count.
    pub number: u8,
    /// The line of a fault of the text, else 0.
    pub line: u64,
}

/// The number in the name of a fault of a text of gates.
fn question_number(fault: QuestionFault) -> u8
    ensures { result ≡ question_number fault }
{
    fault as u8
}

impl GateRefusal {
    /// The refusal for a fault of a text of gates, on this line.
    pub fn of_question(fault: QuestionFault, line: u64) -> GateRefusal
        ensures { result ≡ question_refusal fault line }
    {
        GateRefusal {
            number: question_number(fault),
            line,
        }
    }

    /// The refusal if there are more clauses than QDIMACS can count.
    pub fn too_long() -> GateRefusal
        ensures { result ≡ too_long }
    {
        GateRefusal {
            number: 13,
            line: 0,
        }
    }

    /// The status that the program ends with: 2 the text is refused, 3 its source failed, 4 an
    /// allocation failed or there are too many clauses.
    pub fn status(&self) -> u8
        ensures { result ≡ gate_status self.now }
    {
        match self.number {
            1 => 3,
            11 | 13 => 4,
            _ => 2,
        }
    }

    /// Whether it is the refusal of some fault: Q1 to Q12, or that there are too many clauses.
    pub fn is_of_fault(&self) -> bool
        ensures { IsTrue result ↔ IsOfGates self.now }
    {
        match self.number {
            13 => self.line == 0,
            number => 1 <= number && number <= 12,
        }
    }
}
