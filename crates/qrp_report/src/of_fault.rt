//! Whether numbers are those of a fault.

ghost use Rattle.std.specs.Prelude.{IsTrue, ◌↔◌};
ghost use Rattle.qrp_report.specs.OfFaults.{IsOfFault};

use crate::refusal::Refusal;
use qbf_core::LAST_VARIABLE;

/// Whether it is the refusal of some fault: F1 to F9, P1 to P9, C1 to C3 with a variable, C4, C5,
/// or C6 with S1 to S12.
#[tactic(auto, using(crate::proofs::FaultsByNumbers::fault_of, crate::proofs::FaultsByNumbers::has_numbers))]
pub fn is_of_fault(refusal: &Refusal) -> bool
    ensures { IsTrue result ↔ IsOfFault refusal.now }
{
    let position = refusal.position;
    match (refusal.letter, refusal.number) {
        (b'F' | b'P', 1..=9) => refusal.rule == 0,
        (b'C', 1..=3) => refusal.rule == 0 && 1 <= position && position <= u64::from(LAST_VARIABLE),
        (b'C', 4 | 5) => refusal.rule == 0 && position == 0,
        (b'C', 6) => 1 <= refusal.rule && refusal.rule <= 12,
        (_, _) => false,
    }
}
