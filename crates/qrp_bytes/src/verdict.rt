//! The struct that a caller in C gets: a result as numbers, and back.

ghost use Rattle.std.specs.Prelude.{◌≡◌, Bool, Result, Some, IfSome};
ghost use Rattle.qrp_check.specs.declared.verdict.Fault.{Fault};
ghost use Rattle.trace_check.specs.declared.verified.Verified.{Verified};
ghost use Rattle.qrp_check.specs.Checked.{truth_of};
ghost use Rattle.qrp_report.specs.declared.refusal.Refusal.{Refusal};
ghost use Rattle.qrp_report.specs.OfFaults.{NamesVariable, IsOfFault};
ghost use Rattle.qrp_bytes.specs.Texts.{encoded_nothing};
ghost use Rattle.qrp_bytes.specs.Encoding.{IsEncoded, encoded_truth, encoded_fault, encoded_refusal};

use qrp_check::Fault;
use qrp_report::{Refusal, is_of_fault};

/// A result for a caller in C: `struct qrp_verdict`, 16 bytes.
#[repr(C)]
#[derive(Clone, Copy, Debug, PartialEq, Eq)]
pub struct QrpVerdict {
    /// The step (C6), the variable (C1, C2, C3) or the line (F, P, Q), else 0.
    pub position: u64,
    /// 0: verified. 1: the proof is refused. 2: a text is refused. 4: an allocation failed, or a
    /// formula of gates has too many clauses.
    pub status: u8,
    /// 1 if the formula was verified to be true, else 0.
    pub truth: u8,
    /// `V` if the formula was verified, or the letter of the fault: `F`, `P`, `C`, or `Q` of a
    /// formula of gates.
    pub letter: u8,
    /// The number of the fault, as 4 of C4, or 0; 13 of Q if there are too many clauses.
    pub number: u8,
    /// For C6 the number of the step's fault, as 7 of S7, else 0.
    pub rule: u8,
    /// Zeros: the room that is left in the 16 bytes.
    pub reserved: [u8; 3],
}

/// The struct for a formula that was verified to have this truth.
pub fn encode_truth(truth: bool) -> QrpVerdict
    ensures { result ≡ encoded_truth truth }
{
    QrpVerdict {
        position: 0,
        status: 0,
        truth: if truth { 1 } else { 0 },
        letter: b'V',
        number: 0,
        rule: 0,
        reserved: [0; 3],
    }
}

/// The struct if nothing was verified or refused.
pub fn encode_nothing() -> QrpVerdict
    ensures { result ≡ encoded_nothing }
{
    QrpVerdict {
        position: 0,
        status: 0,
        truth: 0,
        letter: 0,
        number: 0,
        rule: 0,
        reserved: [0; 3],
    }
}

/// The struct for a refusal.
fn encode_refusal(refusal: &Refusal) -> QrpVerdict
    ensures { result ≡ encoded_refusal refusal.now }
{
    QrpVerdict {
        position: refusal.position,
        status: refusal.status(),
        truth: 0,
        letter: refusal.letter,
        number: refusal.number,
        rule: refusal.rule,
        reserved: [0; 3],
    }
}

/// The struct for a fault.
pub fn encode_fault(fault: &Fault) -> QrpVerdict
    ensures encoded { result ≡ encoded_fault fault.now }
    ensures named { NamesVariable fault.now }
{
    encode_refusal(&Refusal::of(fault))
}

/// The struct for a result.
#[tactic(auto, using(crate::proofs::HeadlineOfStruct::truth_encoded, crate::proofs::HeadlineOfStruct::fault_encoded))]
pub fn encode(outcome: &Result<bool, Fault>) -> QrpVerdict
    ensures { (verdict : Result Verified Fault) → outcome.now ≡ truth_of verdict
        → IsEncoded verdict result }
{
    match outcome {
        Ok(truth) => encode_truth(*truth),
        Err(fault) => encode_fault(fault),
    }
}

/// The truth that this struct encodes, or `None` if it encodes none.
pub fn decode_truth(verdict: &QrpVerdict) -> Option<bool>
    ensures encoded { IfSome result (λ b. verdict.now ≡ encoded_truth b) }
    ensures all { (b : Bool) → verdict.now ≡ encoded_truth b → result ≡ Some b }
{
    let truth = verdict.truth == 1;
    if *verdict == encode_truth(truth) {
        Some(truth)
    } else {
        None
    }
}

/// The refusal of a fault that this struct encodes, or `None` if it encodes none.
pub fn decode_refusal(verdict: &QrpVerdict) -> Option<Refusal>
    ensures encoded { IfSome result (λ r. IsOfFault r × (verdict.now ≡ encoded_refusal r)) }
    ensures all { (r : Refusal) → IsOfFault r → verdict.now ≡ encoded_refusal r → result ≡ Some r }
{
    let refusal = Refusal {
        letter: verdict.letter,
        number: verdict.number,
        rule: verdict.rule,
        position: verdict.position,
    };
    if *verdict != encode_refusal(&refusal) {
        return None;
    }
    if is_of_fault(&refusal) {
        return Some(refusal);
    }
    None
}
