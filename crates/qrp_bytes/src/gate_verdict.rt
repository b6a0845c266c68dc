//! The struct that a caller in C gets for a formula of gates, and back.

ghost use Rattle.std.specs.Prelude.{◌≡◌, Some, IfSome};
ghost use Rattle.gate_report.specs.Refusals.{IsOfGates};
ghost use Rattle.gate_report.specs.declared.refusal.GateRefusal.{GateRefusal};
ghost use Rattle.qrp_bytes.specs.Encoding.{IsGatesEncoded, NamesItsVariable};
ghost use Rattle.qrp_bytes.specs.Encoding.{encoded_gates, encoded_unverified};

use crate::verdict::{QrpVerdict, encode_fault, encode_truth};
use gate_report::GateRefusal;
use gate_verify::Unverified;

/// The struct for a refusal of a formula of gates.
fn encode_gates(refusal: &GateRefusal) -> QrpVerdict
    ensures { result ≡ encoded_gates refusal.now }
{
    QrpVerdict {
        position: refusal.line,
        status: refusal.status(),
        truth: 0,
        letter: b'Q',
        number: refusal.number,
        rule: 0,
        reserved: [0; 3],
    }
}

/// The struct for why no formula of gates was verified.
pub fn encode_unverified(fault: &Unverified) -> QrpVerdict
    ensures encoded { result ≡ encoded_unverified fault.now }
    ensures named { NamesItsVariable fault.now }
{
    match *fault {
        Unverified::Question(fault, line) => encode_gates(&GateRefusal::of_question(fault, line)),
        Unverified::TooLong => encode_gates(&GateRefusal::too_long()),
        Unverified::Proof(fault) => encode_fault(&fault),
    }
}

/// The struct for the result of the check of a formula of gates.
pub fn encode_checked(outcome: &Result<bool, Unverified>) -> QrpVerdict
    ensures { IsGatesEncoded outcome.now result }
{
    match outcome {
        Ok(truth) => encode_truth(*truth),
        Err(fault) => encode_unverified(fault),
    }
}

/// The refusal of a formula of gates that this struct encodes, or `None` if it encodes none.
pub fn decode_gates(verdict: &QrpVerdict) -> Option<GateRefusal>
    ensures encoded { IfSome result (λ r. IsOfGates r × (verdict.now ≡ encoded_gates r)) }
    ensures all { (r : GateRefusal) → IsOfGates r → verdict.now ≡ encoded_gates r
        → result ≡ Some r }
{
    let refusal = GateRefusal {
        number: verdict.number,
        line: verdict.position,
    };
    if *verdict != encode_gates(&refusal) {
        return None;
    }
    if refusal.is_of_fault() {
        return Some(refusal);
    }
    None
}
