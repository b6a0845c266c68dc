//! The line of a verdict, as the program prints it, and the meaning of its fault.

ghost use Rattle.std.specs.Prelude.{◌≡◌, ◌≤◌, Bool, Some, Result, [], length};
ghost use Rattle.qbf_text.specs.Written.{IsPut};
ghost use Rattle.trace_check.specs.declared.verified.Verified.{Verified};
ghost use Rattle.qrp_check.specs.declared.verdict.Fault.{Fault};
ghost use Rattle.qrp_report.specs.Meanings.{fault_meaning};
ghost use Rattle.qrp_report.specs.OfFaults.{NamesVariable};
ghost use Rattle.gate_report.specs.Meanings.{unverified_meaning};
ghost use Rattle.gate_verify.specs.declared.fault.Unverified.{Unverified};
ghost use Rattle.qrp_bytes.specs.Encoding.{IsEncoded, EncodesSome, EncodesFault, encoded_fault, result_line};
ghost use Rattle.qrp_bytes.specs.Encoding.{IsGatesEncoded, NamesItsVariable, checked_line, encoded_unverified};

use crate::gate_verdict::decode_gates;
use crate::line::Line;
use crate::verdict::{QrpVerdict, decode_refusal, decode_truth};
use gate_report::put_gate_refusal;
use qbf_text::{Sink, SinkFault};
use qrp_report::{put_refusal, put_verdict};

/// Sends the line of a verdict, or nothing if the struct encodes no result.
fn put_line<S: Sink>(sink: &mut S, verdict: &QrpVerdict) -> Result<(), SinkFault>
    ensures encoded { (outcome : Result Bool Unverified) → IsGatesEncoded outcome verdict.now
        → IsPut S.written S.failures S.failed_last sink.old sink.new (checked_line outcome) result }
    ensures none { ¬ EncodesSome verdict.now → sink.new ≡ sink.old }
{
    if let Some(truth) = decode_truth(verdict) {
        return put_verdict(sink, truth);
    }
    if let Some(refusal) = decode_gates(verdict) {
        return put_gate_refusal(sink, &refusal);
    }
    match decode_refusal(verdict) {
        Some(refusal) => put_refusal(sink, &refusal),
        None => Ok(()),
    }
}

/// The line of a verdict, or an empty one if the struct encodes no result.
pub fn line_of(verdict: &QrpVerdict) -> Line
    ensures encoded { (outcome : Result Verified Fault) → IsEncoded outcome verdict.now
        → ⟦<Line as Sink>⟧.written result ≡ Some (result_line outcome) }
    ensures gates { (outcome : Result Bool Unverified) → IsGatesEncoded outcome verdict.now
        → ⟦<Line as Sink>⟧.written result ≡ Some (checked_line outcome) }
    ensures none { ¬ EncodesSome verdict.now → ⟦<Line as Sink>⟧.written result ≡ Some [] }
{
    // Reading the position tells the prover that it has at most 20 digits.
    let _position = verdict.position;
    let mut line = Line::new();
    let _ = put_line(&mut line, verdict);
    line
}

/// The meaning of the fault of a verdict, or an empty text if the struct encodes no fault.
pub fn meaning_of(verdict: &QrpVerdict) -> &'static str
    ensures encoded { (e : Fault) → NamesVariable e → verdict.now ≡ encoded_fault e
        → result.now ≡ fault_meaning e }
    ensures gates { (e : Unverified) → NamesItsVariable e → verdict.now ≡ encoded_unverified e
        → result.now ≡ unverified_meaning e }
    ensures none { ¬ EncodesFault verdict.now → result.now ≡ [] }
    ensures short { length result.now ≤ 127 }
{
    if let Some(refusal) = decode_gates(verdict) {
        return refusal.meaning();
    }
    match decode_refusal(verdict) {
        Some(refusal) => refusal.meaning(),
        None => "",
    }
}
