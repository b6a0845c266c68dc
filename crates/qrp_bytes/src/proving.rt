//! The check of a trace, and the proof in it, from the bytes that a caller lends.

ghost use Rattle.std.specs.Prelude.{◌≡◌, ◌<◌, length, IfOk, IfErr, Err};
ghost use Rattle.std.specs.List.{AllByRecursion};
ghost use Rattle.trace_items.specs.Derivations.{Derivation, steps_at};
ghost use Rattle.qrp.specs.Grammar.{text};
ghost use Rattle.trace_items.specs.Inferences.{numbers};
ghost use Rattle.trace_check.specs.Trim.{trimmed_trace};
ghost use Rattle.trace_check.specs.Proof.{is_sat};
ghost use Rattle.qrp_check.specs.Checked.{IsChecked, IsTruthOf};
ghost use Rattle.qrp_report.specs.Results.{IsTrimmedFrom};
ghost use Rattle.qrp_bytes.specs.Texts.{lent_bytes};
ghost use Rattle.qrp_bytes.specs.Verdicts.{StructHeadline, VerifyReturns};

use crate::verdict::{QrpVerdict, encode};
use qbf_text::{SliceSource, VecSink};
use qrp::write_steps_at;
use qrp_check::{CheckFault, Fault, Rules, Verified, find_proof, find_truth};
use std::alloc::{AllocError, Global};
use trace_items::{CompactTrace, KeptSteps};

/// The truth that the trace in these bytes shows of the formula in those.
///
/// # Errors
/// The first fault.
pub(crate) fn lent_truth(
    alloc: Global,
    formula: &[u8],
    trace: &[u8],
    rules: Rules,
) -> Result<bool, Fault>
    ensures { IsTruthOf (λ v. IsChecked rules (lent_bytes formula.now) (lent_bytes trace.now) v)
        result }
{
    let mut formula_source = SliceSource::new(formula);
    let mut trace_source = SliceSource::new(trace);
    find_truth(alloc, &mut formula_source, &mut trace_source, rules)
}

/// Whether the trace in these bytes proves its result of the formula in those, as `verify` returns
/// it.
pub fn verify_bytes(alloc: Global, formula: &[u8], trace: &[u8], rules: Rules) -> QrpVerdict
    ensures headline { StructHeadline rules formula.now trace.now result }
    ensures verdict { VerifyReturns rules formula.now trace.now result }
{
    let outcome = lent_truth(alloc, formula, trace, rules);
    encode(&outcome)
}

/// The trace in these bytes, and the result of its check on the formula in those.
///
/// # Errors
/// The first fault.
fn lent_proof(
    alloc: Global,
    formula: &[u8],
    trace: &[u8],
    rules: Rules,
) -> Result<(CompactTrace, Verified), Fault>
    ensures trimmed { IfOk result (λ r. IsTrimmedFrom rules formula.now trace.now
        (trimmed_trace r.0 r.1.core.items)) }
    ensures claim { IfOk result (λ r. r.1.truth ≡ is_sat r.0.result) }
    ensures within { IfOk result (λ r.
        AllByRecursion (λ i. i < length r.0.steps) r.1.core.items) }
    ensures err { IfErr result (λ e. IsChecked rules (lent_bytes formula.now) (lent_bytes trace.now) (Err e)) }
{
    let mut formula_source = SliceSource::new(formula);
    let mut trace_source = SliceSource::new(trace);
    find_proof(alloc, &mut formula_source, &mut trace_source, rules)
}

/// The text of a trace with only the steps at these places.
///
/// # Errors
/// If an allocation fails.
fn text_at(alloc: Global, trace: &CompactTrace, places: &[usize]) -> Result<VecSink, AllocError>
    requires { AllByRecursion (λ i. i < length trace.now.steps) places.now }
    ensures { IfOk result (λ s. s.bytes ≡ text (trimmed_trace trace.now places.now)) }
{
    let mut sink = VecSink::new(alloc, 0)?;
    match write_steps_at(trace, places, &mut sink) {
        Ok(()) => Ok(sink),
        Err(_) => Err(AllocError),
    }
}

/// The numbers of the steps at these places, in order.
///
/// # Errors
/// If an allocation fails.
#[tactic(auto, using(crate::proofs::GivenTexts::next_number))]
pub fn numbers_at<T: KeptSteps>(
    alloc: Global,
    trace: &T,
    places: &[usize],
) -> Result<Vec<u64>, AllocError>
    requires { AllByRecursion (λ i. i < length (T.steps trace.now)) places.now }
    ensures { IfOk result (λ v. v.items ≡ numbers (steps_at (T.steps trace.now) places.now)) }
{
    let mut numbers = Vec::new(alloc);
    for place in places {
        numbers.push(trace.number(*place))?;
    }
    Ok(numbers)
}

/// The truth that the proof in these bytes shows, with the text of the trimmed trace.
///
/// # Errors
/// The first fault, or C5 if an allocation fails.
pub fn trim_bytes(
    alloc: Global,
    formula: &[u8],
    trace: &[u8],
    rules: Rules,
) -> Result<(bool, VecSink), Fault>
    ensures ok { IfOk result (λ r. (t : Derivation) × IsTrimmedFrom rules formula.now trace.now t
        × (r.0 ≡ is_sat t.result) × (r.1.bytes ≡ text t)) }
    ensures err { IfErr result (λ e. IsChecked rules (lent_bytes formula.now) (lent_bytes trace.now) (Err e)) }
{
    let (whole, verified) = lent_proof(alloc, formula, trace, rules)?;
    match text_at(alloc, &whole, &verified.core) {
        Ok(text) => Ok((verified.truth, text)),
        Err(_) => Err(Fault::Check(CheckFault::C5)),
    }
}

/// Checks as `verify_bytes` does, and returns the numbers of the core's steps, in the order of the
/// trace.
///
/// # Errors
/// As those of `trim_bytes`.
pub fn list_core(
    alloc: Global,
    formula: &[u8],
    trace: &[u8],
    rules: Rules,
) -> Result<(bool, Vec<u64>), Fault>
    ensures ok { IfOk result (λ r. (t : Derivation) × IsTrimmedFrom rules formula.now trace.now t
        × (r.0 ≡ is_sat t.result) × (r.1.items ≡ numbers t.steps)) }
    ensures err { IfErr result (λ e. IsChecked rules (lent_bytes formula.now) (lent_bytes trace.now) (Err e)) }
{
    let (whole, verified) = lent_proof(alloc, formula, trace, rules)?;
    match numbers_at(alloc, &whole, &verified.core) {
        Ok(numbers) => Ok((verified.truth, numbers)),
        Err(_) => Err(Fault::Check(CheckFault::C5)),
    }
}
