//! The exported functions that write what a caller in C handed over as texts.

ghost use Rattle.std.specs.Prelude.{◌≡◌, ◌+◌, [], drop, IfErr, IfNone, IfOk, IfSome, IsTrue, List};
ghost use Rattle.std.specs.Prelude.{◌≢◌, ◌↔◌, ◌<◌, OnOk, ℕ, length};
ghost use Rattle.std.specs.List.{AllByRecursion};
ghost use Rattle.qbf_core.specs.Truth.{IsTrueFormula};
ghost use Rattle.qdimacs.specs.Grammar as formulas;
ghost use Rattle.qrp.specs.Grammar as traces;
ghost use Rattle.trace_check.specs.Proof.{IsFirstFault};
ghost use Rattle.trace_check.specs.Trim.{trimmed_trace};
ghost use Rattle.trace_check.specs.declared.fault.CheckFault.TheVariants.{C5};
ghost use Rattle.qrp_check.specs.declared.verdict.Fault.TheVariants.{Check};
ghost use Rattle.qrp_bytes.specs.Buffers.{IsWritten};
ghost use Rattle.qrp_bytes.specs.Encoding.{encoded_fault};
ghost use Rattle.qrp_bytes.specs.Texts.{encoded_nothing};
ghost use Rattle.qrp_handle.specs.Checks.{HasCore, outcome_of};
ghost use Rattle.qrp_handle.specs.Texts.{formula_written, trace_written};
ghost use Rattle.qrp_c.specs.Checked.{IsTextGiven, IsTrimmedOf};

use qbf_text::VecSink;
use qrp_bytes::{QrpVerdict, encode_fault, encode_nothing, encode_truth, put_text};
use qrp_check::{CheckFault, Fault};
use qrp_handle::{Proof, QrpProof, outcome_of};
use qrp_rules::Rules;
use std::alloc::{AllocError, Global};

/// The canonical text of the formula that was handed over, with a zero after it.
///
/// In C: `size_t qrp_proof_write_formula(struct qrp_proof *proof, char *buffer, size_t room, struct
/// qrp_verdict *out)`.
///
/// Returns its length without the zero, and writes as `qrp_verdict_line` does. Writes zeros to
/// `out`, or that an allocation failed, and then the text is empty. It is empty too if there is no
/// proof.
#[unsafe(no_mangle)]
pub extern "C" fn qrp_proof_write_formula(
    alloc: Global,
    proof: &mut QrpProof,
    buffer: &mut [u8],
    out: &mut QrpVerdict,
) -> usize
    ensures written { IfSome proof.old.held.value (λ p. IsTextGiven
        (formulas.text (formula_written p.formula)) buffer.old buffer.new out.new result) }
    ensures nothing { IfNone proof.old.held.value
        ((out.new ≡ encoded_nothing) × IsWritten [] buffer.old buffer.new result) }
    ensures kept { proof.new.held.value ≡ proof.old.held.value }
    ensures rest { drop (1 + result) buffer.new ≡ drop (1 + result) buffer.old }
{
    match proof.take(alloc) {
        Some(held) => {
            let text = formula_text(alloc, &held);
            *proof = QrpProof::of(held);
            give_text(buffer, out, encode_nothing(), &text)
        }
        None => {
            *out = encode_nothing();
            put_text(buffer, b"")
        }
    }
}

/// The canonical text of the steps as a trace that says `r sat` or `r unsat`, with a zero after it.
/// The trace has no sets.
///
/// In C: `size_t qrp_proof_write_trace(struct qrp_proof *proof, bool sat, char *buffer, size_t
/// room, struct qrp_verdict *out)`.
///
/// Returns and writes as `qrp_proof_write_formula` does.
#[unsafe(no_mangle)]
pub extern "C" fn qrp_proof_write_trace(
    alloc: Global,
    proof: &mut QrpProof,
    sat: bool,
    buffer: &mut [u8],
    out: &mut QrpVerdict,
) -> usize
    ensures written { IfSome proof.old.held.value (λ p. IsTextGiven
        (traces.text (trace_written p.formula p.trace.steps (outcome_of sat)))
        buffer.old buffer.new out.new result) }
    ensures nothing { IfNone proof.old.held.value
        ((out.new ≡ encoded_nothing) × IsWritten [] buffer.old buffer.new result) }
    ensures kept { proof.new.held.value ≡ proof.old.held.value }
    ensures rest { drop (1 + result) buffer.new ≡ drop (1 + result) buffer.old }
{
    match proof.take(alloc) {
        Some(held) => {
            let text = trace_text(alloc, &held, sat);
            *proof = QrpProof::of(held);
            give_text(buffer, out, encode_nothing(), &text)
        }
        None => {
            *out = encode_nothing();
            put_text(buffer, b"")
        }
    }
}

/// The canonical text of the same trace with only the steps that the proof needs, with a zero after
/// it, if the steps prove that the formula is true, or that it is false, as `sat` says.
///
/// In C: `size_t qrp_proof_write_trimmed(struct qrp_proof *proof, bool sat, bool any_pivot, char
/// *buffer, size_t room, struct qrp_verdict *out)`.
///
/// Returns its length without the zero, and writes as `qrp_verdict_line` does. Writes to `out` what
/// `qrp_proof_check` does; if that is not a result, the text is empty.
#[unsafe(no_mangle)]
pub extern "C" fn qrp_proof_write_trimmed(
    alloc: Global,
    proof: &mut QrpProof,
    sat: bool,
    any_pivot: bool,
    buffer: &mut [u8],
    out: &mut QrpVerdict,
) -> usize
    ensures written { IfSome proof.old.held.value (λ p. IsTrimmedOf (record { any_pivot = any_pivot })
        p.formula p.trace.steps sat buffer.old buffer.new out.new result) }
    ensures nothing { IfNone proof.old.held.value
        ((out.new ≡ encoded_nothing) × IsWritten [] buffer.old buffer.new result) }
    ensures kept { proof.new.held.value ≡ proof.old.held.value }
    ensures rest { drop (1 + result) buffer.new ≡ drop (1 + result) buffer.old }
{
    match proof.take(alloc) {
        Some(held) => {
            let text = trimmed_text(alloc, &held, sat, Rules { any_pivot });
            *proof = QrpProof::of(held);
            give_text(buffer, out, encode_truth(sat), &text)
        }
        None => {
            *out = encode_nothing();
            put_text(buffer, b"")
        }
    }
}

/// Puts a text that was made into the buffer, with this struct; or no text, with that of the fault.
///
/// Returns the length of the text.
fn give_text(
    buffer: &mut [u8],
    out: &mut QrpVerdict,
    done: QrpVerdict,
    text: &Result<VecSink, CheckFault>,
) -> usize
    ensures made { IfOk text.now (λ s. (out.new ≡ done)
        × IsWritten s.bytes buffer.old buffer.new result) }
    ensures refused { IfErr text.now (λ e. (out.new ≡ encoded_fault (Check e))
        × IsWritten [] buffer.old buffer.new result) }
    ensures rest { drop (1 + result) buffer.new ≡ drop (1 + result) buffer.old }
{
    match text {
        Ok(sink) => {
            *out = done;
            put_text(buffer, sink.bytes())
        }
        Err(fault) => {
            *out = encode_fault(&Fault::Check(*fault));
            put_text(buffer, b"")
        }
    }
}

/// The text of the formula.
///
/// # Errors
/// `C5` if an allocation fails.
fn formula_text(alloc: Global, proof: &Proof) -> Result<VecSink, CheckFault>
    ensures text { IfOk result (λ s.
        s.bytes ≡ formulas.text (formula_written proof.now.formula)) }
    ensures memory { IfErr result (λ e. e ≡ C5) }
{
    let Ok(mut sink) = VecSink::new(alloc, 0) else {
        return Err(CheckFault::C5);
    };
    match proof.write_formula(&mut sink) {
        Ok(()) => Ok(sink),
        Err(_) => Err(CheckFault::C5),
    }
}

/// The text of the trace.
///
/// # Errors
/// `C5` if an allocation fails.
fn trace_text(alloc: Global, proof: &Proof, sat: bool) -> Result<VecSink, CheckFault>
    ensures text { IfOk result (λ s. s.bytes
        ≡ traces.text (trace_written proof.now.formula proof.now.trace.steps (outcome_of sat))) }
    ensures memory { IfErr result (λ e. e ≡ C5) }
{
    let Ok(mut sink) = VecSink::new(alloc, 0) else {
        return Err(CheckFault::C5);
    };
    match proof.write_trace(outcome_of(sat), &mut sink) {
        Ok(()) => Ok(sink),
        Err(_) => Err(CheckFault::C5),
    }
}

/// The text of the trace with the steps of its core.
///
/// # Errors
/// As of the check, or `C5` if an allocation fails.
fn trimmed_text(
    alloc: Global,
    proof: &Proof,
    sat: bool,
    rules: Rules,
) -> Result<VecSink, CheckFault>
    ensures text { IfOk result (λ s. (core : List ℕ) × HasCore rules proof.now.formula
        proof.now.trace.steps (outcome_of sat) core
        × (s.bytes ≡ traces.text (trimmed_trace
        (trace_written proof.now.formula proof.now.trace.steps (outcome_of sat)) core))) }
    ensures truth { OnOk result (IsTrue sat ↔ IsTrueFormula proof.now.formula) }
    ensures refused { IfErr result (λ e. e ≢ C5
        → IsFirstFault rules proof.now.formula [] proof.now.trace.steps (outcome_of sat) e) }
{
    let core = proof.core(alloc, outcome_of(sat), rules)?;
    match text_at(alloc, proof, sat, &core) {
        Ok(sink) => Ok(sink),
        Err(_) => Err(CheckFault::C5),
    }
}

/// The text of the trace with the steps at these positions.
///
/// # Errors
/// If an allocation fails.
fn text_at(
    alloc: Global,
    proof: &Proof,
    sat: bool,
    positions: &[usize],
) -> Result<VecSink, AllocError>
    requires { AllByRecursion (λ i. i < length proof.now.trace.steps) positions.now }
    ensures { IfOk result (λ s. s.bytes ≡ traces.text (trimmed_trace
        (trace_written proof.now.formula proof.now.trace.steps (outcome_of sat)) positions.now)) }
{
    let mut sink = VecSink::new(alloc, 0)?;
    match proof.write_steps_at(outcome_of(sat), positions, &mut sink) {
        Ok(()) => Ok(sink),
        Err(_) => Err(AllocError),
    }
}
