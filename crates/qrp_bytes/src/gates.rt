//! A formula of gates, from the bytes that a caller lends: the check of a trace of it, its clauses,
//! and the winner's circuit.

ghost use Rattle.std.specs.Prelude.{◌≡◌, ◌≢◌, [], Bool, Ok, Err, Result, IfOk, IfErr};
ghost use Rattle.circuit_names.specs.Symbols.{named_text};
ghost use Rattle.qbf_core.specs.Qbf.{Qbf};
ghost use Rattle.qcir.specs.Reading.{Question, read_gates};
ghost use Rattle.qdimacs.specs.Grammar.{text};
ghost use Rattle.qrp_winner.specs.declared.strategy.Strategy.{Strategy};
ghost use Rattle.gate_strategy.specs.declared.fault.GateStrategyFault.{GateStrategyFault};
ghost use Rattle.gate_strategy.specs.declared.fault.GateStrategyFault.TheVariants.{NoMemory};
ghost use Rattle.gate_verify.specs.Checked.{IsChecked};
ghost use Rattle.gate_verify.specs.Headline.{Headline};
ghost use Rattle.gate_verify.specs.Made.{AreMadeOf};
ghost use Rattle.gate_verify.specs.declared.fault.Unverified.{Unverified};
ghost use Rattle.qrp_bytes.specs.Gates.{GatesHeadline, GatesReturn, IsGatesFound, gates_circuit};
ghost use Rattle.qrp_bytes.specs.Texts.{lent_bytes};

use crate::formatting::formula_text;
use crate::gate_verdict::encode_checked;
use crate::verdict::QrpVerdict;
use crate::wanted::Wanted;
use aiger::Circuit;
use circuit_names::write_named_circuit;
use gate_strategy::{GateStrategyFault, find_gate_strategy};
use gate_verify::{Unverified, clauses_of_text, verify_question};
use qbf_text::{SliceSource, VecSink};
use qcir::{Question, QuestionFault};
use qrp_check::{CheckFault, Fault, Rules};
use qrp_winner::Strategy;
use std::alloc::{AllocError, Global};

/// The truth of the formula of gates in these bytes that the trace in those shows.
///
/// # Errors
/// As of `verify_question`.
fn gates_truth(
    alloc: Global,
    formula: &[u8],
    trace: &[u8],
    rules: Rules,
) -> Result<bool, Unverified>
    ensures headline { Headline rules formula.now trace.now result }
    ensures checked { IsChecked rules (lent_bytes formula.now) (lent_bytes trace.now) result }
{
    let mut formula_source = SliceSource::new(formula);
    let mut trace_source = SliceSource::new(trace);
    verify_question(alloc, &mut formula_source, &mut trace_source, rules)
}

/// Whether the trace in these bytes proves its result of the clauses of the formula of gates in
/// those, as `verify_question` returns it.
pub fn gates_verify_bytes(alloc: Global, formula: &[u8], trace: &[u8], rules: Rules) -> QrpVerdict
    ensures headline { GatesHeadline rules formula.now trace.now result }
    ensures verdict { GatesReturn rules formula.now trace.now result }
{
    let outcome = gates_truth(alloc, formula, trace, rules);
    encode_checked(&outcome)
}

/// The canonical text of the clauses of the formula of gates in these bytes.
///
/// # Errors
/// As of `clauses_of_text`.
pub fn gates_clauses_bytes(alloc: Global, formula: &[u8]) -> Result<VecSink, Unverified>
    ensures ok { IfOk result (λ s. (f : Qbf) × AreMadeOf (read_gates formula.now) (Ok f)
        × (s.bytes ≡ text f)) }
    ensures err { IfErr result (λ e. AreMadeOf (read_gates formula.now) (Err e)) }
{
    let clauses = clauses_of_text(alloc, formula)?;
    match formula_text(alloc, &clauses) {
        Ok(text) => Ok(text),
        Err(_) => Err(Unverified::Question(QuestionFault::Q11, 0)),
    }
}

/// The formula of gates in these bytes, and the strategy of its winner by the trace in those.
///
/// # Errors
/// As of `find_gate_strategy`.
fn gates_strategy<'a>(
    alloc: Global,
    formula: &'a [u8],
    trace: &[u8],
    rules: Rules,
) -> Result<(Question<'a>, Strategy), GateStrategyFault>
    ensures { (verdict : Result Bool Unverified)
        × IsGatesFound rules formula.now trace.now verdict result }
{
    let mut trace_source = SliceSource::new(trace);
    find_gate_strategy(alloc, formula, &mut trace_source, rules)
}

/// The text of a circuit in AIGER's binary or ASCII format, with the names that a formula of gates
/// gives to its variables.
///
/// # Errors
/// If an allocation fails.
fn named_text_of(
    alloc: Global,
    question: &Question,
    circuit: &Circuit,
    binary: bool,
) -> Result<VecSink, AllocError>
    ensures { IfOk result (λ s. s.bytes ≡ named_text binary question.now.names circuit.now) }
{
    let mut sink = VecSink::new(alloc, 0)?;
    match write_named_circuit(circuit, question, binary, &mut sink) {
        Ok(()) => Ok(sink),
        Err(_) => Err(AllocError),
    }
}

/// The truth of the formula of gates in these bytes that the trace in those shows, with an empty
/// text.
///
/// # Errors
/// As of `verify_question`.
fn gates_truth_alone(
    alloc: Global,
    formula: &[u8],
    trace: &[u8],
    rules: Rules,
) -> Result<(bool, VecSink), Unverified>
    ensures ok { IfOk result (λ r.
        IsChecked rules (lent_bytes formula.now) (lent_bytes trace.now) (Ok r.0)
        × (r.1.bytes ≡ [])) }
    ensures err { IfErr result (λ e.
        IsChecked rules (lent_bytes formula.now) (lent_bytes trace.now) (Err e)) }
{
    let truth = gates_truth(alloc, formula, trace, rules)?;
    match VecSink::new(alloc, 0) {
        Ok(none) => Ok((truth, none)),
        Err(_) => Err(Unverified::Proof(Fault::Check(CheckFault::C5))),
    }
}

/// The truth of the formula of gates that the trace shows, with the text of a circuit by which the
/// winner wins, in AIGER's binary or ASCII format, with the names of the formula. If no circuit is
/// made, the text is empty, and the trace is checked once more for the truth.
///
/// # Errors
/// The fault of `verify_question`, or C5 if an allocation fails.
#[tactic(auto, using(crate::proofs::GatesReturned::memory_checked))]
pub fn gates_strategy_bytes(
    alloc: Global,
    formula: &[u8],
    trace: &[u8],
    wanted: Wanted,
) -> Result<(bool, VecSink), Unverified>
    ensures ok { IfOk result (λ r. (found : Result (Question × Strategy) GateStrategyFault)
        × IsGatesFound wanted.rules formula.now trace.now (Ok r.0) found × (found ≢ Err NoMemory)
        × (r.1.bytes ≡ gates_circuit wanted.binary found)) }
    ensures err { IfErr result (λ e.
        IsChecked wanted.rules (lent_bytes formula.now) (lent_bytes trace.now) (Err e)) }
{
    let Wanted { rules, binary } = wanted;
    match gates_strategy(alloc, formula, trace, rules) {
        Ok((question, strategy)) => {
            match named_text_of(alloc, &question, &strategy.circuit, binary) {
                Ok(text) => Ok((strategy.truth, text)),
                Err(_) => Err(Unverified::Proof(Fault::Check(CheckFault::C5))),
            }
        }
        Err(GateStrategyFault::Check(fault)) => Err(fault),
        Err(GateStrategyFault::NoMemory) => Err(Unverified::Proof(Fault::Check(CheckFault::C5))),
        Err(GateStrategyFault::NoCircuit) => gates_truth_alone(alloc, formula, trace, rules),
    }
}
