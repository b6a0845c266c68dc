//! The winner's strategy as the text of a circuit, from the bytes that a caller lends.

ghost use Rattle.std.specs.Prelude.{◌≡◌, [], Some, IfOk, IfErr, Ok, Err, Result};
ghost use Rattle.aiger.specs.Formats.{circuit_text};
ghost use Rattle.qrp_check.specs.Checked.{IsChecked};
ghost use Rattle.trace_check.specs.declared.verified.Verified.{Verified};
ghost use Rattle.qrp_winner.specs.Strategies.{Follows, HasReason, IsOfWinner};
ghost use Rattle.qrp_winner.specs.declared.fault.StrategyFault.{StrategyFault};
ghost use Rattle.qrp_winner.specs.declared.strategy.Strategy.{Strategy};
ghost use Rattle.qrp_bytes.specs.Texts.{lent_bytes};
ghost use Rattle.qrp_bytes.specs.Strategies.{IsFound, strategy_text};

use crate::proving::lent_truth;
use crate::wanted::Wanted;
use aiger::{Circuit, write_circuit};
use qbf_text::{SliceSource, VecSink};
use qrp_check::{CheckFault, Fault, Rules};
use qrp_winner::{Strategy, StrategyFault, find_strategy};
use std::alloc::{AllocError, Global};

/// The strategy of the winner of the formula in these bytes, by the trace in those.
///
/// # Errors
/// As those of `find_strategy`.
fn lent_strategy(
    alloc: Global,
    formula: &[u8],
    trace: &[u8],
    rules: Rules,
) -> Result<Strategy, StrategyFault>
    ensures wins { IfOk result (IsOfWinner formula.now trace.now) }
    ensures follows { (verdict : Result Verified Fault)
        × IsChecked rules (lent_bytes formula.now) (lent_bytes trace.now) verdict
        × Follows verdict result }
    ensures reason { HasReason (Some formula.now) (Some trace.now) result }
{
    let mut formula_source = SliceSource::new(formula);
    let mut trace_source = SliceSource::new(trace);
    find_strategy(alloc, &mut formula_source, &mut trace_source, rules)
}

/// The text of a circuit in AIGER's binary or ASCII format.
///
/// # Errors
/// If an allocation fails.
fn text_of(alloc: Global, circuit: &Circuit, binary: bool) -> Result<VecSink, AllocError>
    ensures { IfOk result (λ s. s.bytes ≡ circuit_text binary circuit.now) }
{
    let mut sink = VecSink::new(alloc, 0)?;
    match write_circuit(circuit, binary, &mut sink) {
        Ok(()) => Ok(sink),
        Err(_) => Err(AllocError),
    }
}

/// The truth that the proof in these bytes shows, with an empty text.
///
/// # Errors
/// The first fault, or C5 if an allocation fails.
fn truth_alone(
    alloc: Global,
    formula: &[u8],
    trace: &[u8],
    rules: Rules,
) -> Result<(bool, VecSink), Fault>
    ensures ok { IfOk result (λ r. (v : Verified)
        × IsChecked rules (lent_bytes formula.now) (lent_bytes trace.now) (Ok v)
        × (r.0 ≡ v.truth) × (r.1.bytes ≡ [])) }
    ensures err { IfErr result (λ e. IsChecked rules (lent_bytes formula.now) (lent_bytes trace.now) (Err e)) }
{
    let truth = lent_truth(alloc, formula, trace, rules)?;
    match VecSink::new(alloc, 0) {
        Ok(none) => Ok((truth, none)),
        Err(_) => Err(Fault::Check(CheckFault::C5)),
    }
}

/// The truth that the proof in these bytes shows, with the text of a circuit by which the winner
/// wins, in AIGER's binary or ASCII format. If no circuit is made, the text is empty, and the trace
/// is checked once more for the truth.
///
/// # Errors
/// The first fault, or C5 if an allocation fails.
pub fn strategy_bytes(
    alloc: Global,
    formula: &[u8],
    trace: &[u8],
    wanted: Wanted,
) -> Result<(bool, VecSink), Fault>
    ensures ok { IfOk result (λ r. (v : Verified) × (found : Result Strategy StrategyFault)
        × IsFound wanted.rules formula.now trace.now (Ok v) found × (r.0 ≡ v.truth)
        × (r.1.bytes ≡ strategy_text wanted.binary found)) }
    ensures err { IfErr result (λ e. IsChecked wanted.rules (lent_bytes formula.now) (lent_bytes trace.now) (Err e)) }
{
    let Wanted { rules, binary } = wanted;
    match lent_strategy(alloc, formula, trace, rules) {
        Ok(strategy) => match text_of(alloc, &strategy.circuit, binary) {
            Ok(text) => Ok((strategy.truth, text)),
            Err(_) => Err(Fault::Check(CheckFault::C5)),
        },
        Err(StrategyFault::Check(fault)) => Err(fault),
        Err(StrategyFault::NoMemory) => Err(Fault::Check(CheckFault::C5)),
        Err(StrategyFault::NoCircuit) => truth_alone(alloc, formula, trace, rules),
    }
}
