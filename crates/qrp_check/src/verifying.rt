//! The check of a trace against a formula, both from their bytes.

ghost use Rattle.std.specs.Prelude.{◌≡◌, ◌-◌, ◌^◌, ◌<◌, ◌↔◌, OnOk, IfErr, IfOk, IfSome};
ghost use Rattle.qbf_text.specs.Stopping.{IfKnown};
ghost use Rattle.core_walk.specs.Core.{ListsCore};
ghost use Rattle.qrp_check.specs.Checked.{IsChecked, IsCheckedOf, IsOfSource, IsTruthOf};
ghost use Rattle.qrp_check.specs.Checked.{StopsOnceRead, call_of, verdict_of};
ghost use Rattle.qrp_check.specs.Headline.{Headline};
ghost use Rattle.trace_check.specs.Proof.{Proves, is_sat};
ghost use Rattle.qrp_check.specs.Verdict.{IsVerdictUnless, IsFormulaDevice, IsTraceDevice};
ghost use Rattle.qrp_check.specs.Verdict.{IsFormulaFault, StandsOnLine, WasRead, StopsAfterTrace};

use crate::verdict::Fault;
use core_walk::Context;
use qbf_core::Formula;
use qbf_text::Source;
use qdimacs::read_formula;
use qrp::read_compact;
use qrp_rules::Rules;
use std::alloc::Global;
use trace_check::{Verified, check_kept, check_marked, is_sat};
use trace_items::CompactTrace;

/// The trace that was read, and the result of its check on a formula that was read.
///
/// # Errors
/// As of `verify`.
pub fn find_proof_of<B: Source>(
    alloc: Global,
    formula: &Formula,
    trace: &mut B,
    rules: Rules,
) -> Result<(CompactTrace, Verified), Fault>
    ensures checked { IsCheckedOf rules formula.now (call_of B.Source trace.old trace.new)
        (verdict_of result) }
    ensures source { IsOfSource (B.remaining trace.old) (B.remaining trace.new) result }
    ensures proves { IfOk result (λ p. Proves rules formula.now p.0.sets p.0.steps p.0.result) }
    ensures core { IfOk result (λ p. ListsCore p.0.steps p.1.core.items) }
    ensures claim { IfOk result (λ p. p.1.truth ≡ is_sat p.0.result) }
{
    let whole = read_compact(alloc, trace)?;
    let context = Context {
        alloc,
        formula,
        rules,
    };
    let verified = check_kept(context, &whole, whole.sets(), whole.result())?;
    Ok((whole, verified))
}

/// The trace that was read, and the result of its check on a formula: the truth of the formula, and
/// the steps that the goal needs. The formula is read before the trace.
///
/// # Errors
/// As of `verify`.
pub fn find_proof<A: Source, B: Source>(
    alloc: Global,
    formula: &mut A,
    trace: &mut B,
    rules: Rules,
) -> Result<(CompactTrace, Verified), Fault>
    ensures checked { IsChecked rules (call_of A.Source formula.old formula.new)
        (call_of B.Source trace.old trace.new) (verdict_of result) }
    ensures works { OnOk result ((A.failures formula.new ≡ A.failures formula.old)
        × (B.failures trace.new ≡ B.failures trace.old)) }
    ensures source { IsOfSource (B.remaining trace.old) (B.remaining trace.new) result }
{
    let read = read_formula(alloc, formula)?;
    find_proof_of(alloc, &read, trace, rules)
}

/// Whether a trace (QRP) proves its result of a formula (QDIMACS 1.1), both from their bytes.
///
/// For all formula and trace bytes, it returns Verified exactly where the bytes spell a closed
/// prenex formula and a trace whose sets agree with it and whose last empty step, with all steps
/// below that one, follows by the rules; and whenever it returns Verified, that formula is false if
/// the trace says `r unsat` and true if it says `r sat`.
///
/// # Errors
/// The formula's fault with its line, and then the trace is not pulled; else the trace's fault with
/// its line; else the first fault of the check. In place of any of these `F9`, `P9` or `C5` if an
/// allocation failed, and `F1` or `P1` exactly if the source failed; `F1`, `F9`, `P1` and `P9`
/// stand on line 0.
pub fn verify<A: Source, B: Source>(
    alloc: Global,
    formula: &mut A,
    trace: &mut B,
    rules: Rules,
) -> Result<Verified, Fault>
    // The sentence above, if both sources tell their bytes.
    ensures headline { IfSome (A.remaining formula.old)
        (λ a. IfSome (B.remaining trace.old) (λ b. Headline rules a b result)) }
    ensures verdict { IsVerdictUnless rules (A.remaining formula.old)
        (B.remaining trace.old) result }
    ensures formula_failed { A.failures formula.old < 2 ^ 64 - 1 →
        (IsFormulaDevice result ↔ (A.failures formula.old < A.failures formula.new)) }
    ensures trace_failed { B.failures trace.old < 2 ^ 64 - 1 →
        (IsTraceDevice result ↔ (B.failures trace.old < B.failures trace.new)) }
    ensures lines { IfErr result StandsOnLine }
    // If the trace was read, nothing is read past the separator after its result word but at most
    // 4,096 bytes.
    ensures stops { WasRead result
        → IfKnown StopsAfterTrace (B.remaining trace.old) (B.remaining trace.new) }
    ensures not_pulled { IsFormulaFault result → trace.new ≡ trace.old }
{
    let (_, verified) = find_proof(alloc, formula, trace, rules)?;
    Ok(verified)
}

/// The truth that the trace at a source shows of a formula that was read.
///
/// # Errors
/// As of `verify`, but for the formula's.
pub fn find_truth_of<B: Source>(
    alloc: Global,
    formula: &Formula,
    trace: &mut B,
    rules: Rules,
) -> Result<bool, Fault>
    ensures { IsTruthOf (λ v.
        IsCheckedOf rules formula.now (call_of B.Source trace.old trace.new) v
        × StopsOnceRead (B.remaining trace.old) (B.remaining trace.new) v) result }
{
    let whole = read_compact(alloc, trace)?;
    let context = Context {
        alloc,
        formula,
        rules,
    };
    check_marked(context, &whole, whole.sets(), whole.result())?;
    Ok(is_sat(whole.result()))
}

/// The truth that `verify` returns, without the list of the steps that show it.
///
/// The result is the truth of a verdict of which each clause of `verify` holds.
///
/// # Errors
/// As of `verify`.
pub fn find_truth<A: Source, B: Source>(
    alloc: Global,
    formula: &mut A,
    trace: &mut B,
    rules: Rules,
) -> Result<bool, Fault>
    ensures headline { IsTruthOf (λ v. IfSome (A.remaining formula.old)
        (λ a. IfSome (B.remaining trace.old) (λ b. Headline rules a b v))) result }
    // If the trace was read, nothing is read past the separator after its result word but at most
    // 4,096 bytes.
    ensures checked { IsTruthOf (λ v. IsChecked rules (call_of A.Source formula.old formula.new)
        (call_of B.Source trace.old trace.new) v
        × StopsOnceRead (B.remaining trace.old) (B.remaining trace.new) v) result }
{
    let whole = read_formula(alloc, formula)?;
    find_truth_of(alloc, &whole, trace, rules)
}
