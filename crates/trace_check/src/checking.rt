//! The check of a trace: its sets, its goal, and each step that the goal needs.

ghost use Rattle.std.specs.Prelude.{◌≡◌, ◌≢◌, ◌↔◌, ℕ, ◌<◌, length, IsTrue, OnOk, IfOk, IfErr};
ghost use Rattle.std.specs.List.{AllByRecursion};
ghost use Rattle.std.specs.List.Sorted.{IsStrictlyIncreasing};
ghost use Rattle.qbf_core.specs.Truth.{IsTrueFormula};
ghost use Rattle.core_walk.specs.Core.{IsGoal, ListsCore};
ghost use Rattle.core_walk.specs.Marks.{MarksCore};
ghost use Rattle.trace_check.specs.declared.fault.CheckFault.TheVariants.{C5};
ghost use Rattle.trace_check.specs.Proof.{Derives, Proves, IsFirstFault, is_sat};
ghost use Rattle.trace_check.specs.Refused.{IsCoreRefusal};

use crate::agree::sets_fault;
use crate::fault::CheckFault;
use crate::marks::{find_goal, marked_positions};
use crate::verified::Verified;
use core_walk::{Context, CoreFault, walk_core};
use qrp_rules::{Clauses, Cubes, Side};
use trace_items::{KeptSets, KeptSteps, LentSets, LentSteps, Outcome, QuantSet, Steps};

/// Whether a trace claims that its formula is true.
pub fn is_sat(outcome: Outcome) -> bool
    ensures { result ≡ is_sat outcome }
{
    outcome == Outcome::Sat
}

/// The marks of the core, if each of its steps follows from those before it.
fn check_core<S: Side, T: KeptSteps>(
    context: Context,
    trace: &T,
    goal: usize,
) -> Result<Vec<bool>, CheckFault>
    requires { IsGoal (T.steps trace.now) goal }
    ensures derives { OnOk result
        (Derives context.entry.rules S.side context.entry.formula.now (T.steps trace.now)) }
    ensures core { IfOk result (λ marks. MarksCore (T.steps trace.now) marks.items) }
    ensures refused { IfErr result
        (IsCoreRefusal context.entry.rules S.side context.entry.formula.now (T.steps trace.now)) }
{
    match walk_core::<S, T>(context, trace, goal) {
        Ok(marks) => Ok(marks),
        Err(CoreFault::OutOfMemory) => Err(CheckFault::C5),
        Err(CoreFault::Step(number, fault)) => Err(CheckFault::C6(number, fault)),
    }
}

/// The marks of the core, if sets, steps and outcome of a trace prove the outcome of the formula.
///
/// # Errors
/// As of `check`.
pub fn check_marked<T: KeptSteps, Q: KeptSets>(
    context: Context,
    trace: &T,
    sets: &Q,
    outcome: Outcome,
) -> Result<Vec<bool>, CheckFault>
    ensures proves { OnOk result (Proves context.entry.rules context.entry.formula.now (Q.sets sets.now)
        (T.steps trace.now) outcome) }
    ensures core { IfOk result (λ marks. MarksCore (T.steps trace.now) marks.items) }
    ensures truth { OnOk result
        (IsTrue (is_sat outcome) ↔ IsTrueFormula context.entry.formula.now) }
    ensures refused { IfErr result (λ e. e ≢ C5 → IsFirstFault context.entry.rules
        context.entry.formula.now (Q.sets sets.now) (T.steps trace.now) outcome e) }
{
    if let Some(fault) = sets_fault(context.formula.prefix(), sets) {
        return Err(fault);
    }
    let Some(goal) = find_goal(trace) else {
        return Err(CheckFault::C4);
    };
    match outcome {
        Outcome::Unsat => check_core::<Clauses, T>(context, trace, goal),
        Outcome::Sat => check_core::<Cubes, T>(context, trace, goal),
    }
}

/// Whether sets, steps and outcome of a trace prove the outcome of the formula, as `check` says.
///
/// # Errors
/// As of `check`.
pub fn check_kept<T: KeptSteps, Q: KeptSets>(
    context: Context,
    trace: &T,
    sets: &Q,
    outcome: Outcome,
) -> Result<Verified, CheckFault>
    ensures proves { OnOk result (Proves context.entry.rules context.entry.formula.now (Q.sets sets.now) (T.steps trace.now) outcome) }
    ensures core { IfOk result (λ v. ListsCore (T.steps trace.now) v.core.items) }
    ensures rises { IfOk result (λ v. IsStrictlyIncreasing v.core.items) }
    ensures within { IfOk result
        (λ v. AllByRecursion (λ i. i < length (T.steps trace.now)) v.core.items) }
    ensures claim { IfOk result (λ v. v.truth ≡ is_sat outcome) }
    ensures truth { IfOk result (λ v. IsTrue v.truth ↔ IsTrueFormula context.entry.formula.now) }
    ensures refused { IfErr result
        (λ e. e ≢ C5 → IsFirstFault context.entry.rules context.entry.formula.now (Q.sets sets.now) (T.steps trace.now) outcome e) }
{
    let marks = check_marked(context, trace, sets, outcome)?;
    match marked_positions(context.alloc, &marks) {
        Ok(core) => Ok(Verified {
            truth: is_sat(outcome),
            core,
        }),
        Err(_) => Err(CheckFault::C5),
    }
}

/// Whether sets, steps and outcome of a trace prove the outcome of the formula.
///
/// They do if the sets agree with the prefix, there is a step without literals, and each step that
/// the last such step needs follows from those before it by the rules: by Q-resolution for `Unsat`
/// (Kleine Büning, Karpinski, Flögel 1995), by term resolution for `Sat` (Giunchiglia, Narizzano,
/// Tacchella 2006), or with pivots of either quantifier (Van Gelder 2012). Then the formula has
/// that truth.
///
/// # Errors
/// The first of these: `C1`, `C2` or `C3` of the first set variable in file order that does not
/// agree; `C4` if no step is without literals; `C6` with the first step of the core in file order
/// that does not follow, and its first fault. The later ones are looked at only if the earlier ones
/// do not hold. `C5`, in place of any of these, if an allocation failed.
pub fn check<T: Steps>(
    context: Context,
    trace: &T,
    sets: &[QuantSet],
    outcome: Outcome,
) -> Result<Verified, CheckFault>
    ensures proves { OnOk result (Proves context.entry.rules context.entry.formula.now sets.now
        (T.steps trace.now) outcome) }
    ensures core { IfOk result (λ v. ListsCore (T.steps trace.now) v.core.items) }
    ensures rises { IfOk result (λ v. IsStrictlyIncreasing v.core.items) }
    ensures within { IfOk result
        (λ v. AllByRecursion (λ i. i < length (T.steps trace.now)) v.core.items) }
    ensures claim { IfOk result (λ v. v.truth ≡ is_sat outcome) }
    ensures truth { IfOk result (λ v. IsTrue v.truth ↔ IsTrueFormula context.entry.formula.now) }
    ensures refused { IfErr result
        (λ e. e ≢ C5 → IsFirstFault context.entry.rules context.entry.formula.now sets.now
        (T.steps trace.now) outcome e) }
{
    let kept = LentSteps(trace);
    check_kept(context, &kept, &LentSets(sets), outcome)
}
