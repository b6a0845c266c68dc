//! Steps that are much shorter than an antecedent: each is first compared with a part of that.

ghost use Rattle.std.specs.Prelude.{◌≡◌, ◌<◌, ℕ, List, length, take, IfOk, IfSome, IsTrue, OnOk};
ghost use Rattle.trace_items.specs.Inferences.{Inference};
ghost use Rattle.core_walk.specs.Premises.{AreFit, ArePremises, IsPremise, found_conditions};
ghost use Rattle.core_walk.specs.Uneven.{AreEnough, ArePartsOf, ArePremisesAt, IsToJudge};
ghost use Rattle.qrp_rules.specs.Conditions.{AllHold, IsFaultOf};
ghost use Rattle.trace_items.specs.Antecedents.{listed};
ghost use Rattle.written_steps.specs.Initial.{AreKnown};

use crate::premises::Premises;
use crate::step::{CheckState, Context, accepts_as_written, step_fault};
use qbf_core::Lit;
use qrp_rules::{RuleFault, Side};
use std::alloc::AllocError;
use trace_items::{Antecedents, KeptSteps};
use written_steps::{Parts, ShortResolvent, ShortStep};

/// A step of the core, with the literals of its antecedents.
#[derive(Clone, Copy)]
pub(crate) struct FoundStep<'a, 'l> {
    /// Its position in the trace.
    pub(crate) position: usize,
    /// None, if an antecedent is not an earlier step.
    pub(crate) premises: Option<Premises<'a>>,
    /// The literals, as they are written.
    pub(crate) lits: &'l [Lit],
}

/// The state that is kept from one step to the next.
#[derive(Drop)]
pub(crate) struct JudgeState {
    pub(crate) tests: CheckState,
    /// Parts of long antecedents, by the numbers of the steps.
    pub(crate) parts: Parts,
}

/// A list with fewer literals is not long.
const LONG: usize = 128;

/// A list is much longer than another one if it has more than so many times its literals.
const TIMES: usize = 8;

/// Whether a long antecedent of a step has much more literals than all else.
#[inline(always)]
fn is_uneven(premises: Option<Premises>, lits: &[Lit]) -> bool {
    match premises {
        Some(Premises::One(from)) => from.len() >= LONG && from.len() / TIMES > lits.len(),
        Some(Premises::Two(a, b)) => {
            let longer = a.len().max(b.len());
            longer >= LONG && longer / TIMES > a.len().min(b.len()).max(lits.len())
        }
        _ => false,
    }
}

/// The antecedents of a step with a part in the place of the longer one, if one is kept that
/// serves for this step.
fn shorter<'a, S: Side, T: KeptSteps>(
    context: Context,
    trace: &T,
    parts: &'a Parts,
    step: FoundStep<'a, '_>,
) -> Option<Premises<'a>>
    requires position { step.position < length (T.steps trace.now) }
    requires are { ArePremisesAt (T.steps trace.now) step.position step.premises }
    requires fit { IfSome step.premises (AreFit context.formula.now.blocks) }
    requires parts { ArePartsOf S.side context.formula.now.blocks (T.steps trace.now) parts.now }
    ensures { IfSome result (AreEnough context.entry.rules S.side context.entry.formula.now
        step.entry.premises step.entry.lits.now) }
{
    let prefix = context.formula.prefix();
    let to = step.lits;
    match (step.premises?, trace.antecedents(step.position)) {
        (Premises::One(_), Antecedents::One(only)) => {
            let part = parts.for_reduct::<S>(prefix, only, to)?;
            Some(Premises::One(part))
        }
        (Premises::Two(a, b), Antecedents::Two(first, second)) => {
            if a.len() > b.len() {
                let resolvent = ShortResolvent {
                    number: first,
                    other: b,
                    to,
                };
                let part = parts.for_resolvent::<S>(prefix, resolvent)?;
                Some(Premises::Two(part, b))
            } else {
                let resolvent = ShortResolvent {
                    number: second,
                    other: a,
                    to,
                };
                let part = parts.for_resolvent::<S>(prefix, resolvent)?;
                Some(Premises::Two(a, part))
            }
        }
        _ => None,
    }
}

/// Accepts a step that follows, as it is written, from its shorter antecedent and a part of the
/// longer one.
fn accepts_by_part<S: Side, T: KeptSteps>(
    context: Context,
    trace: &T,
    state: &mut JudgeState,
    step: FoundStep,
) -> Result<bool, AllocError>
    requires { IsToJudge S.side context.formula.now (T.steps trace.now) state.old step }
    ensures follows { IfOk result (λ t. IsTrue t → AllHold (found_conditions context.entry.rules
        S.side context.entry.formula.now step.entry.premises step.entry.lits.now)) }
    ensures known { OnOk result (AreKnown context.entry.formula.now state.new.tests.initial) }
    ensures parts { OnOk result (state.new.parts ≡ state.old.parts) }
{
    let Some(short) = shorter::<S, T>(context, trace, &state.parts, step) else {
        return Ok(false);
    };
    accepts_as_written::<S>(context, short, &mut state.tests, step.lits)
}

/// The longer antecedent of a step, with its number.
fn longer<'a>(premises: Option<Premises<'a>>, antecedents: Antecedents) -> Option<(u64, &'a [Lit])>
    ensures { IfSome result (λ found. (before : List Inference)
        → ArePremises before (listed antecedents) premises.entry
        → IsPremise before found.0 found.1.now) }
{
    match (premises?, antecedents) {
        (Premises::One(from), Antecedents::One(only)) => Some((only, from)),
        (Premises::Two(a, b), Antecedents::Two(first, second)) => {
            if a.len() > b.len() {
                Some((first, a))
            } else {
                Some((second, b))
            }
        }
        _ => None,
    }
}

/// Keeps a part of the longer antecedent of a step that follows, if there was such a step of it
/// before.
fn keep_part<S: Side, T: KeptSteps>(
    context: Context,
    trace: &T,
    parts: &mut Parts,
    step: FoundStep,
) -> Result<(), AllocError>
    requires position { step.position < length (T.steps trace.now) }
    requires are { ArePremisesAt (T.steps trace.now) step.position step.premises }
    requires parts { ArePartsOf S.side context.formula.now.blocks (T.steps trace.now) parts.old }
    ensures { OnOk result (ArePartsOf S.side context.entry.formula.now.blocks (T.steps trace.now)
        parts.new) }
{
    let Some((number, from)) = longer(step.premises, trace.antecedents(step.position)) else {
        return Ok(());
    };
    let _distinct = trace.len();
    let to = step.lits;
    parts.keep::<S>(context.formula.prefix(), ShortStep { number, from, to })
}

/// As `judge`, of a step that is much shorter than an antecedent.
#[cold]
#[inline(never)]
fn judge_uneven<S: Side, T: KeptSteps>(
    context: Context,
    trace: &T,
    state: &mut JudgeState,
    step: FoundStep,
) -> Result<Option<RuleFault>, AllocError>
    requires { IsToJudge S.side context.formula.now (T.steps trace.now) state.old step }
    ensures fault { IfOk result (IsFaultOf (found_conditions context.entry.rules S.side
        context.entry.formula.now step.entry.premises step.entry.lits.now)) }
    ensures known { OnOk result (AreKnown context.entry.formula.now state.new.tests.initial) }
    ensures parts { OnOk result (ArePartsOf S.side context.entry.formula.now.blocks
        (T.steps trace.now) state.new.parts) }
{
    if accepts_by_part::<S, T>(context, trace, state, step)? {
        return Ok(None);
    }
    let fault = step_fault::<S>(context, step.premises, &mut state.tests, step.lits)?;
    if fault.is_none() {
        keep_part::<S, T>(context, trace, &mut state.parts, step)?;
    }
    Ok(fault)
}

/// Why a step of the core does not follow, or `None` if it does. One that is much shorter than an
/// antecedent is first compared with a part of that.
///
/// # Errors
/// If an allocation fails.
#[inline(always)]
pub(crate) fn judge<S: Side, T: KeptSteps>(
    context: Context,
    trace: &T,
    state: &mut JudgeState,
    step: FoundStep,
) -> Result<Option<RuleFault>, AllocError>
    requires { IsToJudge S.side context.formula.now (T.steps trace.now) state.old step }
    ensures fault { IfOk result (IsFaultOf (found_conditions context.entry.rules S.side
        context.entry.formula.now step.entry.premises step.entry.lits.now)) }
    ensures known { OnOk result (AreKnown context.entry.formula.now state.new.tests.initial) }
    ensures parts { OnOk result (ArePartsOf S.side context.entry.formula.now.blocks
        (T.steps trace.now) state.new.parts) }
{
    let FoundStep {
        position,
        premises,
        lits,
    } = step;
    if is_uneven(premises, lits) {
        let step = FoundStep {
            position,
            premises,
            lits,
        };
        return judge_uneven::<S, T>(context, trace, state, step);
    }
    step_fault::<S>(context, premises, &mut state.tests, lits)
}
