//! Whether a step of the core follows from those before it.

ghost use Rattle.std.specs.Prelude.{[], ◌∷◌, IsTrue, IfSome, OnOk, IfOk};
ghost use Rattle.qbf_core.specs.Blocks.{AreBound};
ghost use Rattle.qbf_core.specs.Sets.{HasMembersOf, IsOrdered};
ghost use Rattle.written_steps.specs.Accepted.{IsFit};
ghost use Rattle.qrp_rules.specs.Conditions.{AllHold, IsFaultOf};
ghost use Rattle.qrp_rules.specs.Conditions.{reduct_conditions, resolvent_conditions};
ghost use Rattle.written_steps.specs.Initial.{AreKnown};
ghost use Rattle.qrp_rules.specs.Normal.{normal_form};
ghost use Rattle.core_walk.specs.Premises.{AreFit, found_conditions, premise_conditions};
ghost use Rattle.core_walk.specs.Premises.{written_conditions};

use crate::premises::Premises;
use qbf_core::{Formula, Lit, LitSet, Prefix, SetFault};
use qrp_rules::{
    Resolution, RuleFault, Rules, Side, normal_form, normalize, ordered_reduct_fault,
    ordered_resolvent_fault,
};
use std::alloc::{AllocError, Global};
use written_steps::{
    InitialSteps, SeenLits, accepts_reduct, accepts_resolvent, ordered_initial_fault,
};

/// The formula and the rules against which each step of a trace is checked.
#[derive(Clone, Copy)]
pub struct Context<'a> {
    pub alloc: Global,
    pub formula: &'a Formula,
    pub rules: Rules,
}

/// The state that the tests of steps keep from one to the next.
#[derive(Drop)]
pub(crate) struct CheckState {
    pub(crate) seen: SeenLits,
    pub(crate) initial: InitialSteps,
}

/// Whether steps with antecedents are first judged as they are written. They need not be: sets say
/// the same.
#[inline(always)]
fn judges_as_written() -> bool {
    true
}

/// Whether a step is first judged as it is written: an initial one always, since its set would be
/// compared with each clause.
#[inline(always)]
fn tries_as_written(premises: Premises) -> bool {
    match premises {
        Premises::Initial => true,
        _ => judges_as_written(),
    }
}

/// Accepts literals of a step that are, as they are written, a clean and bound set that follows
/// from its antecedents. If an allocation fails, the check ends there; it misses no other such step,
/// which tests show.
#[inline(always)]
pub(crate) fn accepts_as_written<S: Side>(
    context: Context,
    premises: Premises,
    state: &mut CheckState,
    lits: &[Lit],
) -> Result<bool, AllocError>
    requires known { AreKnown context.formula.now state.old.initial }
    requires fit { AreFit context.formula.now.blocks premises }
    ensures follows { IfOk result (λ t. IsTrue t → AllHold (written_conditions context.entry.rules
        S.side context.entry.formula.now premises.entry lits.now)) }
    ensures known { OnOk result (AreKnown context.entry.formula.now state.new.initial) }
{
    if !tries_as_written(premises) {
        return Ok(false);
    }
    let prefix = context.formula.prefix();
    let seen = &mut state.seen;
    match premises {
        Premises::Initial => state
            .initial
            .accepts_initial::<S>(context.formula, seen, lits),
        Premises::One(from) => accepts_reduct::<S>(seen, prefix, from, lits),
        Premises::Two(a, b) => {
            accepts_resolvent::<S>(seen, prefix, Resolution { a, b, to: lits }, context.rules)
        }
    }
}

/// The set of literals that are clean and bound, or `None` if they are in order.
fn own_set(alloc: Global, prefix: &Prefix, lits: &[Lit]) -> Result<Option<LitSet>, AllocError>
    requires { IsFit prefix.now lits.now }
    ensures ordered { IfOk result (λ set. IsOrdered (normal_form set lits.now)) }
    ensures members { IfOk result (λ set. HasMembersOf (normal_form set lits.now) lits.now) }
{
    match normalize(alloc, prefix, lits) {
        Ok(set) => Ok(set),
        Err(SetFault::E1) => unreachable!(),
        Err(SetFault::E2) => unreachable!(),
        Err(SetFault::E3) => Err(AllocError),
    }
}

/// Why a set is not a reduct of an antecedent, of which a set is made for this.
fn fault_of_reduct<S: Side>(
    context: Context,
    from: &[Lit],
    set: &[Lit],
) -> Result<Option<RuleFault>, AllocError>
    requires fit { IsFit context.formula.now.blocks from.now }
    requires ordered { IsOrdered set.now }
    ensures { IfOk result (IsFaultOf (reduct_conditions S.side
        context.entry.formula.now.blocks from.now set.now)) }
{
    let prefix = context.formula.prefix();
    let own = own_set(context.alloc, prefix, from)?;
    Ok(ordered_reduct_fault::<S>(prefix, normal_form(&own, from), set))
}

/// Why a set does not follow from two antecedents, of which sets are made for this.
fn fault_of_resolvent<S: Side>(
    context: Context,
    a: &[Lit],
    b: &[Lit],
    set: &[Lit],
) -> Result<Option<RuleFault>, AllocError>
    requires a { IsFit context.formula.now.blocks a.now }
    requires b { IsFit context.formula.now.blocks b.now }
    requires ordered { IsOrdered set.now }
    ensures { IfOk result (IsFaultOf (resolvent_conditions context.entry.rules S.side
        context.entry.formula.now.blocks a.now b.now set.now)) }
{
    let prefix = context.formula.prefix();
    let own_a = own_set(context.alloc, prefix, a)?;
    let own_b = own_set(context.alloc, prefix, b)?;
    let step = Resolution {
        a: normal_form(&own_a, a),
        b: normal_form(&own_b, b),
        to: set,
    };
    Ok(ordered_resolvent_fault::<S>(prefix, step, context.rules))
}

/// Why a set does not follow from its antecedents, of which sets are made for this.
fn premises_fault<S: Side>(
    context: Context,
    premises: Premises,
    set: &[Lit],
) -> Result<Option<RuleFault>, AllocError>
    requires fit { AreFit context.formula.now.blocks premises }
    requires ordered { IsOrdered set.now }
    ensures { IfOk result (IsFaultOf (premise_conditions context.entry.rules S.side
        context.entry.formula.now premises.entry set.now)) }
{
    match premises {
        Premises::Initial => ordered_initial_fault::<S>(context.alloc, context.formula, set),
        Premises::One(from) => fault_of_reduct::<S>(context, from, set),
        Premises::Two(a, b) => fault_of_resolvent::<S>(context, a, b, set),
    }
}

/// Why a step of the core does not follow, or `None` if it does, by sets that are made for this.
/// There are no premises if the number of an antecedent is not that of an earlier step.
///
/// # Errors
/// If an allocation fails.
#[cold]
fn fault_by_sets<S: Side>(
    context: Context,
    premises: Option<Premises>,
    lits: &[Lit],
) -> Result<Option<RuleFault>, AllocError>
    requires { IfSome premises (AreFit context.formula.now.blocks) }
    ensures { IfOk result (IsFaultOf (found_conditions context.entry.rules S.side
        context.entry.formula.now premises.entry lits.now)) }
{
    let sorted = match normalize(context.alloc, context.formula.prefix(), lits) {
        Ok(sorted) => sorted,
        Err(SetFault::E1) => return Ok(Some(RuleFault::S1)),
        Err(SetFault::E2) => return Ok(Some(RuleFault::S2)),
        Err(SetFault::E3) => return Err(AllocError),
    };
    match premises {
        Some(premises) => premises_fault::<S>(context, premises, normal_form(&sorted, lits)),
        None => Ok(Some(RuleFault::S3)),
    }
}

/// Why a step of the core does not follow, or `None` if it does: first as it is written, then by
/// sets.
///
/// # Errors
/// If an allocation fails.
#[inline(always)]
pub(crate) fn step_fault<S: Side>(
    context: Context,
    premises: Option<Premises>,
    state: &mut CheckState,
    lits: &[Lit],
) -> Result<Option<RuleFault>, AllocError>
    requires known { AreKnown context.formula.now state.old.initial }
    requires fit { IfSome premises (AreFit context.formula.now.blocks) }
    ensures fault { IfOk result (IsFaultOf (found_conditions context.entry.rules S.side
        context.entry.formula.now premises.entry lits.now)) }
    ensures known { OnOk result (AreKnown context.entry.formula.now state.new.initial) }
{
    if let Some(found) = premises {
        if accepts_as_written::<S>(context, found, state, lits)? {
            return Ok(None);
        }
    }
    fault_by_sets::<S>(context, premises, lits)
}
