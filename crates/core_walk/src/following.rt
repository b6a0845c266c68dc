//! The walk over the core: whether each of its steps follows from those before it.

ghost use Rattle.std.specs.Prelude.{◌≡◌, ◌↔◌, ◌+◌, ℕ, length, IfErr, IfOk, OnOk};
ghost use Rattle.trace_items.specs.Inferences.{Inference, IsAt};
ghost use Rattle.core_walk.specs.Conditions.{StepFollows};
ghost use Rattle.core_walk.specs.Core.{IsInCore};
ghost use Rattle.core_walk.specs.Followed.{IsAnswerAt, IsCoreFault, IsFollowed};
ghost use Rattle.core_walk.specs.Uneven.{ArePartsOf};
ghost use Rattle.written_steps.specs.Initial.{AreKnown};
ghost use Rattle.core_walk.specs.Marks.{IsMarked};

use crate::distinct_lits::DistinctLits;
use crate::fault::CoreFault;
use crate::hints::Hints;
use crate::premises::{PremiseBuffers, find_premises};
use crate::step::{CheckState, Context};
use crate::step_at::StepAt;
use crate::uneven::{FoundStep, JudgeState, judge};
use qbf_core::{Lit, LitBuffer};
use qrp_rules::{RuleFault, Side};
use std::alloc::AllocError;
use trace_items::KeptSteps;
use written_steps::{InitialSteps, Parts, SeenLits};

/// The state that is kept from one step to the next.
#[derive(Drop)]
pub(crate) struct WalkState {
    hints: Hints,
    distinct: DistinctLits,
    judged: JudgeState,
    buffers: PremiseBuffers,
}

/// Why a step of the core, with its literals as they are written, does not follow from those before
/// it, or `None` if it does.
///
/// # Errors
/// If an allocation fails.
#[inline(always)]
fn judge_written<S: Side, T: KeptSteps>(
    context: Context,
    place: StepAt<'_, T>,
    lits: &[Lit],
    state: &mut WalkState,
) -> Result<Option<RuleFault>, AllocError>
    requires core { IsInCore (T.steps place.trace.now) place.position }
    requires lits { (step : Inference) → IsAt (T.steps place.trace.now) place.position step
        → lits.now ≡ step.lits }
    requires before { IsFollowed context.rules S.side context.formula.now (T.steps place.trace.now)
        place.position state.old }
    ensures fault { IfOk result (IsAnswerAt context.entry.rules S.side context.entry.formula.now
        (T.steps place.entry.trace.now) place.entry.position) }
    ensures known { OnOk result (AreKnown context.entry.formula.now
        state.new.judged.tests.initial) }
    ensures parts { OnOk result (ArePartsOf S.side context.entry.formula.now.blocks
        (T.steps place.entry.trace.now) state.new.judged.parts) }
    ensures kept { state.new.distinct ≡ state.old.distinct }
{
    let StepAt { trace, position } = place;
    match find_premises(place, &state.distinct, &mut state.hints, &mut state.buffers) {
        Ok(Some(found)) => {
            let step = FoundStep {
                position,
                premises: Some(found),
                lits,
            };
            judge::<S, T>(context, trace, &mut state.judged, step)
        }
        Ok(None) => {
            let step = FoundStep {
                position,
                premises: None,
                lits,
            };
            judge::<S, T>(context, trace, &mut state.judged, step)
        }
        Err(refused) => Err(refused),
    }
}

/// Follows a step of the core, with its literals as they are written, after those before it.
#[inline(always)]
fn follow_written<S: Side, T: KeptSteps>(
    context: Context,
    place: StepAt<'_, T>,
    lits: &[Lit],
    state: &mut WalkState,
) -> Result<(), CoreFault>
    requires core { IsInCore (T.steps place.trace.now) place.position }
    requires lits { (step : Inference) → IsAt (T.steps place.trace.now) place.position step
        → lits.now ≡ step.lits }
    requires before { IsFollowed context.rules S.side context.formula.now (T.steps place.trace.now)
        place.position state.old }
    ensures follows { OnOk result (IsFollowed context.entry.rules S.side context.entry.formula.now
        (T.steps place.entry.trace.now) (place.entry.position + 1) state.new) }
    ensures refused { IfErr result
        (IsCoreFault context.entry.rules S.side context.entry.formula.now
        (T.steps place.entry.trace.now)) }
{
    let StepAt { trace, position } = place;
    match judge_written::<S, T>(context, place, lits, state)? {
        None => Ok(
            state
                .distinct
                .keep(&mut state.judged.tests.seen, position, lits)?,
        ),
        Some(fault) => Err(CoreFault::Step(trace.number(position), fault)),
    }
}

/// A walk over the core.
#[derive(Drop)]
struct Walk {
    state: WalkState,
    /// Room for the literals of a step, if the trace cannot lend them.
    own: LitBuffer,
}

/// Follows the step of the core at a position, after those before it.
fn follow_step<S: Side, T: KeptSteps>(
    context: Context,
    trace: &T,
    position: usize,
    walk: &mut Walk,
) -> Result<(), CoreFault>
    requires core { IsInCore (T.steps trace.now) position }
    requires before { IsFollowed context.rules S.side context.formula.now (T.steps trace.now)
        position walk.old.state }
    ensures follows { OnOk result (IsFollowed context.entry.rules S.side context.entry.formula.now
        (T.steps trace.now) (position + 1) walk.new.state) }
    ensures refused { IfErr result
        (IsCoreFault context.entry.rules S.side context.entry.formula.now (T.steps trace.now)) }
{
    let lits = match trace.unpacked(position, &mut walk.own) {
        Ok(lits) => lits,
        Err(_) => return Err(CoreFault::OutOfMemory),
    };
    follow_written::<S, T>(context, StepAt { trace, position }, lits, &mut walk.state)
}

/// Goes over the marked steps, which are the core, while each follows from those before it.
///
/// # Errors
/// The first step that does not follow, or out of memory if an allocation failed.
#[tactic(auto, using(std::proofs::lemmas::Bool::cases_eq, crate::proofs::MarkedPlaces::is_unmarked, crate::proofs::Marking::core_within))]
pub(crate) fn follow_core<S: Side, T: KeptSteps>(
    context: Context,
    trace: &T,
    marks: &[bool],
    hints: Hints,
) -> Result<(), CoreFault>
    requires len { length marks.now ≡ length (T.steps trace.now) }
    requires core { (i : ℕ) → IsMarked marks.now i ↔ IsInCore (T.steps trace.now) i }
    ensures follows { OnOk result ((i : ℕ) → IsInCore (T.steps trace.now) i
        → StepFollows context.entry.rules S.side context.entry.formula.now (T.steps trace.now) i) }
    ensures refused { IfErr result
        (IsCoreFault context.entry.rules S.side context.entry.formula.now (T.steps trace.now)) }
{
    let state = WalkState {
        hints,
        distinct: DistinctLits::new(context.alloc),
        judged: JudgeState {
            tests: CheckState {
                seen: SeenLits::new(context.alloc),
                initial: InitialSteps::new(context.alloc),
            },
            parts: Parts::new(context.alloc),
        },
        buffers: PremiseBuffers {
            first: LitBuffer::new(context.alloc),
            second: LitBuffer::new(context.alloc),
        },
    };
    let own = LitBuffer::new(context.alloc);
    let mut walk = Walk { state, own };
    for position in 0..trace.len() {
        if marks[position] {
            follow_step::<S, T>(context, trace, position, &mut walk)?;
        }
    }
    Ok(())
}
