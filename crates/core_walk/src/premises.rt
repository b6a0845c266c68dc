//! The literals of the antecedents of a step.

ghost use Rattle.std.specs.Prelude.{◌<◌, take, length, IfOk};
ghost use Rattle.trace_items.specs.Inferences.{Inference, IsAt};
ghost use Rattle.core_walk.specs.DistinctLits.{AreKept};
ghost use Rattle.core_walk.specs.Premises.{ArePremises};

use crate::distinct_lits::DistinctLits;
use crate::hints::Hints;
use crate::step_at::StepAt;
use qbf_core::{Lit, LitBuffer};
use std::alloc::AllocError;
use trace_items::{Antecedents, KeptSteps};

/// The literals of the antecedents of a step: as they are written, or each once.
#[derive(Clone, Copy)]
pub(crate) enum Premises<'a> {
    /// An initial step has none.
    Initial,
    /// The step is a reduct of these.
    One(&'a [Lit]),
    /// The step is a resolvent of these.
    Two(&'a [Lit], &'a [Lit]),
}

/// Room for the literals of two antecedents, for those that the trace cannot lend.
#[derive(Drop)]
pub(crate) struct PremiseBuffers {
    pub(crate) first: LitBuffer,
    pub(crate) second: LitBuffer,
}

/// The literals of the antecedents of a step, or `None` if one of them is not the number of an
/// earlier step.
///
/// # Errors
/// If an allocation fails.
#[inline(always)]
pub(crate) fn find_premises<'a, T: KeptSteps>(
    place: StepAt<'a, T>,
    distinct: &'a DistinctLits,
    hints: &mut Hints,
    buffers: &'a mut PremiseBuffers,
) -> Result<Option<Premises<'a>>, AllocError>
    requires position { place.position < length (T.steps place.trace.now) }
    requires kept { AreKept (T.steps place.trace.now) distinct.now }
    ensures { IfOk result (λ found. (step : Inference)
        → IsAt (T.steps place.entry.trace.now) place.entry.position step
        → ArePremises (take place.entry.position (T.steps place.entry.trace.now)) step.ants found) }
{
    let StepAt { trace, position } = place;
    match trace.antecedents(position) {
        Antecedents::Empty => Ok(Some(Premises::Initial)),
        Antecedents::One(only) => {
            let Some(from) = hints.find_again(trace, position, only) else {
                return Ok(None);
            };
            let lits = distinct.members(trace, from, &mut buffers.first)?;
            Ok(Some(Premises::One(lits)))
        }
        Antecedents::Two(first, second) => {
            // The positions were found in the other order.
            let Some(b) = hints.find_again(trace, position, second) else {
                return Ok(None);
            };
            let Some(a) = hints.find_again(trace, position, first) else {
                return Ok(None);
            };
            let lits_of_a = distinct.members(trace, a, &mut buffers.first)?;
            let lits_of_b = distinct.members(trace, b, &mut buffers.second)?;
            Ok(Some(Premises::Two(lits_of_a, lits_of_b)))
        }
    }
}
