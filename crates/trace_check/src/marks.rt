//! The goal of a trace, and the positions of the steps that it needs.

ghost use Rattle.std.specs.Prelude.{◌≡◌, ◌<◌, ◌↔◌, ℕ, [], length, IfNone, IfOk, IfSome, IsTrue};
ghost use Rattle.trace_items.specs.Inferences.{Inference, IsAt};
ghost use Rattle.core_walk.specs.Core.{IsGoal};
ghost use Rattle.trace_check.specs.Marks.{ListsMarked};

use std::alloc::{AllocError, Global};
use trace_items::KeptSteps;

/// Whether the step at a position has no literals.
fn is_empty_at<T: KeptSteps>(trace: &T, i: usize) -> bool
    requires { i < length (T.steps trace.now) }
    ensures { (step : Inference) → IsAt (T.steps trace.now) i step
        → (IsTrue result ↔ (step.lits ≡ [])) }
{
    let mut left = trace.lits_left(i);
    left.next().is_none()
}

/// The position of the goal: the last step without literals.
#[tactic(auto, using(crate::proofs::StepPlaces::goal_here))]
pub(crate) fn find_goal<T: KeptSteps>(trace: &T) -> Option<usize>
    ensures some { IfSome result (IsGoal (T.steps trace.now)) }
    ensures none { IfNone result ((i : ℕ) → IsGoal (T.steps trace.now) i → ⊥) }
{
    for i in (0..trace.len()).rev() {
        if is_empty_at(trace, i) {
            return Some(i);
        }
    }
    None
}

/// The marked positions, in order.
///
/// # Errors
/// If an allocation fails.
pub(crate) fn marked_positions(alloc: Global, marks: &[bool]) -> Result<Vec<usize>, AllocError>
    ensures { IfOk result (λ positions. ListsMarked marks.now (length marks.now) positions.items) }
{
    let mut positions = Vec::new(alloc);
    for position in 0..marks.len() {
        if marks[position] {
            positions.push(position)?;
        }
    }
    Ok(positions)
}
