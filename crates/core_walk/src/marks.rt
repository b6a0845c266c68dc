//! The marks of the steps that a goal needs.

ghost use Rattle.std.specs.Prelude.{◌≡◌, ◌↔◌, ◌⊎◌, ℕ, ◌<◌, length, IfOk, IfSome, OnOk};
ghost use Rattle.trace_items.specs.Inferences.{Inference, IsAt};
ghost use Rattle.core_walk.specs.Core.{IsGoal, IsInCore};
ghost use Rattle.core_walk.specs.Marks.{IsMarked, IsNamed, with_mark};

use crate::hints::Hints;
use std::alloc::{AllocError, Global};
use trace_items::{Antecedents, KeptSteps};

/// Marks where a step was found.
#[inline(always)]
fn mark_found(marks: &mut [bool], found: Option<usize>)
    requires { IfSome found (λ position. position < length marks.old) }
    ensures { marks.new ≡ with_mark marks.old found }
{
    if let Some(position) = found {
        marks[position] = true;
    }
}

/// Marks the earlier steps that the step at a position names, and leaves the other marks. The
/// positions at which they were found are kept.
fn mark_named<T: KeptSteps>(
    trace: &T,
    marks: &mut [bool],
    position: usize,
    hints: &mut Hints,
) -> Result<(), AllocError>
    requires position { position < length (T.steps trace.now) }
    requires marks { length marks.old ≡ length (T.steps trace.now) }
    ensures { OnOk result ((step : Inference) → IsAt (T.steps trace.now) position step → (j : ℕ)
        → IsMarked marks.new j
        ↔ (IsMarked marks.old j ⊎ IsNamed (T.steps trace.now) position step.ants j)) }
{
    match trace.antecedents(position) {
        Antecedents::Empty => {}
        Antecedents::One(only) => {
            let found = hints.find_earlier(trace, position, only)?;
            mark_found(marks, found);
        }
        Antecedents::Two(first, second) => {
            let found = hints.find_earlier(trace, position, first)?;
            mark_found(marks, found);
            let other = hints.find_earlier(trace, position, second)?;
            mark_found(marks, other);
        }
    }
    Ok(())
}

/// Marks the core: the goal, which is the last step without literals, and with each marked step
/// every earlier one that it names. It goes over the trace once, from the goal down, and keeps
/// where the antecedents were found.
///
/// # Errors
/// If an allocation fails.
pub(crate) fn mark_core<T: KeptSteps>(
    alloc: Global,
    trace: &T,
    goal: usize,
    hints: &mut Hints,
) -> Result<Vec<bool>, AllocError>
    requires { IsGoal (T.steps trace.now) goal }
    ensures len { IfOk result (λ marks. length marks.items ≡ length (T.steps trace.now)) }
    ensures core { IfOk result
        (λ marks. (i : ℕ) → IsMarked marks.items i ↔ IsInCore (T.steps trace.now) i) }
{
    let count = trace.len();
    let mut marks = vec![in alloc; false; count]?;
    marks[goal] = true;
    for i in (0..count).rev() {
        if marks[i] {
            mark_named(trace, &mut marks, i, hints)?;
        }
    }
    Ok(marks)
}
