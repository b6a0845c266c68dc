//! The walk over a core, down from its goal and forwards again.

ghost use Rattle.std.specs.Prelude.{ℕ, IfErr, IfOk, OnOk};
ghost use Rattle.core_walk.specs.Conditions.{StepFollows};
ghost use Rattle.core_walk.specs.Core.{IsGoal, IsInCore};
ghost use Rattle.core_walk.specs.Followed.{IsCoreFault};
ghost use Rattle.core_walk.specs.Marks.{MarksCore};

use crate::fault::CoreFault;
use crate::following::follow_core;
use crate::hints::Hints;
use crate::marks::mark_core;
use crate::step::Context;
use qrp_rules::Side;
use trace_items::KeptSteps;

/// The marks of the core, which is all that a goal needs, if each of its steps follows from those
/// before it. The goal is the position of the last step without literals.
///
/// # Errors
/// The first step of the core in file order that does not follow, with its first fault. In place of
/// that, or of the marks, out of memory, if an allocation failed.
pub fn walk_core<S: Side, T: KeptSteps>(
    context: Context,
    trace: &T,
    goal: usize,
) -> Result<Vec<bool>, CoreFault>
    requires { IsGoal (T.steps trace.now) goal }
    ensures follows { OnOk result ((i : ℕ) → IsInCore (T.steps trace.now) i
        → StepFollows context.entry.rules S.side context.entry.formula.now (T.steps trace.now) i) }
    ensures core { IfOk result (λ marks. MarksCore (T.steps trace.now) marks.items) }
    ensures refused { IfErr result
        (IsCoreFault context.entry.rules S.side context.entry.formula.now (T.steps trace.now)) }
{
    let mut hints = Hints::new(context.alloc, trace);
    let marks = mark_core(context.alloc, trace, goal, &mut hints)?;
    follow_core::<S, T>(context, trace, &marks, hints)?;
    Ok(marks)
}
