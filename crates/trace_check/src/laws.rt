//! Laws of the definitions themselves, as contracts of functions that do nothing.

ghost use Rattle.trace_check.specs.Laws.{CoreKeepsTheTruth, MorePivotsKeep, ReducedParentsKeep};
ghost use Rattle.trace_check.specs.Laws.{Soundness, StepFaultsExclude, TrimmedIsFixed};
ghost use Rattle.trace_check.specs.Laws.{TrimmingKeeps, VerdictIsOne};

/// If each step of the core follows, the core's steps can be added to the formula one by one, as
/// clauses to its matrix or as cubes beside it, and its truth stays. It does nothing when it runs.
pub fn core_steps_keep_the_truth()
    ensures { CoreKeepsTheTruth }
{}

/// A refutation shows that the formula is false, and a proof of truth that it is true. It does
/// nothing when it runs.
pub fn a_proof_shows_its_result()
    ensures { Soundness }
{}

/// A step that follows has no fault, and no step has two. It does nothing when it runs.
pub fn a_step_has_one_fault()
    ensures { StepFaultsExclude }
{}

/// A trace that proves its result has no fault, and no trace has two first faults. It does nothing
/// when it runs.
pub fn a_trace_has_one_verdict()
    ensures { VerdictIsOne }
{}

/// A trimmed trace proves what the whole one does, needs all of its steps, and is trimmed to
/// itself. It does nothing when it runs.
pub fn trimming_keeps_the_proof()
    ensures keeps { TrimmingKeeps }
    ensures fixed { TrimmedIsFixed }
{}

/// A trace that proves its result with parents that are resolved as they stand proves it too if
/// they may be reduced before. A trace that proves it by some rules proves it by rules that allow
/// more pivots. The core is the same each time: no rule changes it. It does nothing when it runs.
pub fn wider_rules_keep_the_proof()
    ensures parents { ReducedParentsKeep }
    ensures pivots { MorePivotsKeep }
{}
