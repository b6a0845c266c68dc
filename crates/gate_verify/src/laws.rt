//! Laws of the definitions, as contracts of functions that do nothing.

ghost use Rattle.gate_verify.specs.Laws.{ProofsShowTheGates};

/// A trace that proves its result of the clauses of a formula of gates states the truth of this
/// formula. It does nothing when it runs.
pub fn a_proof_shows_the_gates()
    ensures { ProofsShowTheGates }
{}
