//! Laws of the definitions, as contracts of functions that do nothing.

ghost use Rattle.gate_clauses.specs.Laws.{EncodingIsClosed, EncodingKeepsTheTruth, StepsMakeTheEncoding};

/// A formula of gates is true exactly if its formula in clauses is. It does nothing when it runs.
pub fn the_encoding_is_the_question()
    ensures truth { EncodingKeepsTheTruth }
    ensures closed { EncodingIsClosed }
    ensures steps { StepsMakeTheEncoding }
{}
