//! Laws of the definitions, as contracts of functions that do nothing.

ghost use Rattle.gate_strategy.specs.Laws.{InputsOfGatesAreFree, WinnersWinTheGates};

/// A circuit by which a player wins the formula in clauses wins the formula of gates, without
/// outputs or inputs of gates. It does nothing when it runs.
pub fn winners_win_the_gates()
    ensures { WinnersWinTheGates }
{}

/// In each run of the universal player's circuit the output is false, whatever its inputs of gates
/// are. It does nothing when it runs.
pub fn inputs_of_gates_are_free()
    ensures { InputsOfGatesAreFree }
{}
