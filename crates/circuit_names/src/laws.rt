//! Laws of the definitions, as contracts of functions that do nothing.

ghost use Rattle.circuit_names.specs.Laws.{NamedCircuitsReadBack, VariablesAreNamed};

/// Each line of the symbol table carries the name that the formula gives to the variable of its
/// input or output. It does nothing when it runs.
pub fn variables_are_named()
    ensures { VariablesAreNamed }
{}

/// The text of a circuit that AIGER takes, with the names of a formula of gates, reads back as that
/// circuit with these names, in both formats. The binary one has the greater literal of each gate's
/// two in front. It does nothing when it runs.
pub fn named_circuits_read_back()
    ensures { NamedCircuitsReadBack }
{}
