//! Laws of the definitions, as contracts of functions that do nothing.

ghost use Rattle.aiger.specs.Laws.{CircuitsReadBack};

/// The text of a circuit that AIGER takes reads back as that circuit, in both formats. The binary
/// one has the greater literal of each gate's two in front. It does nothing when it runs.
pub fn circuits_read_back()
    ensures { CircuitsReadBack }
{}
