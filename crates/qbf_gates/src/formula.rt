//! Formulas of gates.

ghost use Rattle.std.specs.Prelude.{◌≡◌};

use crate::gates::Gates;
use qbf_core::Lit;
use std::marker::Model;

/// A formula of gates: a prefix, gates over its variables, and an output.
///
/// Contracts see the three.
#[derive(Drop)]
pub struct GateFormula {
    gates: Gates,
    output: Lit,
}

impl Model for GateFormula {
    ghost use Rattle.qbf_gates.specs.Gates.{GateFormula};

    ghost Value = { GateFormula };

    ghost view = { λ f. record { blocks = f.gates.blocks; gates = f.gates.gates; output = f.output } };
}

impl GateFormula {
    /// The formula of these gates with this output. Inputs that no gate has are dropped.
    pub fn new(gates: Gates, output: Lit) -> GateFormula
        ensures { result ≡ record { blocks = gates.blocks; gates = gates.gates; output = output } }
    {
        GateFormula { gates, output }
    }

    /// Its prefix and its gates.
    pub fn gates(&self) -> &Gates
        ensures blocks { result.now.blocks ≡ self.now.blocks }
        ensures gates { result.now.gates ≡ self.now.gates }
    {
        &self.gates
    }

    /// Its output.
    pub fn output(&self) -> Lit
        ensures { result ≡ self.now.output }
    {
        self.output
    }
}
