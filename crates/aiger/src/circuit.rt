//! Circuits of AND gates.

use crate::wire::Wire;
use std::marker::Model;

/// A gate: the conjunction of two wires. Its number is told by its place.
#[derive(Clone, Copy, Debug, PartialEq, Eq)]
pub struct Gate {
    /// One of the two wires.
    pub left: Wire,
    /// The other.
    pub right: Wire,
}

/// An output: a wire, and its name, which is a number. Contracts see the two as a pair.
#[derive(Clone, Copy)]
pub struct Output {
    /// The name.
    pub name: u32,
    /// The wire that has its value.
    pub wire: Wire,
}

impl Model for Output {
    ghost use Rattle.std.specs.Prelude.{ℕ};
    ghost use Rattle.aiger.specs.Wires.{Wire};

    ghost Value = { ℕ × Wire };

    ghost view = { λ o. (o.name, o.wire) };

    ghost inverse = { λ p. record { name = p.0; wire = p.1 } };
}

/// A circuit: the names of its inputs, its outputs, and its gates. The inputs have the variables
/// from 1 on, and the gates those after them. Contracts see a `Circuit`.
#[derive(Drop)]
pub struct Circuit {
    /// The names of its inputs.
    pub inputs: Vec<u32>,
    /// Its outputs.
    pub outputs: Vec<Output>,
    /// Its gates.
    pub gates: Vec<Gate>,
}

impl Model for Circuit {
    ghost use Rattle.aiger.specs.Circuits.{Circuit};

    ghost Value = { Circuit };

    ghost view = { λ c. record {
      inputs = c.inputs.items;
      outputs = c.outputs.items;
      gates = c.gates.items;
    } };
}
