//! A circuit without the gates that no output needs.

ghost use Rattle.std.specs.Prelude.{◌≡◌, ℕ, ◌+◌, ◌<◌, ◌≤◌, ◌≢◌, true, ◌++◌, ◌∷◌, [], List, length};
ghost use Rattle.std.specs.Prelude.{Some, slice_get, IfOk, IfSome, OnOk};
ghost use Rattle.aiger.specs.Circuits.{Gate, IsOrdered, first_gate};
ghost use Rattle.aiger.specs.Trimming.{AddsGate, IsSame, IsSameCircuit, IsTrimming, IsUntrimmed};
ghost use Rattle.aiger.specs.Trimming.{OutputsSame, PutsGate};
ghost use Rattle.aiger.specs.Wires.{constant};

use crate::circuit::{Circuit, Gate, Output};
use crate::wire::Wire;
use std::alloc::{AllocError, Global};

/// Marks the variable of a wire.
fn mark(needed: &mut [bool], wire: Wire) {
    let var = wire.var() as usize;
    if var < needed.len() {
        needed[var] = true;
    }
}

/// Whether a variable is marked.
fn is_marked(needed: &[bool], var: usize) -> bool {
    match needed.get(var) {
        Some(marked) => *marked,
        None => false,
    }
}

/// Which variables the outputs need: a mark for each, by its number.
fn needed(alloc: Global, circuit: &Circuit) -> Result<Vec<bool>, AllocError>
    requires { first_gate circuit.now + length circuit.now.gates ≤ 2147483648 }
{
    let first = circuit.inputs.len() + 1;
    let mut needed = vec![in alloc; false; first + circuit.gates.len()]?;
    for output in &circuit.outputs {
        mark(&mut needed, output.wire);
    }
    for place in (0..circuit.gates.len()).rev() {
        if is_marked(&needed, first + place) {
            mark(&mut needed, circuit.gates[place].left);
            mark(&mut needed, circuit.gates[place].right);
        }
    }
    Ok(needed)
}

/// Some gates of a circuit, anew.
#[derive(Drop)]
struct Trimming {
    /// The number of the first gate, as in the circuit.
    first: u32,
    /// The wires of the circuit's variables, by number, or the constant true for one that is left
    /// out.
    wires: Vec<Wire>,
    /// The gates.
    gates: Vec<Gate>,
}

/// The wire of a variable, or `None` if it is left out.
fn found(wires: &[Wire], var: usize) -> Option<Wire>
    ensures { IfSome result (λ w. (w ≢ constant true) × (slice_get wires.now var ≡ Some w)) }
{
    match wires.get(var) {
        Some(wire) if *wire != Wire::constant(true) => Some(*wire),
        _ => None,
    }
}

impl Trimming {
    /// The variables of the constant and of the inputs, and no gates; `first` is the number of the
    /// first gate.
    fn new(alloc: Global, first: u32, gates: usize) -> Result<Trimming, AllocError>
        requires { first ≤ 2147483648 }
        ensures untrimmed { IfOk result (λ t. IsUntrimmed first t.gates.items t.wires.items) }
        ensures first { IfOk result (λ t. t.first ≡ first) }
    {
        let mut wires = Vec::with_capacity(alloc, (first as usize).saturating_add(gates))?;
        for input in 0..first {
            wires.push(Wire::new(input, false))?;
        }
        Ok(Trimming {
            first,
            wires,
            gates: Vec::new(alloc),
        })
    }

    /// The wire for one of the circuit, or `None` if its variable is left out.
    fn wire(&self, wire: Wire) -> Option<Wire>
        ensures { IfSome result (λ w. (old : List Gate)
            → IsTrimming self.now.first old self.now.gates.items self.now.wires.items
            → IsSame self.now.first old self.now.gates.items wire w) }
    {
        let found = found(&self.wires, wire.var() as usize)?;
        Some(found.turned(wire.is_negated()))
    }

    /// Puts a gate of the circuit, and gives its wire; or leaves it out, and gives the constant
    /// true.
    fn put(&mut self, gate: &Gate) -> Result<Wire, AllocError>
        ensures put { IfOk result (PutsGate self.old.first gate.now self.old.gates.items
            self.new.gates.items self.old.wires.items) }
        ensures wires { self.new.wires ≡ self.old.wires }
        ensures first { self.new.first ≡ self.old.first }
    {
        let number = self.first as usize + self.gates.len();
        match (self.wire(gate.left), self.wire(gate.right)) {
            (Some(left), Some(right)) if number < 2147483648 => {
                self.gates.push(Gate { left, right })?;
                Ok(Wire::new(number as u32, false))
            }
            _ => Ok(Wire::constant(true)),
        }
    }

    /// Puts the next gate of the circuit, or leaves it out.
    fn add(&mut self, gate: &Gate, needed: bool) -> Result<(), AllocError>
        ensures added { OnOk result (AddsGate self.old.first gate.now self.old.gates.items
            self.new.gates.items self.old.wires.items self.new.wires.items) }
        ensures first { self.new.first ≡ self.old.first }
    {
        if needed {
            let wire = self.put(gate)?;
            self.wires.push(wire)?;
        } else {
            self.wires.push(Wire::constant(true))?;
        }
        Ok(())
    }

    /// The outputs, or `None` if one needs a variable that is left out.
    fn outputs(&self, alloc: Global, outputs: &[Output]) -> Result<Option<Vec<Output>>, AllocError>
        ensures { IfOk result (λ some. IfSome some (λ v. (old : List Gate)
            → IsTrimming self.now.first old self.now.gates.items self.now.wires.items
            → OutputsSame self.now.first old self.now.gates.items outputs.now v.items)) }
    {
        let mut renamed = Vec::with_capacity(alloc, outputs.len())?;
        for output in outputs {
            match self.wire(output.wire) {
                Some(wire) => renamed.push(Output {
                    name: output.name,
                    wire,
                })?,
                None => return Ok(None),
            }
        }
        Ok(Some(renamed))
    }
}

/// The gates of a circuit that are marked.
fn trim_gates(alloc: Global, circuit: &Circuit, needed: &[bool]) -> Result<Trimming, AllocError>
    requires { first_gate circuit.now + length circuit.now.gates ≤ 2147483648 }
    ensures { IfOk result (λ t. IsTrimming (first_gate circuit.now) circuit.now.gates
        t.gates.items t.wires.items × (t.first ≡ first_gate circuit.now)) }
{
    let first = circuit.inputs.len() + 1;
    let mut trimming = Trimming::new(alloc, first as u32, circuit.gates.len())?;
    for place in 0..circuit.gates.len() {
        let is_needed = is_marked(needed, first + place);
        trimming.add(&circuit.gates[place], is_needed)?;
    }
    Ok(trimming)
}

/// The circuit without the gates that no output needs. The inputs and outputs stay as they are.
///
/// # Errors
/// If an allocation fails.
pub fn trimmed(alloc: Global, circuit: Circuit) -> Result<Circuit, AllocError>
    requires { IsOrdered circuit }
    ensures { IfOk result (IsSameCircuit circuit) }
{
    let needed = needed(alloc, &circuit)?;
    let trimming = trim_gates(alloc, &circuit, &needed)?;
    match trimming.outputs(alloc, &circuit.outputs)? {
        Some(outputs) => Ok(Circuit {
            inputs: circuit.inputs,
            outputs,
            gates: trimming.gates,
        }),
        None => Ok(circuit),
    }
}
