//! Circuits with the first inputs alone.

ghost use Rattle.std.specs.Prelude.{◌≡◌, ◌≤◌, length, map};
ghost use Rattle.aiger.specs.Cutting.{moved, moved_gate, moved_output, moved_wire, with_inputs};

use crate::circuit::{Circuit, Gate, Output};
use crate::wire::Wire;

/// The variable for the one of this number.
fn moved(kept: usize, all: usize, var: u32) -> u32
    requires { kept ≤ all }
    ensures value { result ≡ moved kept all var }
    ensures range { result ≤ var }
{
    let number = var as usize;
    if number <= kept {
        var
    } else if number <= all {
        0
    } else {
        (number - (all - kept)) as u32
    }
}

/// The wire for this one.
fn moved_wire(kept: usize, all: usize, wire: Wire) -> Wire
    requires { kept ≤ all }
    ensures { result ≡ moved_wire kept all wire }
{
    Wire::new(moved(kept, all, wire.var()), wire.is_negated())
}

/// The gate for this one.
fn moved_gate(kept: usize, all: usize, gate: Gate) -> Gate
    requires { kept ≤ all }
    ensures { result ≡ moved_gate kept all gate }
{
    Gate {
        left: moved_wire(kept, all, gate.left),
        right: moved_wire(kept, all, gate.right),
    }
}

/// The output for this one.
fn moved_output(kept: usize, all: usize, output: Output) -> Output
    requires { kept ≤ all }
    ensures { result ≡ moved_output kept all output }
{
    Output {
        name: output.name,
        wire: moved_wire(kept, all, output.wire),
    }
}

/// Puts for each gate the one for it.
fn move_gates(kept: usize, all: usize, gates: &mut [Gate])
    requires { kept ≤ all }
    ensures { gates.new ≡ map (moved_gate kept all) gates.old }
{
    for place in 0..gates.len() {
        let gate = gates[place];
        gates[place] = moved_gate(kept, all, gate);
    }
}

/// Puts for each output the one for it.
fn move_outputs(kept: usize, all: usize, outputs: &mut [Output])
    requires { kept ≤ all }
    ensures { outputs.new ≡ map (moved_output kept all) outputs.old }
{
    for place in 0..outputs.len() {
        let output = outputs[place];
        outputs[place] = moved_output(kept, all, output);
    }
}

/// The circuit with the first inputs alone: the others are always false in it. `kept` is at most the
/// number of its inputs. It takes no memory.
pub fn with_inputs(kept: usize, mut circuit: Circuit) -> Circuit
    requires { kept ≤ length circuit.inputs }
    ensures { result ≡ with_inputs kept circuit }
{
    let all = circuit.inputs.len();
    move_gates(kept, all, &mut circuit.gates);
    move_outputs(kept, all, &mut circuit.outputs);
    circuit.inputs.truncate(kept);
    circuit
}
