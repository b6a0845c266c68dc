//! The text of a circuit in AIGER's ASCII format.

ghost use Rattle.std.specs.Prelude.{◌≡◌, ◌<◌, ◌+◌, ◌++◌, ◌^◌, length, Some, slice_get};
ghost use Rattle.qbf_text.specs.Written.{IsPut};
ghost use Rattle.std.specs.List.{flat_map};
ghost use Rattle.aiger.specs.Texts.{ascii_text, beginning, counts, gate_line, gate_lines};
ghost use Rattle.aiger.specs.Texts.{input_line, input_lines, output_line, unnamed_ascii};

use crate::circuit::{Circuit, Gate, Output};
use crate::symbols::{Numbers, put_symbols};
use dimacs_syntax::{Bare, Bytes, Put};
use qbf_text::{Sink, SinkFault};

/// Sends the line of the input with a number.
fn put_input<K: Sink>(sink: &mut K, n: u64) -> Result<(), SinkFault>
    requires { n < 2 ^ 62 }
    ensures { IsPut K.written K.failures K.failed_last sink.old sink.new (input_line n) result }
{
    (Bare(false, 2 * n), Bytes(b"\n")).put(sink)
}

/// The lines of the inputs.
#[derive(Clone, Copy)]
struct InputLines<'a>(&'a [u32]);

impl<'a> Put for InputLines<'a> {
    ghost text = { λ i. input_lines 1 i.0.now };

    fn put<K: Sink>(&self, sink: &mut K) -> Result<(), SinkFault> {
        for i in 0..self.0.len() {
            put_input(sink, i as u64 + 1)?;
        }
        Ok(())
    }
}

impl Put for Output {
    ghost text = { output_line };

    fn put<K: Sink>(&self, sink: &mut K) -> Result<(), SinkFault> {
        (Bare(false, u64::from(self.wire.number())), Bytes(b"\n")).put(sink)
    }
}

/// Sends the line of the gate with a number.
fn put_gate<K: Sink>(sink: &mut K, n: u64, gate: Gate) -> Result<(), SinkFault>
    requires { n < 2 ^ 62 }
    ensures { IsPut K.written K.failures K.failed_last sink.old sink.new (gate_line n gate) result }
{
    let left = u64::from(gate.left.number());
    let right = u64::from(gate.right.number());
    (Bare(false, 2 * n), (left, (right, Bytes(b"\n")))).put(sink)
}

/// The gate at a position.
pub(crate) fn gate_at(gates: &[Gate], i: usize) -> Gate
    requires { i < length gates.now }
    ensures { slice_get gates.now i ≡ Some result }
{
    gates[i]
}

/// Sends the lines of gates, the first of which has this number.
fn put_gates<K: Sink>(sink: &mut K, first: u64, gates: &[Gate]) -> Result<(), SinkFault>
    requires { first < 2 ^ 61 + 1 }
    ensures { IsPut K.written K.failures K.failed_last sink.old sink.new
        (gate_lines first gates.now) result }
{
    for i in 0..gates.len() {
        put_gate(sink, first + i as u64, gate_at(gates, i))?;
    }
    Ok(())
}

/// Sends the header of a circuit's text, which begins with the word of a format.
pub(crate) fn put_header<K: Sink>(
    format: &[u8],
    circuit: &Circuit,
    sink: &mut K,
) -> Result<(), SinkFault>
    ensures { IsPut K.written K.failures K.failed_last sink.old sink.new
        (format.now ++ counts circuit.now) result }
{
    let inputs = circuit.inputs.len() as u64;
    let outputs = circuit.outputs.len() as u64;
    let gates = circuit.gates.len() as u64;
    let counts = (inputs, (0u64, (outputs, (gates, Bytes(b"\n")))));
    (Bytes(format), (inputs + gates, counts)).put(sink)
}

/// Sends the lines of inputs and outputs.
fn put_ends<K: Sink>(inputs: &[u32], outputs: &[Output], sink: &mut K) -> Result<(), SinkFault>
    ensures { IsPut K.written K.failures K.failed_last sink.old sink.new
        (input_lines 1 inputs.now ++ flat_map output_line outputs.now) result }
{
    (InputLines(inputs), outputs).put(sink)
}

/// Sends what stands before the gates.
fn put_beginning<K: Sink>(circuit: &Circuit, sink: &mut K) -> Result<(), SinkFault>
    ensures { IsPut K.written K.failures K.failed_last sink.old sink.new
        (beginning circuit.now) result }
{
    put_header(b"aag", circuit, sink)?;
    put_ends(&circuit.inputs, &circuit.outputs, sink)
}

/// Sends what stands before the symbols.
pub(crate) fn put_unnamed_ascii<K: Sink>(circuit: &Circuit, sink: &mut K) -> Result<(), SinkFault>
    ensures { IsPut K.written K.failures K.failed_last sink.old sink.new
        (unnamed_ascii circuit.now) result }
{
    put_beginning(circuit, sink)?;
    let inputs: &[u32] = &circuit.inputs;
    put_gates(sink, inputs.len() as u64 + 1, &circuit.gates)
}

/// Writes a circuit in AIGER's ASCII format (Biere 2007; version 1.9: Biere, Heljanko, Wieringa
/// 2011), and does not `finish` the sink. Each input and each output has a symbol: its name.
///
/// # Errors
/// A `SinkFault` if the sink failed. What went out is a beginning of the text then.
pub fn put_ascii<K: Sink>(circuit: &Circuit, sink: &mut K) -> Result<(), SinkFault>
    ensures { IsPut K.written K.failures K.failed_last sink.old sink.new
        (ascii_text circuit.now) result }
{
    put_unnamed_ascii(circuit, sink)?;
    put_symbols(&Numbers, circuit, sink)
}
