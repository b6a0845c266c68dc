//! The text of a circuit in AIGER's binary format.

ghost use Rattle.std.specs.Prelude.{◌≡◌, ◌<◌, ◌+◌, ◌++◌, ◌-◌, ◌*◌, ◌^◌};
ghost use Rattle.qbf_text.specs.Written.{IsPut};
ghost use Rattle.aiger.specs.Binary.{binary_beginning, binary_text, gate_bytes, gates_bytes};
ghost use Rattle.aiger.specs.Binary.{greater, lesser, number_bytes, unnamed_binary};

use crate::ascii::{gate_at, put_header};
use crate::circuit::{Circuit, Gate, Output};
use crate::symbols::{Numbers, put_symbols};
use dimacs_syntax::Put;
use qbf_text::{Sink, SinkFault, put_byte};

/// Sends a number below 2^35 by its groups of seven bits.
fn put_number<K: Sink>(sink: &mut K, number: u64) -> Result<(), SinkFault>
    ensures { IsPut K.written K.failures K.failed_last sink.old sink.new
        (number_bytes number) result }
{
    let mut rest = number;
    for _group in 0..5u32 {
        if rest < 128 {
            return put_byte(sink, rest as u8);
        }
        put_byte(sink, (128 + rest % 128) as u8)?;
        rest /= 128;
    }
    Ok(())
}

/// The greater number of a gate's wires.
fn greater(gate: &Gate) -> u64
    ensures { result ≡ greater gate.now }
{
    let left = gate.left.number();
    let right = gate.right.number();
    u64::from(if left < right { right } else { left })
}

/// The other one.
fn lesser(gate: &Gate) -> u64
    ensures { result ≡ lesser gate.now }
{
    let left = gate.left.number();
    let right = gate.right.number();
    u64::from(if left < right { left } else { right })
}

/// By how much the literal of the gate with this number is above the greater one of its wires'.
fn rise(n: u64, gate: &Gate) -> u64
    requires { n < 2 ^ 62 }
    ensures { result ≡ 2 * n - greater gate.now }
{
    (2 * n).saturating_sub(greater(gate))
}

/// By how much the greater literal is above the other.
fn gap(gate: &Gate) -> u64
    ensures { result ≡ greater gate.now - lesser gate.now }
{
    greater(gate).saturating_sub(lesser(gate))
}

/// Sends two numbers.
fn put_two<K: Sink>(sink: &mut K, first: u64, second: u64) -> Result<(), SinkFault>
    ensures { IsPut K.written K.failures K.failed_last sink.old sink.new
        (number_bytes first ++ number_bytes second) result }
{
    put_number(sink, first)?;
    put_number(sink, second)
}

/// Sends the bytes of the gate with a number.
fn put_gate<K: Sink>(sink: &mut K, n: u64, gate: &Gate) -> Result<(), SinkFault>
    requires { n < 2 ^ 62 }
    ensures { IsPut K.written K.failures K.failed_last sink.old sink.new
        (gate_bytes n gate.now) result }
{
    put_two(sink, rise(n, gate), gap(gate))
}

/// Sends the bytes of gates, the first of which has this number.
fn put_gates<K: Sink>(sink: &mut K, first: u64, gates: &[Gate]) -> Result<(), SinkFault>
    requires { first < 2 ^ 61 + 1 }
    ensures { IsPut K.written K.failures K.failed_last sink.old sink.new
        (gates_bytes first gates.now) result }
{
    for i in 0..gates.len() {
        let gate = gate_at(gates, i);
        put_gate(sink, first + i as u64, &gate)?;
    }
    Ok(())
}

/// Sends what stands before the gates.
fn put_beginning<K: Sink>(circuit: &Circuit, sink: &mut K) -> Result<(), SinkFault>
    ensures { IsPut K.written K.failures K.failed_last sink.old sink.new
        (binary_beginning circuit.now) result }
{
    put_header(b"aig", circuit, sink)?;
    let outputs: &[Output] = &circuit.outputs;
    outputs.put(sink)
}

/// Sends what stands before the symbols.
pub(crate) fn put_unnamed_binary<K: Sink>(circuit: &Circuit, sink: &mut K) -> Result<(), SinkFault>
    ensures { IsPut K.written K.failures K.failed_last sink.old sink.new
        (unnamed_binary circuit.now) result }
{
    put_beginning(circuit, sink)?;
    let inputs: &[u32] = &circuit.inputs;
    put_gates(sink, inputs.len() as u64 + 1, &circuit.gates)
}

/// Writes a circuit in AIGER's binary format (Biere 2007; version 1.9: Biere, Heljanko, Wieringa
/// 2011), and does not `finish` the sink. Each gate is to stand on variables before it. Each input
/// and each output has a symbol: its name.
///
/// # Errors
/// A `SinkFault` if the sink failed. What went out is a beginning of the text then.
pub fn put_binary<K: Sink>(circuit: &Circuit, sink: &mut K) -> Result<(), SinkFault>
    ensures { IsPut K.written K.failures K.failed_last sink.old sink.new
        (binary_text circuit.now) result }
{
    put_unnamed_binary(circuit, sink)?;
    put_symbols(&Numbers, circuit, sink)
}
