//! The symbol table of a circuit: what its inputs and outputs are called.

ghost use Rattle.std.specs.Prelude.{◌≡◌, ◌<◌, ◌++◌, ◌∷◌, [], ℕ, List, codes, decimal, length, map};
ghost use Rattle.std.specs.Prelude.{Some, slice_get};
ghost use Rattle.qbf_text.specs.Written.{IsPut};
ghost use Rattle.aiger.specs.Texts.{place, symbol_line, symbol_lines, symbol_table};

use crate::circuit::{Circuit, Output};
use dimacs_syntax::{Bare, Bytes, Put};
use qbf_text::{Sink, SinkFault, put_bytes};

/// What inputs and outputs are called, by the numbers that a circuit has for them.
pub trait Naming {
    /// The name for a number.
    ghost name: { Self → ℕ → List ℕ };

    /// Sends the name for a number.
    ///
    /// # Errors
    /// A `SinkFault` if the sink failed. What went out is a beginning of the name then.
    fn put_name<K: Sink>(&self, number: u32, sink: &mut K) -> Result<(), SinkFault>
        ensures { IsPut K.written K.failures K.failed_last
            sink.old sink.new (name self.now number) result };
}

/// Each number is its own name.
#[derive(Clone, Copy)]
pub struct Numbers;

impl Naming for Numbers {
    ghost name = { λ _ n. decimal n };

    fn put_name<K: Sink>(&self, number: u32, sink: &mut K) -> Result<(), SinkFault> {
        Bare(false, u64::from(number)).put(sink)
    }
}

/// What stands before a name: a letter, a position and a blank.
#[derive(Clone, Copy)]
struct Place<'a>(&'a [u8], u64);

impl<'a> Put for Place<'a> {
    ghost text = { λ p. place p.0.now p.1 };

    fn put<K: Sink>(&self, sink: &mut K) -> Result<(), SinkFault> {
        (Bytes(self.0), (Bare(false, self.1), Bytes(b" "))).put(sink)
    }
}

/// Sends a name and the end of its line.
fn end_line<N: Naming, K: Sink>(names: &N, number: u32, sink: &mut K) -> Result<(), SinkFault>
    ensures { IsPut K.written K.failures K.failed_last
        sink.old sink.new (N.name names.now number ++ 10 ∷ []) result }
{
    names.put_name(number, sink)?;
    put_bytes(sink, b"\n")
}

/// Sends the symbol of an input.
fn put_input<N: Naming, K: Sink>(
    names: &N,
    position: u64,
    number: u32,
    sink: &mut K,
) -> Result<(), SinkFault>
    ensures { IsPut K.written K.failures K.failed_last sink.old sink.new
        (symbol_line (codes "i") position (N.name names.now number)) result }
{
    Place(b"i", position).put(sink)?;
    end_line(names, number, sink)
}

/// Sends the symbol of an output.
fn put_output<N: Naming, K: Sink>(
    names: &N,
    position: u64,
    number: u32,
    sink: &mut K,
) -> Result<(), SinkFault>
    ensures { IsPut K.written K.failures K.failed_last sink.old sink.new
        (symbol_line (codes "o") position (N.name names.now number)) result }
{
    Place(b"o", position).put(sink)?;
    end_line(names, number, sink)
}

/// The number of the input at a position.
fn number_at(inputs: &[u32], i: usize) -> u32
    requires { i < length inputs.now }
    ensures { slice_get inputs.now i ≡ Some result }
{
    inputs[i]
}

/// The number of the output at a position.
fn output_number(outputs: &[Output], i: usize) -> u32
    requires { i < length outputs.now }
    ensures { slice_get (map (λ o. o.0) outputs.now) i ≡ Some result }
{
    let output = outputs[i];
    output.name
}

/// Sends the symbols of inputs.
fn put_inputs<N: Naming, K: Sink>(names: &N, inputs: &[u32], sink: &mut K) -> Result<(), SinkFault>
    ensures { IsPut K.written K.failures K.failed_last sink.old sink.new
        (symbol_lines (codes "i") 0 (map (N.name names.now) inputs.now)) result }
{
    for i in 0..inputs.len() {
        put_input(names, i as u64, number_at(inputs, i), sink)?;
    }
    Ok(())
}

/// Sends the symbols of outputs.
fn put_outputs<N: Naming, K: Sink>(
    names: &N,
    outputs: &[Output],
    sink: &mut K,
) -> Result<(), SinkFault>
    ensures { IsPut K.written K.failures K.failed_last sink.old sink.new
        (symbol_lines (codes "o") 0 (map (N.name names.now) (map (λ o. o.0) outputs.now))) result }
{
    for i in 0..outputs.len() {
        put_output(names, i as u64, output_number(outputs, i), sink)?;
    }
    Ok(())
}

/// Sends the symbol table of a circuit (Biere 2007; version 1.9: Biere, Heljanko, Wieringa 2011), and
/// does not `finish` the sink: a line for each input and then for each output, with a letter, the
/// position, counted from 0, and what the number there is called.
///
/// # Errors
/// A `SinkFault` if the sink failed. What went out is a beginning of the table then.
pub fn put_symbols<N: Naming, K: Sink>(
    names: &N,
    circuit: &Circuit,
    sink: &mut K,
) -> Result<(), SinkFault>
    ensures { IsPut K.written K.failures K.failed_last sink.old sink.new
        (symbol_table (N.name names.now) circuit.now) result }
{
    put_inputs(names, &circuit.inputs, sink)?;
    put_outputs(names, &circuit.outputs, sink)
}
