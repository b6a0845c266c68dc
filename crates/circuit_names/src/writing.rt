//! Writing a circuit with names.

ghost use Rattle.qbf_text.specs.Written.{IsPut};
ghost use Rattle.qcir.specs.Texts.{name_of};
ghost use Rattle.circuit_names.specs.Symbols.{named_text};

use aiger::{Circuit, Naming, put_symbols, write_unnamed};
use qbf_text::{Sink, SinkFault, put_bytes};
use qcir::Question;

/// The names that a formula of gates gives to its variables.
#[derive(Clone, Copy)]
struct NamesOf<'q, 'a>(&'q Question<'a>);

impl<'q, 'a> Naming for NamesOf<'q, 'a> {
    ghost name = { λ n v. name_of n.0.now.names v };

    fn put_name<K: Sink>(&self, number: u32, sink: &mut K) -> Result<(), SinkFault> {
        put_bytes(sink, self.0.name_numbered(number))
    }
}

/// Writes a circuit in AIGER's binary format, or in its ASCII format, and does not `finish` the
/// sink. Each input and each output has a symbol (Biere 2007; version 1.9: Biere, Heljanko, Wieringa
/// 2011): the name that the formula of gates gives to its variable (QCIR-14: Jordan, Klieber, Seidl
/// 2016), or no bytes if the formula has no variable of its number.
///
/// # Errors
/// A `SinkFault` if the sink failed. What went out is a beginning of the text then.
pub fn write_named_circuit<K: Sink>(
    circuit: &Circuit,
    question: &Question,
    binary: bool,
    sink: &mut K,
) -> Result<(), SinkFault>
    ensures { IsPut K.written K.failures K.failed_last sink.old sink.new
        (named_text binary question.now.names circuit.now) result }
{
    write_unnamed(circuit, binary, sink)?;
    put_symbols(&NamesOf(question), circuit, sink)
}
