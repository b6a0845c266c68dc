//! The text of a circuit in either of AIGER's formats.

ghost use Rattle.qbf_text.specs.Written.{IsPut};
ghost use Rattle.aiger.specs.Formats.{circuit_text, unnamed_text};

use crate::ascii::{put_ascii, put_unnamed_ascii};
use crate::binary::{put_binary, put_unnamed_binary};
use crate::circuit::Circuit;
use qbf_text::{Sink, SinkFault};

/// Writes a circuit in AIGER's binary format, as `put_binary` does, or in its ASCII format, as
/// `put_ascii` does.
///
/// # Errors
/// A `SinkFault` if the sink failed. What went out is a beginning of the text then.
pub fn write_circuit<K: Sink>(
    circuit: &Circuit,
    binary: bool,
    sink: &mut K,
) -> Result<(), SinkFault>
    ensures { IsPut K.written K.failures K.failed_last sink.old sink.new
        (circuit_text binary circuit.now) result }
{
    if binary {
        put_binary(circuit, sink)
    } else {
        put_ascii(circuit, sink)
    }
}

/// Writes what stands before the symbols of a circuit, in AIGER's binary format or in its ASCII
/// format, and does not `finish` the sink. `put_symbols` writes the rest.
///
/// # Errors
/// A `SinkFault` if the sink failed. What went out is a beginning of the text then.
pub fn write_unnamed<K: Sink>(
    circuit: &Circuit,
    binary: bool,
    sink: &mut K,
) -> Result<(), SinkFault>
    ensures { IsPut K.written K.failures K.failed_last sink.old sink.new
        (unnamed_text binary circuit.now) result }
{
    if binary {
        put_unnamed_binary(circuit, sink)
    } else {
        put_unnamed_ascii(circuit, sink)
    }
}
