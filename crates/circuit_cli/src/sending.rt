//! How a circuit goes out.

ghost use Rattle.aiger.specs.Formats.{circuit_text};
ghost use Rattle.circuit_cli.specs.Output.{no_circuit};
ghost use Rattle.qrp_program.specs.Output.{IsReportedTo, IsSent};

use aiger::{Circuit, write_circuit};
use qbf_text::{Sink, put_bytes};
use qrp_program::{Status, finish_sent};

/// Sends the text of a circuit in AIGER's binary format, or in its ASCII format, and returns the
/// status: 0, or 3 if the sink failed.
pub fn send_circuit<S: Sink>(sink: &mut S, binary: bool, circuit: &Circuit) -> Status
    ensures { IsSent S.Sink sink.old sink.new (circuit_text binary circuit.now) 0 3 result }
{
    let sent = write_circuit(circuit, binary, sink);
    finish_sent(sink, sent, 0)
}

/// Sends the line for a circuit that was not made, and returns the status: 4, or 3 if the sink
/// failed.
pub fn send_no_circuit<S: Sink>(sink: &mut S) -> Status
    ensures { IsReportedTo S.Sink sink.old sink.new no_circuit result }
{
    let sent = put_bytes(sink, b"NO CIRCUIT\n");
    finish_sent(sink, sent, 4)
}
