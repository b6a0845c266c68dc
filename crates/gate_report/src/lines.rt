//! The lines and the statuses of refusals.

ghost use Rattle.std.specs.Prelude.{◌≡◌};
ghost use Rattle.qbf_text.specs.Written.{IsPut};
ghost use Rattle.gate_report.specs.Lines.{gate_line, unverified_line};
ghost use Rattle.gate_report.specs.Refusals.{unverified_status};

use crate::refusal::GateRefusal;
use gate_verify::Unverified;
use qbf_text::{Sink, SinkFault, put_bytes};
use qrp_report::{Refusal, put_numbers_line, put_refusal};

/// Sends the line for a refusal of a formula of gates.
///
/// # Errors
/// If the sink failed. A beginning of the line went out then.
pub fn put_gate_refusal<S: Sink>(sink: &mut S, refusal: &GateRefusal) -> Result<(), SinkFault>
    ensures { IsPut S.written S.failures S.failed_last
        sink.old sink.new (gate_line refusal.now) result }
{
    match refusal.number {
        1 => put_bytes(sink, b"DEVICE formula\n"),
        11 => put_bytes(sink, b"NO MEMORY\n"),
        13 => put_bytes(sink, b"NO CLAUSES\n"),
        number => put_numbers_line(
            sink,
            (b"REFUSED formula Q", number as u64),
            (b" line ", refusal.line),
        ),
    }
}

/// Sends the line for why no formula of gates was verified.
///
/// # Errors
/// If the sink failed. A beginning of the line went out then.
pub fn put_unverified<S: Sink>(sink: &mut S, fault: &Unverified) -> Result<(), SinkFault>
    ensures { IsPut S.written S.failures S.failed_last
        sink.old sink.new (unverified_line fault.now) result }
{
    match *fault {
        Unverified::Question(fault, line) => {
            put_gate_refusal(sink, &GateRefusal::of_question(fault, line))
        }
        Unverified::TooLong => put_gate_refusal(sink, &GateRefusal::too_long()),
        Unverified::Proof(fault) => put_refusal(sink, &Refusal::of(&fault)),
    }
}

/// The status that the program ends with if no formula of gates was verified.
pub fn unverified_status(fault: &Unverified) -> u8
    ensures { result ≡ unverified_status fault.now }
{
    match *fault {
        Unverified::Question(fault, line) => GateRefusal::of_question(fault, line).status(),
        Unverified::TooLong => GateRefusal::too_long().status(),
        Unverified::Proof(fault) => Refusal::of(&fault).status(),
    }
}
