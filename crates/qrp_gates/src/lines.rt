//! The lines of refusals.

ghost use Rattle.gate_report.specs.Lines.{unverified_line};
ghost use Rattle.gate_report.specs.Refusals.{unverified_status};
ghost use Rattle.qrp_program.specs.Output.{IsSent};

use gate_report::{put_unverified, unverified_status};
use gate_verify::Unverified;
use qbf_text::Sink;
use qrp_program::{Status, finish_sent};

/// Sends the line for a refusal, and returns its status.
pub(crate) fn send_refusal<S: Sink>(sink: &mut S, fault: Unverified) -> Status
    ensures { IsSent S.Sink sink.old sink.new (unverified_line fault) (unverified_status fault)
        3 result }
{
    let sent = put_unverified(sink, &fault);
    finish_sent(sink, sent, unverified_status(&fault))
}
