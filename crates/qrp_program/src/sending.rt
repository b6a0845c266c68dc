//! How a report goes out.

ghost use Rattle.std.specs.Prelude.{List, ℕ};
ghost use Rattle.qbf_text.specs.Written.{IsPut};
ghost use Rattle.qrp_program.specs.Output.{IsSent};
ghost use Rattle.qrp_report.specs.Lines.{fault_line};
ghost use Rattle.qrp_report.specs.Refusals.{fault_status};

use qbf_text::{Sink, SinkFault};
use qrp_check::Fault;
use qrp_report::{Refusal, put_refusal};

/// The status of a program: 0 done, 1 the proof is refused, 2 a text is refused, 3 a device
/// failed, 4 an allocation failed, 5 the words are not a command line of the usage.
pub type Status = u8;

/// The status if a device failed.
const DEVICE_FAILED: Status = 3;

/// Finishes a sink if the text that was to go out to it did, and returns the status.
pub fn finish_sent<S: Sink>(sink: &mut S, sent: Result<(), SinkFault>, status: Status) -> Status
    ensures { (before : S) (text : List ℕ)
        → IsPut S.written S.failures S.failed_last before sink.old text sent
        → IsSent S.Sink before sink.new text status 3 result }
{
    match sent {
        Ok(()) => match sink.finish() {
            Ok(()) => status,
            Err(_) => DEVICE_FAILED,
        },
        Err(_) => DEVICE_FAILED,
    }
}

/// Sends the line for a fault.
pub fn send_fault<S: Sink>(sink: &mut S, fault: &Fault) -> Status
    ensures { IsSent S.Sink sink.old sink.new (fault_line fault.now)
        (fault_status fault.now) 3 result }
{
    let refusal = Refusal::of(fault);
    let sent = put_refusal(sink, &refusal);
    finish_sent(sink, sent, refusal.status())
}
