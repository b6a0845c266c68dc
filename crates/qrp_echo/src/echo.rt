//! A trace from its source to a sink.

ghost use Rattle.std.specs.Prelude.{◌≡◌, Result, IfOk, IfErr};
ghost use Rattle.trace_items.specs.Derivations.{Derivation};
ghost use Rattle.qrp.specs.Grammar.{text};
ghost use Rattle.qrp.specs.Reading.{Fault};
ghost use Rattle.qrp_echo.specs.Echoed.{IsRead, IsEchoed, status_of};

use qbf_text::{Sink, Source};
use qrp::{TraceFault, read_trace, write_trace};
use std::alloc::Global;
use trace_items::Trace;

/// The status of the program: 0 done, 1 not a trace, 3 a device failed, 4 an allocation
/// failed.
pub type Status = u8;

/// The status if a device failed.
const DEVICE_FAILED: Status = 3;

/// The status for a fault.
fn status_of(fault: TraceFault) -> Status
    ensures { result ≡ status_of fault }
{
    match fault {
        TraceFault::P1 => DEVICE_FAILED,
        TraceFault::P9 => 4,
        _ => 1,
    }
}

/// Sends the canonical text of a trace.
fn send<K: Sink>(trace: &Trace, sink: &mut K) -> Status
    ensures { IsEchoed K.Sink sink.old sink.new (text trace.now) result }
{
    if write_trace(trace, sink).is_err() {
        return DEVICE_FAILED;
    }
    match sink.finish() {
        Ok(()) => 0,
        Err(_) => DEVICE_FAILED,
    }
}

/// Writes the canonical text of the trace that the source holds.
///
/// If there is a fault, nothing is written. If the sink fails, in a write or in `finish`, a
/// beginning of the text went out.
pub fn echo<S: Source, K: Sink>(alloc: Global, source: &mut S, sink: &mut K) -> Status
    ensures { (read : Result Derivation Fault)
        × IsRead (S.remaining source.old) (S.failures source.old) (S.failures source.new) read
        × IfOk read (λ d. IsEchoed K.Sink sink.old sink.new (text d) result)
        × IfErr read (λ e. (sink.new ≡ sink.old) × (result ≡ status_of e.0)) }
{
    match read_trace(alloc, source) {
        Ok(trace) => send(&trace, sink),
        Err((fault, _)) => status_of(fault),
    }
}
