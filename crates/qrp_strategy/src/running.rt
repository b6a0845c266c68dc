//! From two sources to two streams.

ghost use Rattle.std.specs.Prelude.{◌≡◌, List, ℕ, Some};
ghost use Rattle.qrp_check.specs.Checked.{call_of};
ghost use Rattle.qrp_program.specs.Output.{IsReported, Report};
ghost use Rattle.qrp_strategy.specs.Output.{IsOutput, WritesWinner, strategy_report};

use crate::task::Task;
use circuit_cli::{send_circuit, send_no_circuit};
use qbf_text::{Sink, Source};
use qrp_check::{CheckFault, Fault};
use qrp_program::{Sources, Status, Streams, send_fault};
use qrp_winner::{Strategy, StrategyFault, find_strategy};
use std::alloc::Global;

/// Sends the circuit to `out`, or the line for the refusal to `err`.
fn send_strategy<O: Sink, E: Sink>(
    streams: &mut Streams<O, E>,
    binary: bool,
    found: Result<Strategy, StrategyFault>,
) -> Status
    ensures { IsReported O.Sink E.Sink streams.old streams.new
        (strategy_report binary found) result }
{
    let Streams { out, err } = streams;
    match found {
        Ok(strategy) => send_circuit(out, binary, &strategy.circuit),
        Err(StrategyFault::Check(fault)) => send_fault(err, &fault),
        Err(StrategyFault::NoMemory) => send_fault(err, &Fault::Check(CheckFault::C5)),
        Err(StrategyFault::NoCircuit) => send_no_circuit(err),
    }
}

/// Reads a formula and a trace, and writes the circuit of the winner to `out`, or a refusal to
/// `err`. The other stream gets nothing.
///
/// If the bytes of both sources are known and the status is 0, what went out to `out` is the text
/// of a circuit by which the winner wins. A source that fails is reported in a line with status 3,
/// out of memory in a line with status 4. If the stream of the report fails, in a write or in
/// `finish`, the status is 3 and a beginning of the text went out.
pub fn run<F: Source, T: Source, O: Sink, E: Sink>(
    alloc: Global,
    task: Task,
    sources: &mut Sources<F, T>,
    streams: &mut Streams<O, E>,
) -> Status
    ensures report { (r : Report)
        × IsOutput task (call_of F.Source sources.old.formula sources.new.formula)
        (call_of T.Source sources.old.trace sources.new.trace) r
        × IsReported O.Sink E.Sink streams.old streams.new r result }
    ensures headline { (a b : List ℕ) → F.remaining sources.old.formula ≡ Some a
        → T.remaining sources.old.trace ≡ Some b → result ≡ 0
        → WritesWinner O.Sink streams.old.out streams.new.out task.binary a b }
{
    let found = find_strategy(alloc, &mut sources.formula, &mut sources.trace, task.rules);
    send_strategy(streams, task.binary, found)
}
