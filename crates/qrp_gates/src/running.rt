//! A job from its sources to its streams.

ghost use Rattle.std.specs.Prelude.{◌≡◌, List, ℕ, Bool, Some, Result};
ghost use Rattle.qrp_check.specs.Checked.{call_of};
ghost use Rattle.qrp_rules.specs.declared.rules.Rules.{Rules};
ghost use Rattle.circuit_names.specs.Symbols.{named_text};
ghost use Rattle.qrp_program.specs.Output.{Report, IsReported, IsReportedTo, IsSent};
ghost use Rattle.gate_verify.specs.Checked.{IsChecked, StopsOnceRead};
ghost use Rattle.gate_verify.specs.Made.{AreMade};
ghost use Rattle.gate_strategy.specs.Strategies.{IsOfVerdict};
ghost use Rattle.gate_strategy.specs.declared.fault.GateStrategyFault.{GateStrategyFault};
ghost use Rattle.qcir.specs.Reading.{Question};
ghost use Rattle.qrp_winner.specs.declared.strategy.Strategy.{Strategy};
ghost use Rattle.qrp_gates.specs.declared.job.Job.TheVariants as jobs;
ghost use Rattle.qrp_gates.specs.declared.job.Job.TheVariants.{Check, Clauses};
ghost use Rattle.qrp_gates.specs.Output.{IsOutput, check_report, clauses_report, strategy_report};
ghost use Rattle.qrp_gates.specs.Output.{PrintsVerdict, WritesClauses, WritesStrategy};

use crate::job::Job;
use crate::lines::send_refusal;
use aiger::Circuit;
use circuit_cli::send_no_circuit;
use circuit_names::write_named_circuit;
use gate_strategy::{GateStrategyFault, find_gate_strategy};
use gate_verify::{Unverified, read_in_clauses, verify_question};
use qbf_core::Formula;
use qbf_text::{Sink, Source};
use qcir::{Question, read_bytes};
use qrp_check::{CheckFault, Fault, Rules};
use qrp_cli::{send_formula, send_verdict};
use qrp_program::{Sources, Status, Streams, finish_sent};
use qrp_winner::Strategy;
use std::alloc::Global;

/// Sends the line of the verdict, or for the first fault.
fn send_checked<O: Sink>(out: &mut O, checked: Result<bool, Unverified>) -> Status
    ensures { (rules : Rules)
        → IsReportedTo O.Sink out.old out.new (check_report rules checked) result }
{
    match checked {
        Ok(truth) => send_verdict(out, truth),
        Err(fault) => send_refusal(out, fault),
    }
}

/// Sends the text of the clauses to `out`, or the line for the first fault to `err`.
fn send_clauses<O: Sink, E: Sink>(
    streams: &mut Streams<O, E>,
    made: Result<Formula, Unverified>,
) -> Status
    ensures { IsReported O.Sink E.Sink streams.old streams.new (clauses_report made) result }
{
    match made {
        Ok(formula) => send_formula(&mut streams.out, &formula),
        Err(fault) => send_refusal(&mut streams.err, fault),
    }
}

/// Sends the text of a circuit in AIGER's binary format, or in its ASCII format, with the names of a
/// formula of gates, and returns the status: 0, or 3 if the sink failed.
fn send_named<S: Sink>(sink: &mut S, binary: bool, question: &Question, circuit: &Circuit) -> Status
    ensures { IsSent S.Sink sink.old sink.new
        (named_text binary question.now.names circuit.now) 0 3 result }
{
    let sent = write_named_circuit(circuit, question, binary, sink);
    finish_sent(sink, sent, 0)
}

/// Sends the circuit to `out`, or the line for the refusal to `err`.
fn send_strategy<O: Sink, E: Sink>(
    streams: &mut Streams<O, E>,
    binary: bool,
    found: Result<(Question, Strategy), GateStrategyFault>,
) -> Status
    ensures { IsReported O.Sink E.Sink streams.old streams.new
        (strategy_report binary found.entry) result }
{
    let Streams { out, err } = streams;
    match found {
        Ok((question, strategy)) => send_named(out, binary, &question, &strategy.circuit),
        Err(GateStrategyFault::Check(fault)) => send_refusal(err, fault),
        Err(GateStrategyFault::NoMemory) => {
            send_refusal(err, Unverified::Proof(Fault::Check(CheckFault::C5)))
        }
        Err(GateStrategyFault::NoCircuit) => send_no_circuit(err),
    }
}

/// Reads the formula of gates and the trace, and writes the circuit of the winner to `out`, or a
/// refusal to `err`.
fn run_strategy<F: Source, T: Source, O: Sink, E: Sink>(
    alloc: Global,
    wanted: (Rules, bool),
    sources: &mut Sources<F, T>,
    streams: &mut Streams<O, E>,
) -> Status
    ensures { (found : Result (Question × Strategy) GateStrategyFault)
        × IsOfVerdict wanted.0 (call_of F.Source sources.old.formula sources.new.formula)
        (call_of T.Source sources.old.trace sources.new.trace) found
        × IsReported O.Sink E.Sink streams.old streams.new
        (strategy_report wanted.1 found) result }
{
    let (rules, binary) = wanted;
    match read_bytes(alloc, &mut sources.formula) {
        Ok(text) => {
            let found = find_gate_strategy(alloc, &text, &mut sources.trace, rules);
            send_strategy(streams, binary, found)
        }
        Err(fault) => send_refusal(&mut streams.err, Unverified::Question(fault, 0)),
    }
}

/// Does a job: reads the formula of gates and, if the job asks for it, the trace, and writes the
/// report to one of the streams.
///
/// If the bytes of the sources are known, the report is the one for what they spell. A source
/// that fails is reported in a line with status 3, out of memory in a line with status 4, on the
/// stream that takes the refusals of the job: `out` for `Check`, `err` for the others. The other
/// stream gets nothing. If the stream of the report fails, in a write or in `finish`, the status is
/// 3 and a beginning of the text went out. For `Clauses`, and unless the clauses are made, the trace is
/// not pulled. Once a trace was read, nothing is read past the separator after its result word but
/// at most 4,096 bytes.
pub fn run<F: Source, T: Source, O: Sink, E: Sink>(
    alloc: Global,
    job: Job,
    sources: &mut Sources<F, T>,
    streams: &mut Streams<O, E>,
) -> Status
    ensures report { (r : Report)
        × IsOutput job
        (call_of F.Source sources.old.formula sources.new.formula)
        (call_of T.Source sources.old.trace sources.new.trace) r
        × IsReported O.Sink E.Sink streams.old streams.new r result }
    // The text that `check` prints with status 0 is the line of a verdict for which the headline
    // holds.
    ensures headline { (rules : Rules) (a b : List ℕ) → job ≡ Check rules
        → F.remaining sources.old.formula ≡ Some a → T.remaining sources.old.trace ≡ Some b
        → result ≡ 0 → PrintsVerdict O.Sink streams.old.out streams.new.out rules a b }
    // The text that `clauses` prints with status 0 is that of the clauses of the formula of gates
    // that the bytes spell.
    ensures clauses { (a : List ℕ) → job ≡ Clauses → F.remaining sources.old.formula ≡ Some a
        → result ≡ 0 → WritesClauses O.Sink streams.old.out streams.new.out a }
    // The text that `strategy` prints with status 0 is that of a circuit by which the winner of the
    // formula of gates wins, with the names that the bytes give to its variables.
    ensures strategy { (rules : Rules) (binary : Bool) (a b : List ℕ) → job ≡ jobs.Strategy rules binary
        → F.remaining sources.old.formula ≡ Some a → T.remaining sources.old.trace ≡ Some b
        → result ≡ 0 → WritesStrategy O.Sink streams.old.out streams.new.out binary a b }
    ensures not_pulled { job ≡ Clauses → sources.new.trace ≡ sources.old.trace }
{
    match job {
        Job::Clauses => send_clauses(streams, read_in_clauses(alloc, &mut sources.formula)),
        Job::Strategy(rules, binary) => run_strategy(alloc, (rules, binary), sources, streams),
        Job::Check(rules) => {
            let Sources { formula, trace } = sources;
            let checked = verify_question(alloc, formula, trace, rules);
            send_checked(&mut streams.out, checked)
        }
    }
}
