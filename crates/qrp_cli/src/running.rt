//! A job from its sources to its streams.

ghost use Rattle.std.specs.Prelude.{◌≡◌, ◌<◌, List, ℕ, Some, Result, IfOk, length};
ghost use Rattle.std.specs.List.{AllByRecursion};
ghost use Rattle.qbf_core.specs.Qbf.{Qbf};
ghost use Rattle.qdimacs.specs.declared.fault.FormulaFault.{FormulaFault};
ghost use Rattle.qdimacs.specs.Grammar.{text};
ghost use Rattle.qrp.specs.Grammar.{text as trace_text};
ghost use Rattle.qrp_check.specs.Checked.{IsChecked, StopsOnceRead, call_of, truth_of};
ghost use Rattle.qrp_check.specs.declared.verdict.Fault.{Fault};
ghost use Rattle.trace_check.specs.declared.verified.Verified.{Verified};
ghost use Rattle.trace_check.specs.Trim.{trimmed_trace};
ghost use Rattle.qrp_report.specs.Lines.{verdict_line};
ghost use Rattle.qrp_report.specs.Results.{IsFormulaRead, IsTrimmed};
ghost use Rattle.qrp_rules.specs.declared.rules.Rules.{Rules};
ghost use Rattle.qrp_cli.specs.declared.job.Job.TheVariants.{Check, Format};
ghost use Rattle.qrp_cli.specs.Output.{IsOutput};
ghost use Rattle.qrp_cli.specs.Output.{check_report, trim_report, trimmed_result, format_report};
ghost use Rattle.qrp_cli.specs.Output.{PrintsVerdict};
ghost use Rattle.qrp_program.specs.Output.{Report, IsSent, IsReported, IsReportedTo};

use crate::job::Job;
use qbf_core::Formula;
use qbf_text::{Sink, Source};
use qdimacs::{read_formula, write_formula};
use qrp::write_steps_at;
use qrp_check::{Fault, Rules, Verified, find_proof, find_truth};
use qrp_program::{Sources, Status, Streams, finish_sent, send_fault};
use qrp_report::put_verdict;
use std::alloc::Global;
use trace_items::CompactTrace;

/// Sends the canonical text of a formula, and returns the status: 0, or 3 if the sink failed.
pub fn send_formula<S: Sink>(sink: &mut S, formula: &Formula) -> Status
    ensures { IsSent S.Sink sink.old sink.new (text formula.now) 0 3 result }
{
    let sent = write_formula(formula, sink);
    finish_sent(sink, sent, 0)
}

/// Sends the line of a verdict, and returns the status: 0, or 3 if the sink failed.
pub fn send_verdict<S: Sink>(sink: &mut S, truth: bool) -> Status
    ensures { IsSent S.Sink sink.old sink.new (verdict_line truth) 0 3 result }
{
    let sent = put_verdict(sink, truth);
    finish_sent(sink, sent, 0)
}

/// Sends the canonical text of a trace without the steps outside the core.
fn send_trimmed<S: Sink>(sink: &mut S, trace: &CompactTrace, verified: &Verified) -> Status
    requires { AllByRecursion (λ i. i < length trace.now.steps) verified.now.core.items }
    ensures { IsSent S.Sink sink.old sink.new
        (trace_text (trimmed_trace trace.now verified.now.core.items)) 0 3 result }
{
    let sent = write_steps_at(trace, &verified.core, sink);
    finish_sent(sink, sent, 0)
}

/// Sends the line of the verdict, or for the first fault.
fn send_checked<O: Sink>(out: &mut O, checked: Result<bool, Fault>) -> Status
    ensures { (rules : Rules) (verdict : Result Verified Fault) → checked ≡ truth_of verdict
        → IsReportedTo O.Sink out.old out.new (check_report rules verdict) result }
{
    match checked {
        Ok(truth) => send_verdict(out, truth),
        Err(fault) => send_fault(out, &fault),
    }
}

/// Sends the trimmed trace to `out`, or the line for the first fault to `err`.
fn send_proof<O: Sink, E: Sink>(
    streams: &mut Streams<O, E>,
    proof: Result<(CompactTrace, Verified), Fault>,
) -> Status
    requires within { IfOk proof (λ r.
        AllByRecursion (λ i. i < length r.0.steps) r.1.core.items) }
    ensures { (rules : Rules) → IsReported O.Sink E.Sink streams.old streams.new
        (trim_report rules (trimmed_result proof)) result }
{
    match proof {
        Ok((whole, verified)) => send_trimmed(&mut streams.out, &whole, &verified),
        Err(fault) => send_fault(&mut streams.err, &fault),
    }
}

/// Does the job `Check`: sends the line of the verdict, or for the first fault, to `out`.
fn run_check<F: Source, T: Source, O: Sink>(
    alloc: Global,
    rules: Rules,
    sources: &mut Sources<F, T>,
    out: &mut O,
) -> Status
    ensures report { (checked : Result Verified Fault)
        × IsChecked rules (call_of F.Source sources.old.formula sources.new.formula)
        (call_of T.Source sources.old.trace sources.new.trace) checked
        × StopsOnceRead (T.remaining sources.old.trace) (T.remaining sources.new.trace) checked
        × IsReportedTo O.Sink out.old out.new (check_report rules checked) result }
    ensures headline { (a b : List ℕ) → F.remaining sources.old.formula ≡ Some a
        → T.remaining sources.old.trace ≡ Some b → result ≡ 0
        → PrintsVerdict O.Sink out.old out.new rules a b }
{
    let checked = find_truth(alloc, &mut sources.formula, &mut sources.trace, rules);
    send_checked(out, checked)
}

/// The proof that the job `Trim` sends without the steps outside the core, or the first fault.
#[tactic(auto, using(crate::proofs::ProgramReport::trimmed_stops))]
fn find_trimmed<F: Source, T: Source>(
    alloc: Global,
    rules: Rules,
    sources: &mut Sources<F, T>,
) -> Result<(CompactTrace, Verified), Fault>
    ensures trims { IsTrimmed rules (call_of F.Source sources.old.formula sources.new.formula)
        (call_of T.Source sources.old.trace sources.new.trace) (trimmed_result result) }
    ensures stops { StopsOnceRead (T.remaining sources.old.trace) (T.remaining sources.new.trace)
        (trimmed_result result) }
    ensures within { IfOk result (λ r.
        AllByRecursion (λ i. i < length r.0.steps) r.1.core.items) }
{
    find_proof(alloc, &mut sources.formula, &mut sources.trace, rules)
}

/// Does the job `Format`: sends the canonical text to `out`, or the line for the fault to `err`.
fn run_format<F: Source, O: Sink, E: Sink>(
    alloc: Global,
    formula: &mut F,
    streams: &mut Streams<O, E>,
) -> Status
    ensures { (reading : Result Qbf (FormulaFault × ℕ))
        × IsFormulaRead (call_of F.Source formula.old formula.new) reading
        × IsReported O.Sink E.Sink streams.old streams.new (format_report reading) result }
{
    match read_formula(alloc, formula) {
        Ok(read) => send_formula(&mut streams.out, &read),
        Err((fault, line)) => send_fault(&mut streams.err, &Fault::Formula(fault, line)),
    }
}

/// Does a job: reads the formula and, if the job asks for it, the trace, and writes the report
/// to one of the streams.
///
/// If the bytes of the sources are known, the report is the one for what they spell. A source
/// that fails is reported in a line with status 3, out of memory in a line with status 4, on the
/// stream that takes the refusals of the job: `out` for `Check`, `err` for the others. The other
/// stream gets nothing. If the stream of the report fails, in a write or in `finish`, the status is
/// 3 and a beginning of the text went out. For `Format`, and with a fault of the formula, the trace is
/// not pulled. Once a trace was read, nothing is read past the separator after its result word but
/// at most 4,096 bytes.
pub fn run<F: Source, T: Source, O: Sink, E: Sink>(
    alloc: Global,
    job: Job,
    sources: &mut Sources<F, T>,
    streams: &mut Streams<O, E>,
) -> Status
    ensures report { (r : Report)
        × IsOutput job
        (call_of F.Source sources.old.formula sources.new.formula)
        (call_of T.Source sources.old.trace sources.new.trace) r
        × IsReported O.Sink E.Sink streams.old streams.new r result }
    // The text that `check` prints with status 0 is the line of a verdict for which the headline
    // holds.
    ensures headline { (rules : Rules) (a b : List ℕ) → job ≡ Check rules
        → F.remaining sources.old.formula ≡ Some a → T.remaining sources.old.trace ≡ Some b
        → result ≡ 0 → PrintsVerdict O.Sink streams.old.out streams.new.out rules a b }
    ensures not_pulled { job ≡ Format → sources.new.trace ≡ sources.old.trace }
{
    match job {
        Job::Check(rules) => run_check(alloc, rules, sources, &mut streams.out),
        Job::Trim(rules) => send_proof(streams, find_trimmed(alloc, rules, sources)),
        Job::Format => run_format(alloc, &mut sources.formula, streams),
    }
}
