//! Writing the canonical text of a trace.

ghost use Rattle.std.specs.Prelude.{◌≡◌, ◌<◌, ◌∷◌, ◌++◌, Ok, length};
ghost use Rattle.std.proofs.Props.{props};
ghost use Rattle.std.specs.List.{AllByRecursion, flat_map};
ghost use Rattle.qbf_tokens.specs.Canonical.{line_text, spaced_number};
ghost use Rattle.qbf_text.specs.Written.{IsPut};
ghost use Rattle.trace_items.specs.Antecedents.{listed};
ghost use Rattle.trace_items.specs.Derivations.{steps_at, with_steps_at};
ghost use Rattle.qrp.specs.Framed.{framed};
ghost use Rattle.qrp.specs.Grammar.{header, result as result_line, text};
ghost use Rattle.trace_items.specs.Inferences.{Inference, IsAt};
ghost use Rattle.qrp.specs.Reading.{read_trace};
ghost use Rattle.dimacs_syntax.specs.Texts.{closing, literal_text, set_text};
ghost use Rattle.qrp.specs.Texts.{step_text, steps_text};

use dimacs_syntax::{Bare, Bytes, HeaderLine, Put};
use qbf_core::{LitsLeft, Quantifier, Var};
use qbf_text::{Sink, SinkFault, put_bytes};
use trace_items::{
    Antecedents, CompactTrace, Header, KeptSets, KeptSteps, LentSets, LentSteps, Outcome, Trace,
};

/// The line of a set with this quantifier and these variables.
#[inline(always)]
fn put_set<K: Sink>(sink: &mut K, quantifier: Quantifier, vars: &[Var]) -> Result<(), SinkFault>
    ensures { IsPut K.written K.failures K.failed_last sink.old sink.new
        (set_text (record { quantifier = quantifier; vars = vars.now })) result }
{
    (quantifier, (vars, Bytes(b" 0\n"))).put(sink)
}

/// The lines of sets.
#[derive(Clone, Copy)]
struct SetLines<'a, T: KeptSets>(&'a T);

impl<'a, T: KeptSets> Put for SetLines<'a, T> {
    ghost text = { λ s. flat_map set_text (T.sets s.0.now) };

    fn put<K: Sink>(&self, sink: &mut K) -> Result<(), SinkFault> {
        for place in 0..self.0.len() {
            let (quantifier, vars) = self.0.get(place);
            put_set(sink, quantifier, vars)?;
        }
        Ok(())
    }
}

/// The line of a result.
#[derive(Clone, Copy)]
struct ResultLine(Outcome);

impl Put for ResultLine {
    ghost text = { λ r. line_text (result_line r.0) };

    fn put<K: Sink>(&self, sink: &mut K) -> Result<(), SinkFault> {
        match self.0 {
            Outcome::Sat => put_bytes(sink, b"r sat\n"),
            Outcome::Unsat => put_bytes(sink, b"r unsat\n"),
        }
    }
}

/// Literals, read four at a time as long as they lie so, and then one by one.
#[inline(always)]
fn put_lits<K: Sink>(sink: &mut K, lits: LitsLeft) -> Result<(), SinkFault>
    ensures { IsPut K.written K.failures K.failed_last sink.old sink.new
        (flat_map literal_text lits.entry) result }
{
    let mut left = lits;
    'fours: while let Some(four) = left.next_four() {
        four.put(sink)?;
    }
    'literals: while let Some(lit) = left.next() {
        lit.put(sink)?;
    }
    Ok(())
}

/// The rest of the line of a step after its literals, with these antecedents.
#[inline(always)]
fn put_rest<K: Sink>(sink: &mut K, ants: &[u64]) -> Result<(), SinkFault>
    ensures { IsPut K.written K.failures K.failed_last sink.old sink.new
        (32 ∷ 48 ∷ (flat_map spaced_number ants.now ++ closing)) result }
{
    (Bytes(b" 0"), (ants, Bytes(b" 0\n"))).put(sink)
}

/// The same, however the antecedents are kept.
#[inline(always)]
fn put_ants<K: Sink>(sink: &mut K, ants: Antecedents) -> Result<(), SinkFault>
    ensures { IsPut K.written K.failures K.failed_last sink.old sink.new
        (32 ∷ 48 ∷ (flat_map spaced_number (listed ants) ++ closing)) result }
{
    match ants {
        Antecedents::Empty => put_rest(sink, &[]),
        Antecedents::One(only) => put_rest(sink, &[only]),
        Antecedents::Two(first, second) => put_rest(sink, &[first, second]),
    }
}

/// The literals of a step, and the rest of its line.
#[inline(always)]
fn put_lists<K: Sink>(sink: &mut K, lits: LitsLeft, ants: Antecedents) -> Result<(), SinkFault>
    ensures { IsPut K.written K.failures K.failed_last sink.old sink.new
        (flat_map literal_text lits.entry
        ++ (32 ∷ 48 ∷ (flat_map spaced_number (listed ants) ++ closing))) result }
{
    put_lits(sink, lits)?;
    put_ants(sink, ants)
}

/// The line of a step with this number, these literals and these antecedents.
#[inline(always)]
fn put_line<K: Sink>(
    sink: &mut K,
    number: u64,
    lits: LitsLeft,
    ants: Antecedents,
) -> Result<(), SinkFault>
    ensures { IsPut K.written K.failures K.failed_last sink.old sink.new
        (step_text (record { number = number; lits = lits.entry; ants = listed ants })) result }
{
    Bare(false, number).put(sink)?;
    put_lists(sink, lits, ants)
}

/// The line of a step.
#[inline(always)]
fn put_step<K: Sink, T: KeptSteps>(
    sink: &mut K,
    trace: &T,
    position: usize,
) -> Result<(), SinkFault>
    requires { position < length (T.steps trace.now) }
    ensures { (step : Inference) → IsAt (T.steps trace.now) position step
        → IsPut K.written K.failures K.failed_last sink.old sink.new (step_text step) result }
{
    let (number, lits) = (trace.number(position), trace.lits_left(position));
    put_line(sink, number, lits, trace.antecedents(position))
}

/// The lines of all steps.
#[derive(Clone, Copy)]
struct StepLines<'a, T: KeptSteps>(&'a T);

impl<'a, T: KeptSteps> Put for StepLines<'a, T> {
    ghost text = { λ s. steps_text (T.steps s.0.now) };

    fn put<K: Sink>(&self, sink: &mut K) -> Result<(), SinkFault> {
        for position in 0..self.0.len() {
            put_step(sink, self.0, position)?;
        }
        Ok(())
    }
}

/// The lines of the steps at these positions.
#[derive(Drop)]
struct StepLinesAt<'a, T: KeptSteps> {
    trace: &'a T,
    positions: &'a [usize],
    ghost inside: { AllByRecursion (λ i. i < length (T.steps trace.now)) positions.now } by { Prim.hlevel props },
}

impl<'a, T: KeptSteps> Put for StepLinesAt<'a, T> {
    ghost text = { λ s. steps_text (steps_at (T.steps s.trace.now) s.positions.now) };

    fn put<K: Sink>(&self, sink: &mut K) -> Result<(), SinkFault> {
        for position in self.positions {
            put_step(sink, self.trace, *position)?;
        }
        Ok(())
    }
}

/// Writes the canonical text of the trace in the text form of QRP, and does not `finish` the sink.
/// It takes no memory.
///
/// The lines are the header, each set, each step with its literals and antecedents as kept, and the
/// result. Parts of a line are separated by one blank, numbers are decimal without leading zeros,
/// and each line ends with byte 10. Reading the text gives the trace.
///
/// # Errors
/// A `SinkFault` if the sink failed. A beginning of the text went out then.
#[tactic(auto, using(crate::proofs::ReadingLaws::text_is_read))]
pub fn write_trace<K: Sink>(trace: &Trace, sink: &mut K) -> Result<(), SinkFault>
    ensures put { IsPut K.written K.failures K.failed_last
        sink.old sink.new (text trace.now) result }
    // Reading the text gives the trace.
    ensures reads_back { read_trace (text trace.now) ≡ Ok trace.now }
{
    let Header { vars, steps } = trace.header();
    let header = HeaderLine(b"p qrp", vars, steps);
    let (sets, steps) = (LentSets(trace.sets()), LentSteps(trace));
    let result = ResultLine(trace.result());
    (header, (SetLines(&sets), (StepLines(&steps), result))).put(sink)
}

/// What the text of a trace with no sets has beside its steps.
#[derive(Clone, Copy, Debug, PartialEq, Eq)]
pub struct Frame {
    /// The number of variables in its header.
    pub vars: u64,
    /// The claim about its formula.
    pub result: Outcome,
}

/// The header of the text of a trace with this frame and so many steps.
fn framed_header<'a>(frame: Frame, steps: usize) -> HeaderLine<'a>
    ensures { ⟦<HeaderLine<'a> as Put>⟧.text result
        ≡ line_text (header (record { vars = frame.vars; steps = steps })) }
{
    HeaderLine(b"p qrp", frame.vars, steps as u64)
}

/// Writes the canonical text of a trace with this frame, no sets, and the steps of this one, which
/// the header counts, as `write_trace` does. It takes no memory.
///
/// # Errors
/// As of `write_trace`.
#[tactic(auto, using(crate::proofs::ReadingLaws::framed_is_read))]
pub fn write_framed<K: Sink>(trace: &Trace, frame: Frame, sink: &mut K) -> Result<(), SinkFault>
    ensures put { IsPut K.written K.failures K.failed_last
        sink.old sink.new (text (framed frame trace.now.steps)) result }
    // Reading the text gives this trace.
    ensures reads_back { read_trace (text (framed frame trace.now.steps))
        ≡ Ok (framed frame trace.now.steps) }
{
    // The result of a trace shows what holds of every trace.
    let _ = trace.result();
    let kept = LentSteps(trace);
    let header = framed_header(frame, kept.len());
    (header, (StepLines(&kept), ResultLine(frame.result))).put(sink)
}

/// Writes the same with only the steps at these positions, each below the number of steps.
///
/// # Errors
/// As of `write_trace`.
pub fn write_framed_at<K: Sink>(
    trace: &Trace,
    frame: Frame,
    positions: &[usize],
    sink: &mut K,
) -> Result<(), SinkFault>
    requires { AllByRecursion (λ i. i < length trace.now.steps) positions.now }
    ensures { IsPut K.written K.failures K.failed_last sink.old sink.new
        (text (with_steps_at (framed frame trace.now.steps) positions.now)) result }
{
    let kept = LentSteps(trace);
    let header = framed_header(frame, positions.len());
    let lines = StepLinesAt {
        trace: &kept,
        positions,
    };
    (header, (lines, ResultLine(frame.result))).put(sink)
}

/// The header with this number of steps in place of its own.
fn counted(header: Header, steps: usize) -> Header
    ensures { result ≡ record header { steps = steps } }
{
    Header {
        vars: header.vars,
        steps: steps as u64,
    }
}

/// Writes the canonical text of a trace with only the steps at these positions, as `write_trace`
/// does. It takes no memory.
///
/// Sets, result and the number of variables in the header stay as they are; the header counts the
/// positions. Each position is below the number of steps, and one that is named twice is written
/// twice.
///
/// # Errors
/// A `SinkFault` if the sink failed. A beginning of the text went out then.
pub fn write_steps_at<K: Sink>(
    trace: &CompactTrace,
    positions: &[usize],
    sink: &mut K,
) -> Result<(), SinkFault>
    requires { AllByRecursion (λ i. i < length trace.now.steps) positions.now }
    ensures { IsPut K.written K.failures K.failed_last sink.old sink.new
        (text (with_steps_at trace.now positions.now)) result }
{
    let Header { vars, steps } = counted(trace.header(), positions.len());
    let header = HeaderLine(b"p qrp", vars, steps);
    let lines = StepLinesAt { trace, positions };
    let result = ResultLine(trace.result());
    (header, (SetLines(trace.sets()), (lines, result))).put(sink)
}
