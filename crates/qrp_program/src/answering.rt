//! From the command line to a run over files.

ghost use Rattle.std.specs.Prelude.{◌≡◌, [], Some, None, Ok, Err, map, IfOk, IfErr};
ghost use Rattle.std.specs.String.{string_bytes};
ghost use Rattle.qrp_program.specs.Lines.{start_line, start_status};
ghost use Rattle.qrp_program.specs.Output.{Report, IsSent, IsReported};
ghost use Rattle.qrp_program.specs.Program.{start_without_file, start_report};
ghost use Rattle.qrp_program.specs.Program.{IsOnBoth, IsOnFormula, IsOnFiles, IsOnOpened, IsProgram};
ghost use Rattle.qrp_program.specs.declared.open_fault.OpenFault.{OpenFault};
ghost use Rattle.qrp_program.specs.declared.stream.Stream.TheVariants.{Errors};

use crate::jobs::Jobs;
use crate::open::Open;
use crate::sending::Status;
use crate::sources::Sources;
use crate::start::Start;
use crate::stream::{Stream, Streams};
use qbf_text::{Sink, SliceSource, Source, put_bytes};
use std::alloc::Global;

/// Ends before a job begins. The status stays whether or not the line went out.
fn stop<S: Sink>(sink: &mut S, start: Start) -> Status
    ensures { IsSent S.Sink sink.old sink.new (start_line start) (start_status start)
        (start_status start) result }
{
    if put_bytes(sink, start.line().as_bytes()).is_ok() {
        let _ = sink.finish();
    }
    start.status()
}

/// Ends before a job begins. The line goes to this one of the streams.
fn refuse<O: Sink, E: Sink>(stream: Stream, start: Start, streams: &mut Streams<O, E>) -> Status
    ensures { IsReported O.Sink E.Sink streams.old streams.new (start_report stream start) result }
{
    match stream {
        Stream::Out => stop(&mut streams.out, start),
        Stream::Errors => stop(&mut streams.err, start),
    }
}

/// Opens a file.
///
/// # Errors
/// How the program ends if it is not opened; `no_file` if it cannot be.
fn open_file<F: Open>(files: &F, path: &str, no_file: Start) -> Result<F::File, Start>
    ensures file { IfOk result (λ f. F.opens files.now path.now (Ok (F.File.remaining f))) }
    ensures failures { IfOk result (λ f. F.File.failures f ≡ 0) }
    ensures refused { IfErr result (λ start. (e : OpenFault)
        × F.opens files.now path.now (Err e) × (start ≡ start_without_file no_file e)) }
{
    match files.open(path) {
        Ok(file) => Ok(file),
        Err(fault) => Err(fault.start(no_file)),
    }
}

/// Opens the files of a formula and a trace, the formula first.
///
/// # Errors
/// How the program ends if one of them is not opened.
fn open_both<J: Jobs, F: Open>(
    job: J,
    files: &F,
    formula: &str,
    trace: &str,
) -> Result<Sources<F::File, F::File>, Start>
    ensures opened { IfOk result (λ f. (r : Report)
        → IsOnBoth J.Jobs F.File.Source F.File.Source job f.formula f.trace r
        → IsOnFiles J.Jobs F.File.Source (F.opens files.now) job formula.now (Some trace.now) r) }
    ensures refused { IfErr result (λ start.
        IsOnFiles J.Jobs F.File.Source (F.opens files.now) job formula.now (Some trace.now)
        (start_report (J.refusals job) start)) }
{
    let formula = open_file(files, formula, Start::NoFormula)?;
    let trace = open_file(files, trace, Start::NoTrace)?;
    Ok(Sources { formula, trace })
}

/// Opens the file of a formula, for a job that has no trace.
///
/// # Errors
/// How the program ends if it is not opened.
fn open_formula<'a, J: Jobs, F: Open>(
    job: J,
    files: &F,
    path: &str,
) -> Result<Sources<F::File, SliceSource<'a>>, Start>
    ensures opened { IfOk result (λ f. (r : Report)
        → IsOnFormula J.Jobs F.File.Source job f.formula r
        → IsOnFiles J.Jobs F.File.Source (F.opens files.now) job path.now None r) }
    ensures no_trace { IfOk result (λ f. f.trace ≡ []) }
    ensures refused { IfErr result (λ start.
        IsOnFiles J.Jobs F.File.Source (F.opens files.now) job path.now None
        (start_report (J.refusals job) start)) }
{
    let formula = open_file(files, path, Start::NoFormula)?;
    let trace = SliceSource::new(&[]);
    Ok(Sources { formula, trace })
}

/// Does a job on the opened files, or reports why they are not opened.
fn run_opened<J: Jobs, F: Source, T: Source, O: Sink, E: Sink>(
    alloc: Global,
    job: J,
    opened: &mut Result<Sources<F, T>, Start>,
    streams: &mut Streams<O, E>,
) -> Status
    ensures { (r : Report)
        × IsOnOpened J.Jobs F.Source T.Source job opened.old opened.new r
        × IsReported O.Sink E.Sink streams.old streams.new r result }
{
    match opened {
        Ok(sources) => job.run(alloc, sources, streams),
        Err(start) => refuse(job.refused_on(), *start, streams),
    }
}

/// A whole program, but for where its arguments, its files and its streams come from: does what the
/// arguments ask for, over the files that they name, writes the report to one of the streams, and
/// returns the status.
///
/// If the arguments are not a command line of the usage, the line `USAGE` goes to `err` with status
/// 5. A file that cannot be opened is reported in a line with status 3, and out of memory while it
/// is opened in a line with status 4, where the refusals of the job go; the formula is opened
/// before the trace, and both before anything is read. If the arguments could not be read, the line
/// for the reason goes to `err`, with its status. These statuses stay whether or not the line went
/// out. Otherwise the report is that of the job.
pub fn program<J: Jobs, F: Open, O: Sink, E: Sink>(
    alloc: Global,
    files: &F,
    words: Result<Vec<String>, Start>,
    streams: &mut Streams<O, E>,
) -> Status
    ensures words { IfOk words (λ words. (r : Report)
        × IsProgram J.Jobs F.File.Source (F.opens files.now) (map (λ w. string_bytes w) words.items) r
        × IsReported O.Sink E.Sink streams.old streams.new r result) }
    ensures no_words { IfErr words (λ start. IsReported O.Sink E.Sink streams.old streams.new
        (start_report Errors start) result) }
{
    let words = match words {
        Ok(words) => words,
        Err(start) => return stop(&mut streams.err, start),
    };
    let texts = words.as_slice();
    let Some((job, formula, trace)) = J::request(texts) else {
        return stop(&mut streams.err, Start::Usage);
    };
    let formula = texts[formula].as_str();
    match trace {
        Some(trace) => {
            let mut opened = open_both(job, files, formula, texts[trace].as_str());
            run_opened(alloc, job, &mut opened, streams)
        }
        None => {
            let mut opened = open_formula(job, files, formula);
            run_opened(alloc, job, &mut opened, streams)
        }
    }
}
