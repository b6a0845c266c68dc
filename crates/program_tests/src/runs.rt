//! Tests of a run beside the rows of `tests/*.rows`: single pulls and pushes, and those that fail.

use qbf_text::{FromRead, PieceOptions, PieceSink, PieceSource, SliceSource, VecSink};
use qrp_check::Rules;
use qrp_cli::{Job, run};
use qrp_program::{Sources, Status, Streams};
use std::alloc::Global;
use std::fmt::Debug;
use std::process::Abort;
use std::test::Fail;

/// A false formula of two clauses in canonical form, 35 bytes.
pub const TWO_CLAUSES: &[u8] = b"p cnf 2 2\ne 1 0\na 2 0\n1 2 0\n-1 2 0\n";

/// Its refutation, 82 bytes.
pub const REFUTATION: &[u8] =
    b"p qrp 2 5\ne 1 0\na 2 0\n1 1 2 0 0\n2 -1 2 0 0\n3 1 0 1 0\n4 -1 0 2 0\n5 0 3 4 0\nr unsat\n";

/// A formula with a free variable.
const FREE: &[u8] = b"p cnf 3 2\ne 1 0\na 2 0\n1 3 0\n-1 2 0\n";

/// The line of a check of the two.
pub const VERIFIED: &[u8] = b"VERIFIED false\n";

const NO_FORMULA: &[u8] = b"DEVICE formula\n";

/// Compares a value that was found at a place with the one that is wanted there.
pub fn assert_same<T: Copy + PartialEq + Debug>(
    rt: &impl Abort,
    found: T,
    wanted: T,
    place: &impl Debug,
) {
    assert_eq!(rt; found, wanted, "at {place:?}");
}

/// Two streams that have nothing yet.
///
/// # Errors
/// If an allocation fails.
pub fn empty_streams(alloc: Global) -> Result<Streams<VecSink, VecSink>, Fail> {
    let out = VecSink::new(alloc, 0)?;
    let err = VecSink::new(alloc, 0)?;
    Ok(Streams { out, err })
}

/// A formula and a trace, which are pulled byte by byte, each with the number of the pull that
/// fails, or 0.
type Texts<'a> = ((&'a [u8], u64), (&'a [u8], u64));

/// The bytes that a run writes to its streams, its status, and how often it pulls the trace.
#[derive(Drop)]
struct Ran {
    streams: Streams<VecSink, VecSink>,
    status: Status,
    pulls: u64,
}

/// Runs a job.
fn run_on(alloc: Global, job: Job, texts: Texts<'_>) -> Result<Ran, Fail> {
    let ((formula, formula_fails_at), (trace, trace_fails_at)) = texts;
    let mut sources = Sources {
        formula: PieceSource::new(formula, 1, formula_fails_at),
        trace: PieceSource::new(trace, 1, trace_fails_at),
    };
    let mut streams = empty_streams(alloc)?;
    let status = run(alloc, job, &mut sources, &mut streams);
    Ok(Ran {
        streams,
        status,
        pulls: sources.trace.pulls(),
    })
}

/// Compares the bytes that a run writes to its streams, its status, and how often it pulls the trace,
/// with these.
fn assert_run(
    rt: &(impl Abort + AllocGlobal),
    job: Job,
    texts: Texts<'_>,
    wanted: (&[u8], &[u8], Status, u64),
) -> Result<(), Fail> {
    let ran = run_on(rt.alloc(), job, texts)?;
    let (out, err) = (ran.streams.out.bytes(), ran.streams.err.bytes());
    let found = (out, err, ran.status, ran.pulls);
    assert_same(rt, found, wanted, &job);
    Ok(())
}

#[test]
fn no_more_of_a_trace_is_pulled_than_is_looked_at(rt: HostRuntime) -> Result<(), Fail> {
    let (check, trim) = (Job::Check(Rules::plain()), Job::Trim(Rules::plain()));
    // The byte after the wrong token, and the one after the result word, are the last: the next
    // pull would fail.
    let rows: [(Job, (&[u8], u64), (&[u8], &[u8], Status, u64)); 4] = [
        (check, (REFUTATION, 83), (VERIFIED, b"", 0, 82)),
        (trim, (REFUTATION, 83), (REFUTATION, b"", 0, 82)),
        (
            check,
            (b"p qrp 0 0\n7 x 0\n", 15),
            (b"REFUSED trace P3 line 2\n", b"", 2, 14),
        ),
        (
            check,
            (b"p qrp 0 0\nr cnf more", 17),
            (b"REFUSED trace P8 line 2\n", b"", 2, 16),
        ),
    ];
    for (job, trace, wanted) in rows {
        assert_run(&rt, job, ((TWO_CLAUSES, 0), trace), wanted)?;
    }
    Ok(())
}

#[test]
fn a_trace_is_not_pulled_for_format_or_a_refused_formula(rt: HostRuntime) -> Result<(), Fail> {
    let (check, trim) = (Job::Check(Rules::plain()), Job::Trim(Rules::plain()));
    let refused = b"REFUSED formula F6 line 4\n".as_slice();
    let rows: [(Job, (&[u8], u64), (&[u8], &[u8], Status, u64)); 6] = [
        (check, (FREE, 0), (refused, b"", 2, 0)),
        (trim, (FREE, 0), (b"", refused, 2, 0)),
        (check, (TWO_CLAUSES, 1), (NO_FORMULA, b"", 3, 0)),
        (trim, (TWO_CLAUSES, 1), (b"", NO_FORMULA, 3, 0)),
        (Job::Format, (TWO_CLAUSES, 7), (b"", NO_FORMULA, 3, 0)),
        (Job::Format, (TWO_CLAUSES, 0), (TWO_CLAUSES, b"", 0, 0)),
    ];
    for (job, formula, wanted) in rows {
        assert_run(&rt, job, (formula, (b"p qrp", 0)), wanted)?;
    }
    Ok(())
}

#[test]
fn sources_that_fail_are_reported(rt: HostRuntime) -> Result<(), Fail> {
    let check = Job::Check(Rules::plain());
    for fail_at in 1..37u64 {
        let texts = ((TWO_CLAUSES, fail_at), (REFUTATION, 0));
        assert_run(&rt, check, texts, (NO_FORMULA, b"", 3, 0))?;
    }
    for fail_at in 1..83u64 {
        let texts = ((TWO_CLAUSES, 37), (REFUTATION, fail_at));
        assert_run(&rt, check, texts, (b"DEVICE trace\n", b"", 3, fail_at))?;
    }
    let texts = ((TWO_CLAUSES, 37), (REFUTATION, 0));
    assert_run(&rt, check, texts, (VERIFIED, b"", 0, 82))
}

/// Checks the worked texts, the formula read up to a limit, and returns the streams and the status.
fn check_up_to(alloc: Global, limit: u64) -> Result<(Streams<VecSink, VecSink>, Status), Fail> {
    let mut sources = Sources {
        formula: FromRead::new(TWO_CLAUSES, limit),
        trace: SliceSource::new(REFUTATION),
    };
    let mut streams = empty_streams(alloc)?;
    let job = Job::Check(Rules::plain());
    let status = run(alloc, job, &mut sources, &mut streams);
    Ok((streams, status))
}

#[test]
fn a_reader_fails_past_its_limit(rt: HostRuntime) -> Result<(), Fail> {
    for (limit, wanted) in [(35u64, (NO_FORMULA, 3)), (36, (VERIFIED, 0))] {
        let (streams, status) = check_up_to(rt.alloc(), limit)?;
        assert_same(&rt, (streams.out.bytes(), status), wanted, &limit);
    }
    Ok(())
}

/// Runs a job on the worked texts with this sink, and returns the streams and the status.
fn run_into(
    alloc: Global,
    job: Job,
    out: PieceSink,
) -> Result<(Streams<PieceSink, VecSink>, Status), Fail> {
    let mut sources = Sources {
        formula: SliceSource::new(TWO_CLAUSES),
        trace: SliceSource::new(REFUTATION),
    };
    let err = VecSink::new(alloc, 0)?;
    let mut streams = Streams { out, err };
    let status = run(alloc, job, &mut sources, &mut streams);
    Ok((streams, status))
}

/// A run into this sink fails after these bytes, and the other stream gets nothing.
fn assert_cut(
    rt: &(impl Abort + AllocGlobal),
    job: Job,
    out: PieceSink,
    kept: &[u8],
) -> Result<(), Fail> {
    let (streams, status) = run_into(rt.alloc(), job, out)?;
    let (out, err) = (streams.out.bytes(), streams.err.bytes());
    assert_same(rt, (out, err, status), (kept, b"", 3), &job);
    Ok(())
}

/// Sinks that fail keep a beginning of the text of this job: those with less room, and one whose
/// `finish` fails.
fn assert_beginnings(rt: &(impl Abort + AllocGlobal), job: Job, text: &[u8]) -> Result<(), Fail> {
    for room in 0..text.len() {
        for piece in [1, 4096] {
            let options = PieceOptions {
                piece,
                room: Some(room as u64),
                finish_fails: false,
                reserve: 64,
            };
            let out = PieceSink::new(rt.alloc(), options)?;
            assert_cut(rt, job, out, &text[..room])?;
        }
    }
    let options = PieceOptions {
        piece: 4096,
        room: None,
        finish_fails: true,
        reserve: 64,
    };
    let out = PieceSink::new(rt.alloc(), options)?;
    assert_cut(rt, job, out, text)
}

#[test]
fn a_sink_that_fails_keeps_a_beginning(rt: HostRuntime) -> Result<(), Fail> {
    assert_beginnings(&rt, Job::Format, TWO_CLAUSES)?;
    assert_beginnings(&rt, Job::Check(Rules::plain()), VERIFIED)
}
