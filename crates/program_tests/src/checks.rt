//! Tests beside the rows of `tests/*.rows`: verdicts with their cores, and trimmed traces step by
//! step.

ghost use Rattle.std.specs.Prelude.{◌<◌, length};
ghost use Rattle.std.specs.List.{AllByRecursion};
ghost use Rattle.std.specs.List.Sorted.{IsStrictlyIncreasing};

use qbf_core::Formula;
use qbf_text::{SinkFault, SliceSource, VecSink, put_bytes, put_number};
use qdimacs::read_formula;
use qrp::{read_trace, write_trace};
use qrp_check::{CheckFault, Context, Fault, Rules, Verified, check, trim, verify};
use std::alloc::Global;
use std::process::Abort;
use std::test::Fail;
use trace_items::{Steps, Trace};

/// A formula and a trace.
type Texts<'a> = (&'a [u8], &'a [u8]);

/// A false formula and its refutation.
const FALSE: Texts<'static> = (
    b"p cnf 2 2\ne 1 0\na 2 0\n1 2 0\n-1 2 0\n",
    b"p qrp 2 5\ne 1 0\na 2 0\n1 1 2 0 0\n2 -1 2 0 0\n3 1 0 1 0\n4 -1 0 2 0\n5 0 3 4 0\nr unsat\n",
);

/// A true formula and its proof.
const TRUE: Texts<'static> = (
    b"p cnf 2 2\na 1 0\ne 2 0\n1 -2 0\n-1 2 0\n",
    b"p qrp 2 5\n1 1 2 0 0\n2 -1 -2 0 0\n3 1 0 1 0\n4 -1 0 2 0\n5 0 3 4 0\nr sat\n",
);

/// A clause without literals.
const EMPTY_CLAUSE: &[u8] = b"p cnf 0 1\n0\n";

/// The formula of a text.
fn formula_of(alloc: Global, text: &[u8]) -> Result<Formula, Fail> {
    Ok(read_formula(alloc, &mut SliceSource::new(text))?)
}

/// The trace of a text.
fn trace_of(alloc: Global, text: &[u8]) -> Result<Trace, Fail> {
    Ok(read_trace(alloc, &mut SliceSource::new(text))?)
}

/// The result for the trace of a text.
fn check_text(
    alloc: Global,
    rules: Rules,
    texts: Texts<'_>,
) -> Result<Result<Verified, CheckFault>, Fail> {
    let formula = formula_of(alloc, texts.0)?;
    let trace = trace_of(alloc, texts.1)?;
    let context = Context {
        alloc,
        formula: &formula,
        rules,
    };
    Ok(check(context, &trace, trace.sets(), trace.result()))
}

/// The result for the same bytes.
fn verify_text(alloc: Global, rules: Rules, texts: Texts<'_>) -> Result<Verified, Fault> {
    let mut source = SliceSource::new(texts.0);
    verify(alloc, &mut source, &mut SliceSource::new(texts.1), rules)
}

/// Compares a verdict with a truth and the positions of a core.
fn assert_found(rt: &impl Abort, found: &Verified, truth: bool, core: &[usize]) {
    assert_eq!(rt; found.truth, truth);
    assert_eq!(rt; found.core.as_slice(), core);
}

/// Checks the trace of a text, and verifies the same bytes, by both rules.
fn assert_verified(
    rt: &(impl Abort + AllocGlobal),
    texts: Texts<'_>,
    truth: bool,
    core: &[usize],
) -> Result<(), Fail> {
    for rules in [Rules::plain(), Rules::any_pivot()] {
        let found = check_text(rt.alloc(), rules, texts)??;
        assert_found(rt, &found, truth, core);
        let found = verify_text(rt.alloc(), rules, texts)?;
        assert_found(rt, &found, truth, core);
    }
    Ok(())
}

#[test]
fn verifies_proofs(rt: HostRuntime) -> Result<(), Fail> {
    assert_verified(&rt, FALSE, false, &[0, 1, 2, 3, 4])?;
    assert_verified(&rt, TRUE, true, &[0, 1, 2, 3, 4])
}

/// Sends a step without literals that follows from an earlier one.
fn put_link(sink: &mut VecSink, number: u64, earlier: u64) -> Result<(), SinkFault> {
    put_number(sink, number)?;
    put_bytes(sink, b" 0 ")?;
    put_number(sink, earlier)?;
    put_bytes(sink, b" 0\n")
}

/// 10,000 steps without literals. The first `back` of them are the clause, and each other one
/// follows from the step that is `back` before it.
fn chain(alloc: Global, back: u64) -> Result<VecSink, Fail>
    requires { back < 10000 }
{
    let mut sink = VecSink::new(alloc, 0)?;
    put_bytes(&mut sink, b"p qrp 0 10000\n")?;
    for number in 1..=back {
        put_number(&mut sink, number)?;
        put_bytes(&mut sink, b" 0 0\n")?;
    }
    for number in back + 1..=10_000 {
        put_link(&mut sink, number, number - back)?;
    }
    put_bytes(&mut sink, b"r unsat\n")?;
    Ok(sink)
}

#[test]
fn follows_a_long_chain(rt: HostRuntime) -> Result<(), Fail> {
    for back in [1u64, 2, 7] {
        let mut core = Vec::new(rt.alloc());
        for position in 0..10_000usize {
            // The last step is at the position 9,999.
            if (9_999 - position as u64) % back == 0 {
                core.push(position)?;
            }
        }
        let text = chain(rt.alloc(), back)?;
        assert_verified(&rt, (EMPTY_CLAUSE, text.bytes()), false, &core)?;
    }
    Ok(())
}

/// The trimmed trace of one that proves its result.
fn trim_by(alloc: Global, whole: &Trace, verified: &Verified) -> Result<Trace, Fail>
    requires rises { IsStrictlyIncreasing verified.now.core.items }
    requires within { AllByRecursion (λ i. i < length whole.now.steps) verified.now.core.items }
{
    Ok(trim(alloc, whole, verified)?)
}

/// The trimmed trace of one that proves its result of a formula.
fn trim_on(context: Context, whole: &Trace) -> Result<Trace, Fail> {
    match check(context, whole, whole.sets(), whole.result()) {
        Ok(verified) => trim_by(context.alloc, whole, &verified),
        Err(_) => Err(Fail::new("the trace was refused")),
    }
}

/// The trimmed trace of two texts.
fn trim_text(alloc: Global, rules: Rules, texts: Texts<'_>) -> Result<Trace, Fail> {
    let formula = formula_of(alloc, texts.0)?;
    let whole = trace_of(alloc, texts.1)?;
    let context = Context {
        alloc,
        formula: &formula,
        rules,
    };
    trim_on(context, &whole)
}

#[test]
fn keeps_what_the_goal_needs(rt: HostRuntime) -> Result<(), Fail> {
    for rules in [Rules::plain(), Rules::any_pivot()] {
        let left = trim_text(rt.alloc(), rules, FALSE)?;
        let mut sink = VecSink::new(rt.alloc(), 0)?;
        assert!(&rt; write_trace(&left, &mut sink).is_ok());
        assert_eq!(&rt; sink.bytes(), FALSE.1);
    }
    Ok(())
}

/// The trace has the 5,000 steps of even numbers.
fn assert_halved(rt: &impl Abort, left: &Trace) {
    assert_eq!(rt; left.header().steps, 5_000);
    assert_eq!(rt; left.len(), 5_000);
    for position in 0..left.len() {
        assert_eq!(rt; left.number(position), 2 * position as u64 + 2);
    }
}

#[test]
fn leaves_out_every_other_step(rt: HostRuntime) -> Result<(), Fail> {
    let text = chain(rt.alloc(), 2)?;
    let left = trim_text(rt.alloc(), Rules::plain(), (EMPTY_CLAUSE, text.bytes()))?;
    assert_halved(&rt, &left);
    Ok(())
}
