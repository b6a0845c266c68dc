//! The circuits of the winners of formulas of gates.

use crate::texts::assert_named;
use crate::verdicts::{FALSE, FALSE_TRACE, TRUE, TRUE_TRACE};
use aiger::write_circuit;
use gate_strategy::{GateStrategyFault, find_gate_strategy};
use gate_verify::Unverified;
use qbf_text::{PieceSource, SliceSource, VecSink};
use qcir::QuestionFault;
use qrp::TraceFault;
use qrp_check::{CheckFault, Fault, Rules};
use std::process::Abort;
use std::test::Fail;

/// The winner's circuit is this text of AIGER, and the first variable is called `a`.
fn assert_circuit(
    rt: &(impl Abort + AllocGlobal),
    question: &[u8],
    trace: &[u8],
    wanted: &[u8],
) -> Result<(), Fail> {
    let mut steps = SliceSource::new(trace);
    match find_gate_strategy(rt.alloc(), question, &mut steps, Rules::plain()) {
        Err(fault) => panic!(rt; "{fault:?}"),
        Ok((formula, strategy)) => {
            assert_named(rt, &formula, 1, b"a");
            let mut sink = VecSink::new(rt.alloc(), 256)?;
            assert!(rt; write_circuit(&strategy.circuit, false, &mut sink).is_ok());
            assert_eq!(rt; sink.bytes(), wanted);
            Ok(())
        }
    }
}

#[test]
fn the_existential_player_answers(rt: HostRuntime) -> Result<(), Fail> {
    assert_circuit(&rt, TRUE, TRUE_TRACE, b"aag 1 1 0 1 0\n2\n2\ni0 1\no0 2\n")
}

#[test]
fn the_universal_player_sees_no_gate(rt: HostRuntime) -> Result<(), Fail> {
    assert_circuit(
        &rt,
        FALSE,
        FALSE_TRACE,
        b"aag 1 1 0 1 0\n2\n0\ni0 2\no0 1\n",
    )
}

/// There is no strategy, for this reason.
fn assert_refused(
    rt: &(impl Abort + AllocGlobal),
    question: &[u8],
    trace: &mut PieceSource,
    wanted: Unverified,
) {
    match find_gate_strategy(rt.alloc(), question, trace, Rules::plain()) {
        Err(fault) => assert_eq!(rt; fault, GateStrategyFault::Check(wanted)),
        Ok(_) => panic!(rt; "a strategy"),
    }
}

#[test]
fn names_the_fault_that_is_found_first(rt: HostRuntime) {
    assert_refused(
        &rt,
        b"#QCIR-14\noutput(g)\n",
        &mut PieceSource::new(b"p qrp\n", 3, 0),
        Unverified::Question(QuestionFault::Q12, 3),
    );
    assert_refused(
        &rt,
        TRUE,
        &mut PieceSource::new(TRUE_TRACE, 3, 2),
        Unverified::Proof(Fault::Trace(TraceFault::P1, 0)),
    );
}

#[test]
fn has_no_strategy_without_a_verdict(rt: HostRuntime) {
    let mut steps = SliceSource::new(FALSE_TRACE);
    match find_gate_strategy(rt.alloc(), TRUE, &mut steps, Rules::plain()) {
        Err(GateStrategyFault::Check(Unverified::Proof(Fault::Check(CheckFault::C6(2, _))))) => {}
        Err(other) => panic!(rt; "{other:?}"),
        Ok(_) => panic!(rt; "a strategy"),
    }
}

// With memory this test tries nothing twice. tests/library/test-refusals makes each of its
// allocations fail in turn.

/// The number of outputs of the winner's circuit.
fn outputs(rt: &impl AllocGlobal) -> Result<usize, GateStrategyFault> {
    let mut steps = SliceSource::new(TRUE_TRACE);
    let (_, strategy) = find_gate_strategy(rt.alloc(), TRUE, &mut steps, Rules::plain())?;
    Ok(strategy.circuit.outputs.len())
}

#[test]
fn finds_again_after_a_refusal(rt: HostRuntime) {
    match outputs(&rt) {
        Ok(count) => assert_eq!(rt; count, 1),
        Err(
            GateStrategyFault::NoMemory
            | GateStrategyFault::Check(
                Unverified::Question(QuestionFault::Q11, 0)
                | Unverified::Proof(Fault::Trace(TraceFault::P9, 0) | Fault::Check(CheckFault::C5)),
            ),
        ) => assert_eq!(rt; outputs(&rt), Ok(1)),
        Err(fault) => panic!(rt; "{fault:?}"),
    }
}
