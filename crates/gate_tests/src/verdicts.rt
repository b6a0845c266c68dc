//! Verdicts on formulas of gates.

use gate_verify::{Unverified, verify_question};
use qbf_text::{PieceSource, SliceSource};
use qcir::QuestionFault;
use qrp::TraceFault;
use qrp_check::{CheckFault, Fault, Rules};

/// The existential player sets `b` as `a` is.
pub const TRUE: &[u8] = b"#QCIR-14\nforall(a)\nexists(b)\noutput(g)\ng = xor(a, -b)\n";

/// A proof of it, of the clauses that `formula_in_clauses` makes.
pub const TRUE_TRACE: &[u8] =
    b"p qrp 3 5\na 1 0\ne 2 3 0\n1 1 2 3 0 0\n2 1 0 1 0\n3 -1 -2 3 0 0\n4 -1 0 3 0\n\
    5 0 2 4 0\nr sat\n";

/// The universal player sets `a` to false.
pub const FALSE: &[u8] = b"#QCIR-14\nforall(a)\nexists(b)\noutput(g)\ng = and(a, b)\n";

/// A refutation of it.
pub const FALSE_TRACE: &[u8] =
    b"p qrp 3 4\na 1 0\ne 2 3 0\n1 3 0 0\n2 -3 1 0 0\n3 1 0 1 2 0\n4 0 3 0\nr unsat\n";

/// The verdict on two texts, in pieces of three bytes.
fn verdict(rt: &impl AllocGlobal, question: &[u8], trace: &[u8]) -> Result<bool, Unverified> {
    let mut gates = PieceSource::new(question, 3, 0);
    let mut steps = PieceSource::new(trace, 3, 0);
    verify_question(rt.alloc(), &mut gates, &mut steps, Rules::plain())
}

#[test]
fn verifies_a_true_formula(rt: HostRuntime) {
    assert_eq!(rt; verdict(&rt, TRUE, TRUE_TRACE), Ok(true));
}

#[test]
fn verifies_a_false_formula(rt: HostRuntime) {
    assert_eq!(rt; verdict(&rt, FALSE, FALSE_TRACE), Ok(false));
}

#[test]
fn refuses_the_proof_of_another_formula(rt: HostRuntime) {
    match verdict(&rt, TRUE, FALSE_TRACE) {
        Err(Unverified::Proof(Fault::Check(CheckFault::C6(2, _)))) => {}
        other => panic!(rt; "{other:?}"),
    }
}

#[test]
fn names_the_fault_of_the_formula_first(rt: HostRuntime) {
    let found = verdict(&rt, b"#QCIR-14\noutput(g)\n", b"p qrp\n");
    assert_eq!(rt; found, Err(Unverified::Question(QuestionFault::Q12, 3)));
}

#[test]
fn tells_of_each_source_that_fails(rt: HostRuntime) {
    let mut steps = SliceSource::new(TRUE_TRACE);
    let mut gates = PieceSource::new(TRUE, 3, 2);
    let found = verify_question(rt.alloc(), &mut gates, &mut steps, Rules::plain());
    assert_eq!(rt; found, Err(Unverified::Question(QuestionFault::Q1, 0)));
    let mut gates = SliceSource::new(TRUE);
    let mut steps = PieceSource::new(TRUE_TRACE, 3, 2);
    let found = verify_question(rt.alloc(), &mut gates, &mut steps, Rules::plain());
    assert_eq!(rt;
        found,
        Err(Unverified::Proof(Fault::Trace(TraceFault::P1, 0)))
    );
}
