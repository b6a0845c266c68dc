//! Formulas of gates and their clauses, compared with those of the format's definitions of gates.

use gate_clauses::formula_in_clauses;
use qbf_text::VecSink;
use qcir::read_question;
use qdimacs::write_formula;
use std::process::Abort;
use std::test::Fail;

/// A text in QCIR-14 has these clauses, as a formula in QDIMACS.
fn assert_clauses(rt: &(impl Abort + AllocGlobal), text: &[u8], wanted: &[u8]) -> Result<(), Fail> {
    match read_question(rt.alloc(), text) {
        Err(fault) => panic!(rt; "{fault:?}"),
        Ok(question) => {
            let formula = formula_in_clauses(rt.alloc(), question.formula())?;
            let mut sink = VecSink::new(rt.alloc(), 256)?;
            assert!(rt; write_formula(&formula, &mut sink).is_ok());
            assert_eq!(rt; sink.bytes(), wanted);
            Ok(())
        }
    }
}

#[test]
fn makes_the_clauses_of_a_conjunction(rt: HostRuntime) -> Result<(), Fail> {
    assert_clauses(
        &rt,
        b"#QCIR-14\nforall(a)\nexists(b)\noutput(-g)\ng = and(a, -b)\n",
        b"p cnf 3 4\na 1 0\ne 2 3 0\n3 -1 2 0\n-3 1 0\n-3 -2 0\n-3 0\n",
    )
}

#[test]
fn makes_the_clauses_of_a_difference(rt: HostRuntime) -> Result<(), Fail> {
    assert_clauses(
        &rt,
        b"#QCIR-14\nforall(a, b)\noutput(g)\ng = xor(a, -b)\n",
        b"p cnf 3 5\na 1 2 0\ne 3 0\n-3 1 -2 0\n-3 -1 2 0\n3 -1 -2 0\n3 1 2 0\n3 0\n",
    )
}
