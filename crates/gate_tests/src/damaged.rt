//! Texts that are cut or damaged, and allocations that fail.

use gate_clauses::{EncodingFault, formula_in_clauses};
use qbf_text::{PieceSource, VecSink};
use qcir::{Question, QuestionFault, read_bytes, read_question, write_question};
use std::process::Abort;
use std::test::Fail;

/// A text of six lines, with names of one letter.
const TEXT: &[u8] =
    b"#QCIR-14\nexists(a, b)\nforall(c)\noutput(-g)\nf = or(c)\ng = ite(a, -b, f)\n";

/// The line on which the bytes end.
fn last_line(bytes: &[u8]) -> u64 {
    let mut line: u64 = 1;
    for byte in bytes {
        if *byte == b'\n' {
            line = line.saturating_add(1);
        }
    }
    line
}

/// The fault of a beginning of `TEXT` that ends before its last `)`.
fn fault_of_cut(cut: &[u8]) -> QuestionFault {
    if cut.len() < b"#QCIR-14".len() {
        return QuestionFault::Q2;
    }
    if cut.len() > b"#QCIR-14\n".len() && !cut.ends_with(b")") && !cut.ends_with(b"\n") {
        return QuestionFault::Q3;
    }
    if cut.len() < b"#QCIR-14\nexists(a, b)\nforall(c)\noutput(-g)".len() {
        QuestionFault::Q9
    } else {
        QuestionFault::Q12
    }
}

#[test]
fn refuses_cut_texts(rt: HostRuntime) {
    for len in 0..TEXT.len() - 2 {
        let cut = &TEXT[..len];
        match read_question(rt.alloc(), cut) {
            Ok(_) => panic!(rt; "cut at {len}"),
            Err(fault) => assert_eq!(rt; fault, (fault_of_cut(cut), last_line(cut))),
        }
    }
    assert!(rt; read_question(rt.alloc(), TEXT).is_ok());
    assert!(rt; read_question(rt.alloc(), &TEXT[..TEXT.len() - 1]).is_ok());
}

#[test]
fn refuses_damaged_bytes(rt: HostRuntime) -> Result<(), Fail> {
    for at in 0..TEXT.len() - 1 {
        let mut damaged = Vec::from_slice(rt.alloc(), TEXT)?;
        damaged[at] = b'!';
        let first = if at <= b"#QCIR-14".len() {
            QuestionFault::Q2
        } else {
            QuestionFault::Q3
        };
        match read_question(rt.alloc(), &damaged) {
            Ok(_) => panic!(rt; "damaged at {at}"),
            Err(fault) => assert_eq!(rt; fault, (first, last_line(&TEXT[..at]))),
        }
    }
    Ok(())
}

// With memory these tests try nothing twice. tests/library/test-refusals makes each of their
// allocations fail in turn.

/// The bytes of a source, at the second try if an allocation fails.
fn bytes_again(rt: &(impl Abort + AllocGlobal)) -> Result<Vec<u8>, Fail> {
    match read_bytes(rt.alloc(), &mut PieceSource::new(TEXT, 7, 0)) {
        Ok(bytes) => Ok(bytes),
        Err(fault) => {
            assert_eq!(rt; fault, QuestionFault::Q11);
            Ok(read_bytes(rt.alloc(), &mut PieceSource::new(TEXT, 7, 0))?)
        }
    }
}

/// The formula has its clauses and its text, at the second try if an allocation fails.
fn assert_made(rt: &(impl Abort + AllocGlobal), question: &Question) -> Result<(), Fail> {
    let clauses = match formula_in_clauses(rt.alloc(), question.formula()) {
        Ok(formula) => formula.clauses(),
        Err(fault) => {
            assert_eq!(rt; fault, EncodingFault::NoMemory);
            formula_in_clauses(rt.alloc(), question.formula())?.clauses()
        }
    };
    assert_eq!(rt; clauses, 9);
    let mut sink = match VecSink::new(rt.alloc(), 256) {
        Ok(sink) => sink,
        Err(_) => VecSink::new(rt.alloc(), 256)?,
    };
    assert!(rt; write_question(question, &mut sink).is_ok());
    assert_eq!(rt; sink.bytes(), TEXT);
    Ok(())
}

#[test]
fn reads_again_after_a_refusal(rt: HostRuntime) -> Result<(), Fail> {
    let bytes = bytes_again(&rt)?;
    match read_question(rt.alloc(), &bytes) {
        Ok(question) => assert_made(&rt, &question),
        Err(fault) => {
            assert_eq!(rt; fault, (QuestionFault::Q11, 0));
            match read_question(rt.alloc(), &bytes) {
                Ok(question) => assert_made(&rt, &question),
                Err(again) => panic!(rt; "{again:?}"),
            }
        }
    }
}
