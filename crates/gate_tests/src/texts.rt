//! Texts in QCIR-14, good and bad, and sources that fail.

use qbf_core::Var;
use qbf_text::{PieceSource, VecSink};
use qcir::{Question, QuestionFault, read_bytes, read_question, write_question};
use std::process::Abort;
use std::test::Fail;

/// A text has so many names and gates.
fn assert_read(rt: &(impl Abort + AllocGlobal), text: &[u8], names: usize, gates: usize) {
    match read_question(rt.alloc(), text) {
        Ok(question) => {
            assert_eq!(rt; question.names(), names);
            assert_eq!(rt; question.formula().gates().len(), gates);
        }
        Err(fault) => panic!(rt; "{fault:?}"),
    }
}

/// A text has this fault on this line.
fn assert_refused(rt: &(impl Abort + AllocGlobal), text: &[u8], wanted: (QuestionFault, u64)) {
    match read_question(rt.alloc(), text) {
        Ok(_) => panic!(rt; "no fault {wanted:?}"),
        Err(fault) => assert_eq!(rt; fault, wanted),
    }
}

#[test]
fn reads_good_texts(rt: HostRuntime) {
    assert_read(&rt, b"#QCIR-14\noutput(-g)\ng = and()", 1, 1);
    assert_read(
        &rt,
        b"#QCIR-G14 2\r\n forall ( a )\r\n# c\n\noutput(a)\n",
        1,
        0,
    );
    assert_read(
        &rt,
        b"#QCIR-14\nexists(or)\noutput(_)\n_=ite(or,-or,or)\n",
        2,
        1,
    );
}

#[test]
fn refuses_headers_and_lines(rt: HostRuntime) {
    assert_refused(&rt, b"#QCIR-15\noutput(g)\n", (QuestionFault::Q2, 1));
    assert_refused(&rt, b"#QCIR-14\nexists(a,)\n", (QuestionFault::Q3, 2));
    assert_refused(&rt, b"#QCIR-14\nexists(a)", (QuestionFault::Q9, 2));
}

#[test]
fn refuses_names(rt: HostRuntime) {
    assert_refused(&rt, b"#QCIR-14\nexists(a, a)\n", (QuestionFault::Q4, 2));
    assert_refused(
        &rt,
        b"#QCIR-14\noutput(g)\ng = or(g)\n",
        (QuestionFault::Q5, 3),
    );
    assert_refused(
        &rt,
        b"#QCIR-14\noutput(g)\ng = or(-h)\n\nh = and(",
        (QuestionFault::Q5, 3),
    );
}

#[test]
fn refuses_names_that_no_line_gives(rt: HostRuntime) {
    assert_refused(&rt, b"#QCIR-14\noutput(g)\n", (QuestionFault::Q12, 3));
    assert_refused(
        &rt,
        b"#QCIR-14\noutput(g)\ng = or(-h, g)\n#h = and()\n",
        (QuestionFault::Q12, 3),
    );
}

#[test]
fn refuses_what_is_not_prenex_or_closed(rt: HostRuntime) {
    assert_refused(&rt, b"#QCIR-14\nfree(a)\n", (QuestionFault::Q6, 2));
    assert_refused(
        &rt,
        b"#QCIR-14\noutput(g)\ng = exists(a; a)\n",
        (QuestionFault::Q7, 3),
    );
    assert_refused(
        &rt,
        b"#QCIR-14\noutput(g)\ng = xor()\n",
        (QuestionFault::Q8, 3),
    );
}

#[test]
fn pulls_a_text_whole(rt: HostRuntime) -> Result<(), Fail> {
    let bytes = read_bytes(rt.alloc(), &mut PieceSource::new(b"#QCIR-14\n", 2, 0))?;
    assert_eq!(rt; bytes.as_slice(), b"#QCIR-14\n".as_slice());
    Ok(())
}

#[test]
fn says_that_a_source_failed(rt: HostRuntime) {
    for fail_at in 1..=10 {
        let mut source = PieceSource::new(b"#QCIR-14\n", 1, fail_at);
        assert!(rt; matches!(read_bytes(rt.alloc(), &mut source), Err(QuestionFault::Q1)));
    }
}

/// What a text is written as, if it is read.
fn assert_written(rt: &(impl Abort + AllocGlobal), text: &[u8], wanted: &[u8]) -> Result<(), Fail> {
    match read_question(rt.alloc(), text) {
        Err(fault) => panic!(rt; "{fault:?}"),
        Ok(question) => {
            let mut sink = VecSink::new(rt.alloc(), 0)?;
            assert!(rt; write_question(&question, &mut sink).is_ok());
            assert_eq!(rt; sink.bytes(), wanted);
            Ok(())
        }
    }
}

#[test]
fn writes_the_canonical_text(rt: HostRuntime) -> Result<(), Fail> {
    assert_written(
        &rt,
        b"#QCIR-G14 9\n\nexists(a)\nexists( b )\r\nforall(c)\n# d\noutput ( - g )\nf=and()\ng=ite(a,-b,f)",
        b"#QCIR-14\nexists(a, b)\nforall(c)\noutput(-g)\nf = and()\ng = ite(a, -b, f)\n",
    )?;
    assert_written(
        &rt,
        b"#QCIR-14\noutput(h)\ng = or()\nh = xor(g, -g)\n",
        b"#QCIR-14\noutput(h)\ng = or()\nh = xor(g, -g)\n",
    )
}

/// The variable or gate of this number has this name.
pub fn assert_named(rt: &impl Abort, question: &Question, number: u32, wanted: &[u8]) {
    let var = Var::new(number).expect(rt, "a variable");
    match question.name(var) {
        Some(name) => assert_eq!(rt; name, wanted),
        None => panic!(rt; "no name of {number}"),
    }
}

#[test]
fn tells_names(rt: HostRuntime) {
    let text = b"#QCIR-14\nforall(w)\nexists(x)\noutput(y)\ny = and(x)\n";
    match read_question(rt.alloc(), text) {
        Err(fault) => panic!(rt; "{fault:?}"),
        Ok(question) => {
            assert_named(&rt, &question, 2, b"x");
            assert_named(&rt, &question, 3, b"y");
            let fourth = Var::new(4).expect(&rt, "a variable");
            assert!(rt; question.name(fourth).is_none());
            assert_eq!(rt; question.variables(), 2);
            assert_eq!(rt; question.existential(), 1);
        }
    }
}
