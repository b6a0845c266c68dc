//! Single pulls and pushes of formulas, and those that fail. Whole texts are rows of
//! `tests/*.rows`.

ghost use Rattle.std.specs.Prelude.{◌<◌};

use qbf_core::Formula;
use qbf_text::{PieceOptions, PieceSink, PieceSource, SinkFault};
use qdimacs::*;
use std::process::Abort;
use std::test::Fail;

const FORMULA: &[u8] = b"p cnf 2 2\ne 1 0\na 2 0\n1 2 0\n-1 2 0\n";

/// The formula of this text, which is pulled byte by byte, has this fault after so many pulls. The
/// pull with the number `fail_at` fails.
fn assert_refused(
    rt: &(impl Abort + AllocGlobal),
    text: &[u8],
    fail_at: u64,
    wanted: (u64, (FormulaFault, u64)),
) {
    let mut source = PieceSource::new(text, 1, fail_at);
    match read_formula(rt.alloc(), &mut source) {
        Ok(_) => panic!(rt; "no fault {wanted:?}"),
        Err(fault) => assert_eq!(rt; (source.pulls(), fault), wanted),
    }
}

#[test]
fn says_that_a_source_failed(rt: HostRuntime) {
    for fail_at in 1..=36 {
        assert_refused(&rt, FORMULA, fail_at, (fail_at, (FormulaFault::F1, 0)));
    }
    let mut source = PieceSource::new(FORMULA, 1, 37);
    assert!(rt; read_formula(rt.alloc(), &mut source).is_ok());
}

#[test]
fn pulls_nothing_after_a_fault(rt: HostRuntime) {
    // The byte after the wrong token is the last one that is looked at: the next pull would fail.
    let rows: [(&[u8], u64, (FormulaFault, u64)); 3] = [
        (b"p cnf 1 1\ne 1 0\n1 x 0\n", 20, (FormulaFault::F3, 3)),
        (b"p cnf 1 1\ne 1 0\n2 0\n", 18, (FormulaFault::F4, 3)),
        (b"p cnf 1 0\ne 1 0\n1 0\n", 18, (FormulaFault::F8, 3)),
    ];
    for (text, looked_at, fault) in rows {
        let fail_at = looked_at.saturating_add(1);
        assert_refused(&rt, text, fail_at, (looked_at, fault));
    }
}

/// A sink with this room takes a beginning of the formula.
fn assert_cut(
    rt: &(impl Abort + AllocGlobal),
    formula: &Formula,
    piece: usize,
    room: u64,
) -> Result<(), Fail>
    requires piece { 0 < piece }
    requires room { room < 35 }
{
    let options = PieceOptions {
        piece,
        room: Some(room),
        finish_fails: false,
        reserve: 0,
    };
    let mut sink = PieceSink::new(rt.alloc(), options)?;
    assert_eq!(rt; write_formula(formula, &mut sink), Err(SinkFault));
    assert_eq!(rt;
        sink.bytes(),
        &FORMULA[..room as usize],
        "in pieces of {piece}"
    );
    Ok(())
}

#[test]
fn leaves_the_sink_unfinished(rt: HostRuntime) -> Result<(), Fail> {
    let formula = read_formula(rt.alloc(), &mut PieceSource::new(FORMULA, 4096, 0))?;
    // A `finish` of this sink fails.
    let options = PieceOptions {
        piece: 4096,
        room: None,
        finish_fails: true,
        reserve: 35,
    };
    let mut sink = PieceSink::new(rt.alloc(), options)?;
    assert!(rt; write_formula(&formula, &mut sink).is_ok());
    assert_eq!(rt; sink.bytes(), FORMULA);
    Ok(())
}

#[test]
fn writes_a_beginning(rt: HostRuntime) -> Result<(), Fail> {
    let formula = read_formula(rt.alloc(), &mut PieceSource::new(FORMULA, 4096, 0))?;
    for piece in [1, 4096] {
        for room in 0..35 {
            assert_cut(&rt, &formula, piece, room)?;
        }
    }
    Ok(())
}
