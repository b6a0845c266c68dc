//! A command line, and the program on files in memory, one of which is not opened for want of
//! memory. Other command lines are words of tests/program/parts/words.

ghost use Rattle.std.specs.Prelude.{◌≡◌, ◌≢◌, ◌⊎◌, Some, Ok, Err, codes};
ghost use Rattle.qrp_program.specs.declared.open_fault.OpenFault.{OpenFault};

use crate::runs::{REFUTATION, TWO_CLAUSES, VERIFIED, assert_same, empty_streams};
use qbf_text::{FromRead, PieceOptions, PieceSink, VecSink};
use qrp_check::Rules;
use qrp_cli::{Job, request};
use qrp_program::{LIMIT, Open, OpenFault, Start, Status, Streams, program};
use std::alloc::{AllocError, Global};
use std::test::Fail;

/// Two files in memory: `f` is a formula and `t` a trace. An allocation fails for `m`, and no other
/// file is there.
#[derive(Clone, Copy)]
struct Shelf<'a> {
    formula: &'a [u8],
    trace: &'a [u8],
}

impl<'a> Open for Shelf<'a> {
    type File = FromRead<&'a [u8]>;

    ghost opens = { λ s path r.
        ((path ≡ codes "f") × (r ≡ Ok (Some s.formula.now)))
        ⊎ (((path ≡ codes "t") × (r ≡ Ok (Some s.trace.now)))
        ⊎ ((e : OpenFault) × (path ≢ codes "f") × (path ≢ codes "t") × (r ≡ Err e))) };

    fn open(&self, path: &str) -> Result<FromRead<&'a [u8]>, OpenFault> {
        if path == "f" {
            return Ok(FromRead::new(self.formula, LIMIT));
        }
        if path == "t" {
            return Ok(FromRead::new(self.trace, LIMIT));
        }
        if path == "m" {
            return Err(OpenFault::NoMemory);
        }
        Err(OpenFault::NoFile)
    }
}

const FILES: Shelf<'static> = Shelf {
    formula: TWO_CLAUSES,
    trace: REFUTATION,
};

/// The arguments as a list of texts.
fn given(alloc: Global, words: &[&str]) -> Result<Vec<String>, AllocError> {
    let mut list = Vec::new(alloc);
    for word in words {
        list.push(String::from_str(alloc, word)?)?;
    }
    Ok(list)
}

#[test]
fn asks_for_a_job(rt: HostRuntime) -> Result<(), Fail> {
    let words = given(rt.alloc(), &["check", "f", "t", "--qu"])?;
    let wanted = Some((Job::Check(Rules::any_pivot()), 1, Some(2)));
    assert_eq!(rt; request(&words), wanted);
    Ok(())
}

/// The bytes that the program writes on these arguments, and its status.
fn run_on_words(
    alloc: Global,
    words: &[&str],
) -> Result<(Streams<VecSink, VecSink>, Status), Fail> {
    let mut streams = empty_streams(alloc)?;
    let words = given(alloc, words)?;
    let status = program::<Job, _, _, _>(alloc, &FILES, Ok(words), &mut streams);
    Ok((streams, status))
}

/// Words of a command line, the bytes that go to the two streams, and the status.
type Answer = (
    &'static [&'static str],
    &'static [u8],
    &'static [u8],
    Status,
);

const NO_MEMORY: &[u8] = b"NO MEMORY\n";

const ANSWERS: [Answer; 6] = [
    (&["check", "f", "t"], VERIFIED, b"", 0),
    // An allocation fails while a file is opened.
    (&["check", "m", "x"], NO_MEMORY, b"", 4),
    (&["check", "f", "m"], NO_MEMORY, b"", 4),
    (&["trim", "m", "x"], b"", NO_MEMORY, 4),
    (&["trim", "f", "m"], b"", NO_MEMORY, 4),
    (&["format", "m"], b"", NO_MEMORY, 4),
];

#[test]
fn answers_to_command_lines(rt: HostRuntime) -> Result<(), Fail> {
    for (words, to_out, to_err, wanted) in ANSWERS {
        let (streams, status) = run_on_words(rt.alloc(), words)?;
        assert_same(
            &rt,
            (streams.out.bytes(), streams.err.bytes(), status),
            (to_out, to_err, wanted),
            &words,
        );
    }
    Ok(())
}

#[test]
fn words_that_are_not_got(rt: HostRuntime) -> Result<(), Fail> {
    let out = VecSink::new(rt.alloc(), 0)?;
    // The status stays if the line does not go out.
    let options = PieceOptions {
        piece: 4,
        room: Some(3),
        finish_fails: false,
        reserve: 0,
    };
    let err = PieceSink::new(rt.alloc(), options)?;
    let mut streams = Streams { out, err };
    let status = program::<Job, _, _, _>(rt.alloc(), &FILES, Err(Start::Usage), &mut streams);
    assert_same(
        &rt,
        (streams.err.bytes(), status),
        (b"USA".as_slice(), 5),
        &Start::Usage,
    );
    Ok(())
}
