//! Numbers of each length, at each place of a window and of the bytes that are looked at together.
//! Read many at a time, they are the same as if each byte is pulled alone.

ghost use Rattle.std.specs.Prelude.{◌<◌, ◌≤◌};

use qbf_core::Formula;
use qbf_text::{PieceSource, VecSink};
use qdimacs::*;
use std::alloc::Global;
use std::process::Abort;
use std::test::Fail;

/// Both formulas have the same canonical text.
fn assert_written_alike(
    rt: &(impl Abort + AllocGlobal),
    one: &Formula,
    other: &Formula,
) -> Result<(), Fail> {
    let mut first = VecSink::new(rt.alloc(), 0)?;
    let mut second = VecSink::new(rt.alloc(), 0)?;
    assert!(rt; write_formula(one, &mut first).is_ok());
    assert!(rt; write_formula(other, &mut second).is_ok());
    assert_eq!(rt; first.bytes(), second.bytes());
    Ok(())
}

/// A text in pieces of this size is read as in single bytes, in which no number stands whole.
fn assert_read_alike(rt: &(impl Abort + AllocGlobal), text: &[u8], piece: usize) -> Result<(), Fail>
    requires { 0 < piece }
{
    let one = read_formula(rt.alloc(), &mut PieceSource::new(text, 1, 0));
    let other = read_formula(rt.alloc(), &mut PieceSource::new(text, piece, 0));
    match (one, other) {
        (Ok(one), Ok(other)) => assert_written_alike(rt, &one, &other),
        (Err(one), Err(other)) => {
            assert_eq!(rt; one, other);
            Ok(())
        }
        _ => panic!(rt; "one of them is refused"),
    }
}

/// A number with so many digits has the first so many of these.
const DIGITS: &[u8] = b"1234567890123456789012345";

/// A formula whose clause has a number with so many digits, after a comment of so many bytes. With
/// one to nine digits its variable is bound.
fn text_of(alloc: Global, sign: &[u8], len: usize, pad: usize) -> Result<Vec<u8>, Fail>
    requires len { len ≤ 25 }
    requires pad { pad ≤ 5000 }
{
    let mut text = Vec::from_slice(alloc, b"p cnf 2147483647 2\nc")?;
    text.resize(20 + pad, b'x')?;
    text.extend_from_slice(b"\ne 1 12 ")?;
    if 2 < len && len < 10 {
        text.extend_from_slice(&DIGITS[..len])?;
    }
    text.extend_from_slice(b" 0\n1 -12 ")?;
    text.extend_from_slice(sign)?;
    text.extend_from_slice(&DIGITS[..len])?;
    text.extend_from_slice(b" 1 0\n-1 12 -12 1 -1 0\n")?;
    Ok(text)
}

/// Numbers with so many digits, without and with a minus, after comments of these sizes.
fn assert_len_read_alike(
    rt: &(impl Abort + AllocGlobal),
    len: usize,
    from: usize,
    to: usize,
) -> Result<(), Fail>
    requires len { len ≤ 25 }
    requires to { to ≤ 5000 }
{
    for pad in from..to {
        assert_read_alike(rt, &text_of(rt.alloc(), b"", len, pad)?, 4096)?;
        assert_read_alike(rt, &text_of(rt.alloc(), b"-", len, pad)?, 4096)?;
    }
    Ok(())
}

#[test]
fn numbers_of_each_length_in_a_block(rt: HostRuntime) -> Result<(), Fail> {
    for len in 0..=21 {
        assert_len_read_alike(&rt, len, 0, 70)?;
    }
    Ok(())
}

#[test]
fn numbers_of_each_length_at_the_end_of_a_window(rt: HostRuntime) -> Result<(), Fail> {
    for len in 0..=21 {
        assert_len_read_alike(&rt, len, 4000, 4080)?;
    }
    Ok(())
}

/// Line ends of two bytes, tabs, comments between literals, zeros and leading zeros.
const MIXED: &[u8] =
    b"p cnf 99999999 5\r\ne 1 12 123 1234567 0\r\na 99999999 0\n1\t-12\r\n123 0\nc 1\n\
    -1 \t 1234567\nc 2 0\n 00\n99999999 -99999999 0\n\n001 0 0\n";

#[test]
fn pieces_of_each_size(rt: HostRuntime) -> Result<(), Fail> {
    for piece in 1..=130 {
        assert_read_alike(&rt, MIXED, piece)?;
    }
    Ok(())
}
