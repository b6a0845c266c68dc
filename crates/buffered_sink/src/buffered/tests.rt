//! The bytes that come out of a buffer, and of one whose sink fails.

use super::*;
use qbf_text::{PieceOptions, PieceSink, put_byte, put_bytes};
use std::alloc::Global;
use std::fmt::Debug;
use std::process::Abort;
use std::test::Fail;

/// Compares a value that was found with the one that is wanted there.
fn assert_same<T: Copy + PartialEq + Debug>(rt: &impl Abort, found: T, wanted: T, what: &str) {
    assert_eq!(rt; found, wanted, "{what}");
}

/// A buffer before a sink that takes 1,000 bytes at a push, and has room for this many or for all.
fn buffer_of(alloc: Global, room: Option<u64>) -> Result<Buffered<PieceSink>, Fail> {
    let options = PieceOptions {
        piece: 1000,
        room,
        finish_fails: false,
        reserve: 0,
    };
    Ok(Buffered::new(PieceSink::new(alloc, options)?))
}

/// Puts 100,000 bytes one by one, and returns them.
fn put_each(
    rt: &impl Abort,
    alloc: Global,
    sink: &mut Buffered<PieceSink>,
) -> Result<Vec<u8>, Fail> {
    let mut sent = Vec::new(alloc);
    for n in 0..100_000u32 {
        let byte = (n % 251) as u8;
        assert!(rt; put_byte(sink, byte).is_ok());
        sent.push(byte)?;
    }
    Ok(sent)
}

/// The bytes, and the same again.
fn bytes_twice(alloc: Global, bytes: &[u8]) -> Result<Vec<u8>, Fail> {
    let mut all = Vec::from_slice(alloc, bytes)?;
    all.extend_from_slice(bytes)?;
    Ok(all)
}

/// Puts at once the bytes that were put before. Then all of them have come through.
fn assert_come_through(rt: &impl Abort, sink: &mut Buffered<PieceSink>, sent: &[u8], all: &[u8]) {
    // The last bytes are held back.
    assert!(rt; sink.sink.bytes().len() < sent.len());
    // More bytes at once than the buffer has room for are sent on.
    assert!(rt; put_bytes(sink, sent).is_ok());
    assert_same(rt, sink.sink.bytes().len(), all.len(), "bytes at once");
    assert!(rt; sink.finish().is_ok());
    assert!(rt; sink.sink.bytes() == all);
}

#[test]
fn bytes_come_through(rt: HostRuntime) -> Result<(), Fail> {
    let mut sink = buffer_of(rt.alloc(), None)?;
    let sent = put_each(&rt, rt.alloc(), &mut sink)?;
    let all = bytes_twice(rt.alloc(), &sent)?;
    assert_come_through(&rt, &mut sink, &sent, &all);
    Ok(())
}

/// The bytes that are held back go to a sink that takes three of them.
fn assert_fails_after_three(rt: &impl Abort, sink: &mut Buffered<PieceSink>) {
    assert!(rt; put_bytes(sink, b"VERIFIED").is_ok());
    assert_same(rt, sink.sink.bytes().len(), 0, "bytes held back");
    assert!(rt; sink.finish().is_err());
    assert_same(rt, sink.sink.bytes(), b"VER", "the end");
}

#[test]
fn a_failure_keeps_the_rest(rt: HostRuntime) -> Result<(), Fail> {
    let mut sink = buffer_of(rt.alloc(), Some(3))?;
    assert_fails_after_three(&rt, &mut sink);
    // The sink works again from then on.
    assert!(rt; sink.finish().is_ok());
    assert_eq!(rt; sink.sink.bytes(), b"VERIFIED".as_slice());
    Ok(())
}
