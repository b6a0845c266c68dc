//! Worked values from the formats, in pieces of several sizes, and what comes after a failure.

ghost use Rattle.std.specs.Prelude.{◌<◌};

use qbf_text::*;
use qbf_tokens::{Comments, Token, Word};
use std::alloc::Global;
use std::process::Abort;
use std::test::Fail;

/// The end on the first line.
const END: (Token, u64) = (Token::End, 1);

/// A number without `-` on the first line.
fn number(value: u64) -> (Token, u64) {
    on_line(value, 1)
}

/// A number without `-` on a line.
fn on_line(value: u64, line: u64) -> (Token, u64) {
    let token = Token::Number {
        negative: false,
        value,
    };
    (token, line)
}

/// Scans texts in pieces of several sizes, and compares each token and its line.
fn assert_scanned(rt: &impl Abort, rows: &[(&[u8], &[(Token, u64)])]) {
    for (text, wanted) in rows {
        for piece in [1, 2, 3, 4096] {
            let mut source = PieceSource::new(text, piece, 0);
            let mut scanner = Scanner::new(Comments::Qdimacs);
            for token in *wanted {
                let returned = scanner.next_token(&mut source);
                assert_eq!(rt; returned, Ok(*token), "in pieces of {piece}");
                if token.0 == Token::End {
                    assert_same_again(rt, &mut scanner, &mut source, returned);
                }
            }
        }
    }
}

/// The result that was returned last is returned for good, and nothing is pulled.
fn assert_same_again(
    rt: &impl Abort,
    scanner: &mut Scanner,
    source: &mut PieceSource<'_>,
    returned: Result<(Token, u64), ScanFault>,
) {
    let pulls = source.pulls();
    for _ in 0..3 {
        assert_eq!(rt; scanner.next_token(source), returned);
    }
    assert_eq!(rt; source.pulls(), pulls);
}

/// Five thousand zeros between two texts.
fn zeros_between(alloc: Global, front: &[u8], back: &[u8]) -> Result<Vec<u8>, Fail> {
    let mut text = Vec::from_slice(alloc, front)?;
    text.resize(front.len() + 5000, b'0')?;
    text.extend_from_slice(back)?;
    Ok(text)
}

#[test]
fn scans_worked_and_long_texts(rt: HostRuntime) -> Result<(), Fail> {
    let alloc = rt.alloc();
    let seven = zeros_between(alloc, b"", b"7")?;
    let minus = zeros_between(alloc, b"-", b"")?;
    let one = zeros_between(alloc, b"1", b"")?;
    let rows: [(&[u8], &[(Token, u64)]); 4] = [
        (b"1\r\nc 2\n3", &[number(1), on_line(3, 3), (Token::End, 3)]),
        (&seven, &[number(7), END]),
        (&minus, &[(Token::Bad, 1), END]),
        (&one, &[(Token::Big, 1), END]),
    ];
    assert_scanned(&rt, &rows);
    Ok(())
}

#[test]
fn fails_for_good(rt: HostRuntime) {
    let text = b"p cnf 1 0\ne 1 0\n";
    for fail_at in 1..=17 {
        let mut source = PieceSource::new(text, 1, fail_at);
        let mut scanner = Scanner::new(Comments::Qdimacs);
        let mut returned = scanner.next_token(&mut source);
        for _ in 0..8 {
            if returned.is_ok() {
                returned = scanner.next_token(&mut source);
            }
        }
        assert_eq!(rt; returned, Err(ScanFault), "at pull {fail_at}");
        assert_eq!(rt; source.pulls(), fail_at);
        assert_same_again(&rt, &mut scanner, &mut source, returned);
    }
}

#[test]
fn puts_numbers(rt: HostRuntime) -> Result<(), Fail> {
    let mut sink = VecSink::new(rt.alloc(), 0)?;
    for number in [0, 7, 18446744073709551615] {
        put_number(&mut sink, number)?;
        put_bytes(&mut sink, b" ")?;
    }
    put_bytes(&mut sink, b"")?;
    sink.finish()?;
    assert_eq!(rt; sink.bytes(), b"0 7 18446744073709551615 ".as_slice());
    Ok(())
}

/// A sink with so much room takes a beginning of a text and fails.
fn assert_beginning(rt: &impl Abort, sink: &mut PieceSink, text: &[u8], room: u64) {
    assert_eq!(rt; put_bytes(sink, text), Err(SinkFault));
    assert!(rt; text.starts_with(sink.bytes()), "with room {room}");
    assert_eq!(rt; sink.bytes().len() as u64, room);
}

/// A sink with less room than the text takes a beginning of it and fails, and works again.
fn assert_put_up_to(
    rt: &(impl Abort + AllocGlobal),
    text: &[u8],
    piece: usize,
    room: u64,
) -> Result<(), Fail>
    requires { 0 < piece }
{
    let options = PieceOptions {
        piece,
        room: Some(room),
        finish_fails: true,
        reserve: 0,
    };
    let mut sink = PieceSink::new(rt.alloc(), options)?;
    assert_beginning(rt, &mut sink, text, room);
    assert_eq!(rt; sink.push(b"-1"), Ok(piece.min(2)));
    assert_eq!(rt; sink.finish(), Err(SinkFault));
    Ok(())
}

/// A sink with room for the text takes all of it.
fn assert_put(rt: &(impl Abort + AllocGlobal), text: &[u8], piece: usize) -> Result<(), Fail>
    requires { 0 < piece }
{
    let options = PieceOptions {
        piece,
        room: Some(10),
        finish_fails: false,
        reserve: 10,
    };
    let mut sink = PieceSink::new(rt.alloc(), options)?;
    put_bytes(&mut sink, text)?;
    sink.finish()?;
    assert_eq!(rt; sink.bytes(), text);
    Ok(())
}

#[test]
fn puts_pieces_within_room(rt: HostRuntime) -> Result<(), Fail> {
    let text = b"p cnf 2 2\n";
    for piece in [1, 4096] {
        for room in 0..10 {
            assert_put_up_to(&rt, text, piece, room)?;
        }
        assert_put(&rt, text, piece)?;
    }
    Ok(())
}

#[test]
fn pulls_no_more_than_the_limit(rt: HostRuntime) {
    let text = b"12 3";
    let mut scanner = Scanner::new(Comments::Qrp);
    let mut source = FromRead::new(text.as_slice(), 5);
    for token in [number(12), number(3), END] {
        assert_eq!(rt; scanner.next_token(&mut source), Ok(token));
    }
    let mut scanner = Scanner::new(Comments::Qrp);
    let mut source = FromRead::new(text.as_slice(), 4);
    assert_eq!(rt; scanner.next_token(&mut source), Ok(number(12)));
    assert_eq!(rt; scanner.next_token(&mut source), Err(ScanFault));
}

/// Sends the text `p cnf 12`, and finishes the sink.
fn send(sink: &mut impl Sink) -> Result<(), SinkFault> {
    put_bytes(sink, b"p cnf ")?;
    put_number(sink, 12)?;
    sink.finish()
}

#[test]
fn sends_to_a_writer(rt: HostRuntime) -> Result<(), Fail> {
    let mut written = Vec::new(rt.alloc());
    send(&mut ToWrite::new(&mut written))?;
    assert_eq!(rt; written.as_slice(), b"p cnf 12".as_slice());
    Ok(())
}

#[test]
fn scans_a_slice(rt: HostRuntime) {
    let mut source = SliceSource::new(b"r sat");
    let mut scanner = Scanner::new(Comments::Qrp);
    for word in [Word::R, Word::Sat] {
        let token = scanner.next_token(&mut source);
        assert_eq!(rt; token, Ok((Token::Word(word), 1)));
    }
}
