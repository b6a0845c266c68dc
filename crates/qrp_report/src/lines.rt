//! The lines of verdicts and refusals, written part by part.

ghost use Rattle.std.specs.Prelude.{◌++◌, decimal};
ghost use Rattle.qbf_text.specs.Written.{IsPut};
ghost use Rattle.qrp_report.specs.Lines.{numbers_line, text_line, check_line, refusal_line};
ghost use Rattle.qrp_report.specs.Lines.{verdict_line};

use crate::refusal::Refusal;
use qbf_text::{Sink, SinkFault, put_byte, put_bytes, put_number};

/// Sends a text and a number after it.
fn put_numbered<S: Sink>(sink: &mut S, text: &[u8], number: u64) -> Result<(), SinkFault>
    ensures { IsPut S.written S.failures S.failed_last
        sink.old sink.new (text.now ++ decimal number) result }
{
    put_bytes(sink, text)?;
    put_number(sink, number)
}

/// Sends the line of two texts, each with a number after it.
///
/// # Errors
/// If the sink failed. A beginning of the line went out then.
pub fn put_numbers_line<S: Sink>(
    sink: &mut S,
    first: (&[u8], u64),
    second: (&[u8], u64),
) -> Result<(), SinkFault>
    ensures { IsPut S.written S.failures S.failed_last
        sink.old sink.new (numbers_line first.entry.0.now
        first.entry.1 second.entry.0.now second.entry.1) result }
{
    put_numbered(sink, first.0, first.1)?;
    put_numbered(sink, second.0, second.1)?;
    put_byte(sink, b'\n')
}

/// Sends the line for a fault of a text: `device` if its source failed, and the line with this
/// beginning if the text is refused.
fn put_text_line<S: Sink>(
    sink: &mut S,
    device: &[u8],
    beginning: &[u8],
    refusal: &Refusal,
) -> Result<(), SinkFault>
    ensures { IsPut S.written S.failures S.failed_last sink.old sink.new
        (text_line device.now beginning.now refusal.now) result }
{
    match refusal.number {
        1 => put_bytes(sink, device),
        9 => put_bytes(sink, b"NO MEMORY\n"),
        number => put_numbers_line(
            sink,
            (beginning, number as u64),
            (b" line ", refusal.position),
        ),
    }
}

/// Sends the line for a fault of a check.
fn put_check_line<S: Sink>(sink: &mut S, refusal: &Refusal) -> Result<(), SinkFault>
    ensures { IsPut S.written S.failures S.failed_last
        sink.old sink.new (check_line refusal.now) result }
{
    match refusal.number {
        4 => put_bytes(sink, b"REFUSED trace C4\n"),
        5 => put_bytes(sink, b"NO MEMORY\n"),
        6 => put_numbers_line(
            sink,
            (b"REFUSED step ", refusal.position),
            (b" S", refusal.rule as u64),
        ),
        number => put_numbers_line(
            sink,
            (b"REFUSED set C", number as u64),
            (b" variable ", refusal.position),
        ),
    }
}

/// Sends the line for a refusal.
///
/// # Errors
/// If the sink failed. A beginning of the line went out then.
pub fn put_refusal<S: Sink>(sink: &mut S, refusal: &Refusal) -> Result<(), SinkFault>
    ensures { IsPut S.written S.failures S.failed_last
        sink.old sink.new (refusal_line refusal.now) result }
{
    match refusal.letter {
        b'F' => put_text_line(sink, b"DEVICE formula\n", b"REFUSED formula F", refusal),
        b'P' => put_text_line(sink, b"DEVICE trace\n", b"REFUSED trace P", refusal),
        _ => put_check_line(sink, refusal),
    }
}

/// Sends the line of a verdict.
///
/// # Errors
/// If the sink failed. A beginning of the line went out then.
pub fn put_verdict<S: Sink>(sink: &mut S, truth: bool) -> Result<(), SinkFault>
    ensures { IsPut S.written S.failures S.failed_last
        sink.old sink.new (verdict_line truth) result }
{
    if truth {
        return put_bytes(sink, b"VERIFIED true\n");
    }
    put_bytes(sink, b"VERIFIED false\n")
}
