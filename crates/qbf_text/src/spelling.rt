//! Numbers as texts have them, on their way to a sink.

ghost use Rattle.std.specs.Prelude.{◌∷◌, decimal};
ghost use Rattle.qbf_tokens.specs.Canonical.{spaced_number, token_text};
ghost use Rattle.qbf_text.specs.Written.{IsPut};
ghost use Rattle.qbf_tokens.specs.declared.token.Token.TheVariants.{Number};

use crate::sink::{Sink, SinkFault, put_byte, put_number};

/// Sends a number after a blank.
///
/// # Errors
/// A `SinkFault` if the sink failed. What went out is a beginning of these bytes then.
#[inline(always)]
pub fn put_spaced<S: Sink>(sink: &mut S, n: u64) -> Result<(), SinkFault>
    ensures { IsPut S.written S.failures S.failed_last sink.old sink.new (spaced_number n) result }
{
    sink.push_spaced(false, n)
}

/// Sends a number after a blank, directly after a minus if it is negative.
///
/// # Errors
/// A `SinkFault` if the sink failed. What went out is a beginning of these bytes then.
#[inline(always)]
pub fn put_spaced_signed<S: Sink>(sink: &mut S, negative: bool, n: u64) -> Result<(), SinkFault>
    ensures { IsPut S.written S.failures S.failed_last sink.old sink.new
        (32 ∷ token_text (Number negative n)) result }
{
    sink.push_spaced(negative, n)
}

/// Sends a number after a minus.
#[inline(always)]
fn put_minus<S: Sink>(sink: &mut S, n: u64) -> Result<(), SinkFault>
    ensures { IsPut S.written S.failures S.failed_last sink.old sink.new (45 ∷ decimal n) result }
{
    put_byte(sink, b'-')?;
    put_number(sink, n)
}

/// Sends a number, directly after a minus if it is negative.
///
/// # Errors
/// A `SinkFault` if the sink failed. What went out is a beginning of these bytes then.
#[inline(always)]
pub fn put_signed<S: Sink>(sink: &mut S, negative: bool, n: u64) -> Result<(), SinkFault>
    ensures { IsPut S.written S.failures S.failed_last
        sink.old sink.new (token_text (Number negative n)) result }
{
    if negative {
        return put_minus(sink, n);
    }
    put_number(sink, n)
}
