//! A buffer before a sink.

ghost use Rattle.std.specs.Prelude.{◌≡◌, ℕ, ◌+◌, ◌-◌, ◌<◌, ◌≤◌, List, [], ◌++◌, length, take, drop};
ghost use Rattle.std.specs.Prelude.{◌∷◌, true, false, decimal};
ghost use Rattle.std.specs.Io.KnownBytes.{append_known, Keeps};
ghost use Rattle.std.specs.List.{flat_map};
ghost use Rattle.qbf_tokens.specs.Canonical.{token_text};
ghost use Rattle.qbf_tokens.specs.declared.token.Token.TheVariants.{Number};
ghost use Rattle.qbf_text.specs.Devices.{Finishes, Pushes};
ghost use Rattle.qbf_text.specs.Written.{IsPut, spaced_text};

use crate::spaced::{put_four, put_spaced};
use decimal::put_digits;
use qbf_text::{Sink, SinkFault};
use std::marker::Model;

/// How many bytes are held back at most.
const ROOM: usize = 65536;

/// How many digits a number has at most.
const LONGEST: usize = 20;

/// How many bytes a number takes at most after a blank and a minus.
const LONGEST_SPACED: usize = LONGEST + 2;

/// The bytes that are held back.
#[derive(Drop)]
struct Buffer {
    bytes: [u8; ROOM],
    start: usize,
    end: usize,
}

impl Model for Buffer {
    ghost Value = { List ℕ };

    ghost view = { λ h. take (h.end - h.start) (drop h.start h.bytes) };

    ghost invariant = { λ h. (h.start ≤ h.end) × (h.end ≤ 65536) };
}

impl Buffer {
    /// No bytes.
    fn new() -> Buffer
        ensures { result ≡ [] }
    {
        Buffer {
            bytes: [0; ROOM],
            start: 0,
            end: 0,
        }
    }

    /// The bytes that are held back.
    fn as_slice(&self) -> &[u8]
        ensures { result.now ≡ self.now }
    {
        &self.bytes[self.start..self.end]
    }

    /// Drops the first bytes.
    #[tactic(auto, using(crate::proofs::BufferPart::part, crate::proofs::BufferPart::part_advance))]
    fn advance(&mut self, n: usize)
        requires { n ≤ length self.old }
        ensures { self.new ≡ drop n self.old }
    {
        self.start += n;
    }

    /// Goes back to the front, where there is all the room again. Nothing is held.
    fn begin_again(&mut self)
        requires { self.old ≡ [] }
        ensures { self.new ≡ [] }
    {
        self.start = 0;
        self.end = 0;
    }

    /// Adds the bytes if there is room for all of them, and returns whether there was.
    #[inline(always)]
    #[tactic(auto, using(crate::proofs::BufferPart::part_append))]
    fn append(&mut self, bytes: &[u8]) -> bool
        ensures all { result ≡ true → self.new ≡ self.old ++ bytes.now }
        ensures none { result ≡ false → self.new ≡ self.old }
    {
        if bytes.len() > ROOM - self.end {
            return false;
        }
        let end = self.end + bytes.len();
        self.bytes[self.end..end].copy_from_slice(bytes);
        self.end = end;
        true
    }

    /// Adds the digits of a number if there is room for any number, and returns whether there
    /// was.
    #[inline(always)]
    #[tactic(auto, using(crate::proofs::BufferPart::part_put))]
    fn append_number(&mut self, n: u64) -> bool
        ensures all { result ≡ true → self.new ≡ self.old ++ decimal n }
        ensures none { result ≡ false → self.new ≡ self.old }
    {
        if self.end > ROOM - LONGEST {
            return false;
        }
        let end = put_digits(&mut self.bytes, self.end, n);
        self.end = end;
        true
    }

    /// Adds a number after a blank, directly after a minus if it is negative, if there is room for
    /// any number, and returns whether there was.
    #[inline(always)]
    fn append_spaced(&mut self, negative: bool, n: u64) -> bool
        ensures all { result ≡ true → self.new ≡ self.old ++ 32 ∷ token_text (Number negative n) }
        ensures none { result ≡ false → self.new ≡ self.old }
    {
        if self.end > ROOM - LONGEST_SPACED {
            return false;
        }
        let end = put_spaced(&mut self.bytes, self.end, negative, n);
        self.end = end;
        true
    }

    /// Adds four numbers, each after a blank, if there is room for any four, and returns whether
    /// there was.
    #[inline(always)]
    fn append_four(&mut self, four: [(bool, u64); 4]) -> bool
        ensures all { result ≡ true → self.new ≡ self.old ++ flat_map spaced_text four }
        ensures none { result ≡ false → self.new ≡ self.old }
    {
        if self.end > ROOM - 4 * LONGEST_SPACED {
            return false;
        }
        let end = put_four(&mut self.bytes, self.end, four);
        self.end = end;
        true
    }

    /// Holds a number back, after a blank. Nothing is held before.
    #[tactic(auto, using(crate::proofs::BufferPart::part, crate::proofs::BufferPart::part_put))]
    fn begin_with_spaced(&mut self, negative: bool, n: u64)
        requires { self.old ≡ [] }
        ensures { self.new ≡ 32 ∷ token_text (Number negative n) }
    {
        let end = put_spaced(&mut self.bytes, 0, negative, n);
        self.start = 0;
        self.end = end;
    }

    /// Holds four numbers back, each after a blank. Nothing is held before.
    #[inline(always)]
    #[tactic(auto, using(crate::proofs::BufferPart::part, crate::proofs::BufferPart::part_put))]
    fn begin_with_four(&mut self, four: [(bool, u64); 4])
        requires { self.old ≡ [] }
        ensures { self.new ≡ flat_map spaced_text four }
    {
        let end = put_four(&mut self.bytes, 0, four);
        self.start = 0;
        self.end = end;
    }

    /// Holds the digits of a number back. Nothing is held before.
    #[tactic(auto, using(crate::proofs::BufferPart::part))]
    fn begin_with(&mut self, n: u64)
        requires { self.old ≡ [] }
        ensures { self.new ≡ decimal n }
    {
        let end = put_digits(&mut self.bytes, 0, n);
        self.start = 0;
        self.end = end;
    }

    /// Adds bytes from the front, as far as there is room, and returns how many.
    #[tactic(auto, using(crate::proofs::BufferPart::part, crate::proofs::BufferPart::part_none, crate::proofs::BufferPart::part_append,))]
    fn append_some(&mut self, bytes: &[u8]) -> usize
        ensures fits { result ≤ length bytes.now }
        ensures some { self.old ≡ [] → 0 < length bytes.now → 0 < result }
        ensures bytes { self.new ≡ self.old ++ take result bytes.now }
    {
        if self.start == self.end {
            self.start = 0;
            self.end = 0;
        }
        let n = bytes.len().min(ROOM - self.end);
        self.bytes[self.end..self.end + n].copy_from_slice(&bytes[..n]);
        self.end += n;
        n
    }
}

/// Holds bytes back and sends them on to another sink, many at a time.
///
/// The bytes that it still holds when it is dropped are not sent.
#[derive(Drop)]
pub struct Buffered<S> {
    sink: S,
    buffer: Buffer,
}

impl<S: Sink> Buffered<S> {
    /// A buffer before this sink. Nothing is held back.
    pub fn new(sink: S) -> Buffered<S>
        ensures written { Keeps (S.written sink) (⟦<Buffered<S> as Sink>⟧.written result) }
        ensures failures { ⟦<Buffered<S> as Sink>⟧.failures result ≡ S.failures sink }
    {
        Buffered {
            sink,
            buffer: Buffer::new(),
        }
    }

    /// Sends on what is held back.
    #[cold]
    #[inline(never)]
    fn flush_buffer(&mut self) -> Result<(), SinkFault>
        ensures { Finishes (⟦<Buffered<S> as Sink>⟧.written)
            (⟦<Buffered<S> as Sink>⟧.failures) (λ b. b.buffer ≡ [])
            (⟦<Buffered<S> as Sink>⟧.failed_last) self.old self.new result }
    {
        while !self.buffer.as_slice().is_empty() {
            let n = self.sink.push(self.buffer.as_slice())?;
            self.buffer.advance(n);
        }
        Ok(())
    }

    /// Sends on what is held back, and then holds some of the bytes back, at least one. There must
    /// be some.
    #[cold]
    #[inline(never)]
    fn flush_then_push(&mut self, bytes: &[u8]) -> Result<usize, SinkFault>
        requires { 0 < length bytes.now }
        ensures { Pushes (⟦<Buffered<S> as Sink>⟧.written)
            (⟦<Buffered<S> as Sink>⟧.failures) (⟦<Buffered<S> as Sink>⟧.failed_last)
            self.old self.new bytes.now result }
    {
        self.flush_buffer()?;
        Ok(self.buffer.append_some(bytes))
    }

    /// Sends on what is held back, and then holds the bytes back, or sends them if they are more than
    /// there is room for.
    #[cold]
    #[inline(never)]
    fn flush_then_push_all(&mut self, bytes: &[u8]) -> Result<(), SinkFault>
        ensures { IsPut (⟦<Buffered<S> as Sink>⟧.written)
            (⟦<Buffered<S> as Sink>⟧.failures) (⟦<Buffered<S> as Sink>⟧.failed_last)
            self.old self.new bytes.now result }
    {
        self.flush_buffer()?;
        self.buffer.begin_again();
        if self.buffer.append(bytes) {
            return Ok(());
        }
        self.sink.push_all(bytes)
    }

    /// Sends on what is held back, and then holds the digits of a number back.
    #[cold]
    #[inline(never)]
    fn flush_then_push_number(&mut self, n: u64) -> Result<(), SinkFault>
        ensures { IsPut (⟦<Buffered<S> as Sink>⟧.written)
            (⟦<Buffered<S> as Sink>⟧.failures) (⟦<Buffered<S> as Sink>⟧.failed_last)
            self.old self.new (decimal n) result }
    {
        self.flush_buffer()?;
        self.buffer.begin_with(n);
        Ok(())
    }

    /// Sends on what is held back, and then holds a number back, after a blank.
    #[cold]
    #[inline(never)]
    fn flush_then_push_spaced(&mut self, negative: bool, n: u64) -> Result<(), SinkFault>
        ensures { IsPut (⟦<Buffered<S> as Sink>⟧.written) (⟦<Buffered<S> as Sink>⟧.failures)
            (⟦<Buffered<S> as Sink>⟧.failed_last)
            self.old self.new (32 ∷ token_text (Number negative n)) result }
    {
        self.flush_buffer()?;
        self.buffer.begin_with_spaced(negative, n);
        Ok(())
    }
}

impl<S: Sink> Sink for Buffered<S> {
    ghost written = { λ b. append_known (S.written b.sink) b.buffer };

    ghost failures = { λ b. S.failures b.sink };

    ghost finished = { λ b. (b.buffer ≡ []) × S.finished b.sink };

    ghost failed_last = { λ b. S.failed_last b.sink };

    #[inline(always)]
    fn push(&mut self, bytes: &[u8]) -> Result<usize, SinkFault> {
        if self.buffer.append(bytes) {
            return Ok(bytes.len());
        }
        self.flush_then_push(bytes)
    }

    #[inline(always)]
    fn push_all(&mut self, bytes: &[u8]) -> Result<(), SinkFault> {
        if bytes.is_empty() || self.buffer.append(bytes) {
            return Ok(());
        }
        self.flush_then_push_all(bytes)
    }

    #[inline(always)]
    fn push_number(&mut self, n: u64) -> Result<(), SinkFault> {
        if self.buffer.append_number(n) {
            return Ok(());
        }
        self.flush_then_push_number(n)
    }

    #[inline(always)]
    fn push_spaced(&mut self, negative: bool, n: u64) -> Result<(), SinkFault> {
        if self.buffer.append_spaced(negative, n) {
            Ok(())
        } else {
            self.flush_then_push_spaced(negative, n)
        }
    }

    #[inline(always)]
    fn push_four(&mut self, four: [(bool, u64); 4]) -> Result<(), SinkFault> {
        // Nothing but this takes the numbers, so they need no place in memory.
        if !self.buffer.append_four(four) {
            self.flush_buffer()?;
            self.buffer.begin_with_four(four);
        }
        Ok(())
    }

    fn finish(&mut self) -> Result<(), SinkFault> {
        self.flush_buffer()?;
        self.sink.finish()
    }
}

#[cfg(test)]
mod tests;
