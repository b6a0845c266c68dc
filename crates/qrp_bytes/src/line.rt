//! A short line that is kept in place, without an allocation.

ghost use Rattle.std.specs.Prelude.{◌≡◌, ◌≤◌, ◌<◌, Some, [], length, take, ⊤};

use qbf_text::{Sink, SinkFault};

/// How many bytes a line can have: the longest, `REFUSED formula F4 line 18446744073709551615` with
/// its end, has 45.
pub const ROOM: usize = 47;

/// A sink that keeps the bytes that were sent, up to 47. It fails only if it is full.
#[derive(Drop)]
pub struct Line {
    bytes: [u8; ROOM],
    end: usize,
    failures: u64,
    ghost fits: { end ≤ 47 },
    ghost full: { 0 < failures → length (take end bytes) ≡ 47 },
}

impl Line {
    /// No bytes.
    pub fn new() -> Line
        ensures written { ⟦<Line as Sink>⟧.written result ≡ Some [] }
        ensures failures { ⟦<Line as Sink>⟧.failures result ≡ 0 }
    {
        Line {
            bytes: [0; ROOM],
            end: 0,
            failures: 0,
        }
    }

    /// The bytes that were sent.
    pub fn as_slice(&self) -> &[u8]
        ensures written { ⟦<Line as Sink>⟧.written self.now ≡ Some result.now }
        ensures short { length result.now ≤ 47 }
    {
        &self.bytes[..self.end]
    }
}

impl Sink for Line {
    ghost written = { λ s. Some (take s.end s.bytes) };

    ghost failures = { λ s. s.failures };

    ghost finished = { λ _. ⊤ };

    ghost failed_last = { λ _. ⊤ };

    fn push(&mut self, bytes: &[u8]) -> Result<usize, SinkFault> {
        let n = bytes.len().min(ROOM - self.end);
        if n == 0 {
            self.failures = self.failures.saturating_add(1);
            return Err(SinkFault);
        }
        self.bytes[self.end..self.end + n].copy_from_slice(&bytes[..n]);
        self.end += n;
        Ok(n)
    }

    fn finish(&mut self) -> Result<(), SinkFault> {
        Ok(())
    }
}
