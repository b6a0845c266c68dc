//! The rest of a line.

ghost use Rattle.std.specs.Prelude.{◌≡◌, ◌<◌, ◌≤◌, length, take, slice_index};
ghost use Rattle.qbf_tokens.specs.Left.{IsWithinLine};

use memchr::memchr;

/// How many bytes come before the first line end, or how many there are if there is none.
#[inline(always)]
pub fn line_len(bytes: &[u8]) -> usize
    ensures within { result ≤ length bytes.now }
    ensures line { IsWithinLine (take result bytes.now) }
    ensures end { result < length bytes.now → slice_index bytes.now result ≡ 10 }
{
    match memchr(b'\n', bytes) {
        Some(place) => place,
        None => bytes.len(),
    }
}
