//! Line ends among bytes.

ghost use Rattle.std.specs.Prelude.{◌≡◌, ◌≤◌, ◌<◌, length, map, take, count_by};
ghost use Rattle.std.specs.Simd.Lanes.{mask_l};
ghost use Rattle.qbf_tokens.specs.Left.{IsWithinLine};
ghost use Rattle.qbf_tokens.specs.Tokens.{is_line_end};
ghost use Rattle.window_numbers.specs.declared.lines.TheConstants.{BLOCK};

use std::simd::prelude::*;

/// How many bytes are looked at together.
const BLOCK: usize = 16;

/// A bit for each of the first 16 bytes, the lowest for the first: whether it ends a line.
#[inline(always)]
#[tactic(auto, using(crate::proofs::LineEnds::marks_are))]
fn marks_of(block: &[u8]) -> u64
    requires { BLOCK ≤ length block.now }
    ensures { result ≡ mask_l (map is_line_end (take BLOCK block.now)) }
{
    u8x16::from_slice(block)
        .simd_eq(u8x16::splat(b'\n'))
        .to_bitmask()
}

/// How many line ends there are among the first 16 bytes.
#[inline(always)]
fn count_in_block(block: &[u8]) -> usize
    requires { BLOCK ≤ length block.now }
    ensures few { result ≤ 64 }
    ensures counted { result ≡ count_by is_line_end (take BLOCK block.now) }
{
    marks_of(block).count_ones() as usize
}

/// How many line ends there are, looked for byte by byte.
#[inline(always)]
fn count_by_byte(bytes: &[u8]) -> usize
    ensures { result ≡ count_by is_line_end bytes.now }
{
    let mut count = 0;
    let mut i = 0;
    while i < bytes.len() {
        count += usize::from(bytes[i] == b'\n');
        i += 1;
    }
    count
}

/// How many line ends there are among so many of the first bytes, fewer than 16.
#[inline(always)]
fn count_few(bytes: &[u8], len: usize) -> usize
    requires few { len < BLOCK }
    requires within { len ≤ length bytes.now }
    ensures { result ≡ count_by is_line_end (take len bytes.now) }
{
    if bytes.len() < BLOCK {
        return count_by_byte(&bytes[..len]);
    }
    let marks = marks_of(bytes) % (1 << len);
    marks.count_ones() as usize
}

/// How many line ends there are among so many of the first bytes.
#[inline(never)]
pub fn count_line_ends(bytes: &[u8], len: usize) -> u64
    requires { len ≤ length bytes.now }
    ensures { result ≡ count_by is_line_end (take len bytes.now) }
{
    let mut count = 0;
    let mut i = 0;
    while len - i >= BLOCK {
        count += count_in_block(&bytes[i..]);
        i += BLOCK;
    }
    let rest = count_few(&bytes[i..], len - i);
    (count + rest) as u64
}
