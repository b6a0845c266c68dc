//! Where the next comment line of a window seems to begin.

ghost use Rattle.std.specs.Prelude.{◌≤◌, length, IfSome};
ghost use Rattle.window_numbers.specs.declared.comments.TheConstants.{FEW_BYTES};
ghost use Rattle.window_numbers.specs.declared.numbers.TheConstants.{ROOM};

use crate::numbers::ROOM;
use std::simd::prelude::*;

/// How many bytes are looked at together to find a comment.
const FEW_BYTES: usize = 32;

/// A bit for each of the first 32 bytes, the lowest for the first: whether it is `c` or `#`, with
/// which comments begin.
#[inline(always)]
fn comments_of(block: &[u8]) -> u64
    requires { FEW_BYTES ≤ length block.now }
{
    let lower = u8x32::from_slice(block) | u8x32::splat(b'c' ^ b'#');
    lower.simd_eq(u8x32::splat(b'c')).to_bitmask()
}

/// How many bytes are looked at to find a comment: to look at more takes as long as is saved.
const NEAR: usize = 128;

/// The place where the next comment begins, as it seems, if it is near.
#[inline(always)]
pub fn next_comment(bytes: &[u8], from: usize) -> Option<usize>
    requires from { from ≤ length bytes.now }
    requires small { length bytes.now ≤ ROOM }
    ensures { IfSome result (λ place. place ≤ length bytes.now) }
{
    let end = bytes.len().min(from + NEAR);
    let mut at = from;
    while end - at >= FEW_BYTES {
        let comments = comments_of(&bytes[at..]);
        if comments != 0 {
            return Some(bytes.len().min(at + comments.trailing_zeros() as usize));
        }
        at += FEW_BYTES;
    }
    None
}
