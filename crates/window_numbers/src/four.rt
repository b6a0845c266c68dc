//! Four signed numbers in a row, all at once.

ghost use Rattle.std.specs.Prelude.{◌≡◌, ◌⊎◌, ◌<◌, ◌≤◌, ◌+◌, ◌*◌, ◌^◌, IfSome, true};
ghost use Rattle.std.specs.Prelude.{length, map, slice_index, IsTrue, ◌↔◌};
ghost use Rattle.std.specs.Simd.Lanes.{Each1, mask_l};
ghost use Rattle.window_numbers.specs.Lanes.{IsPlace, Writes};
ghost use Rattle.window_numbers.specs.SignedNumbers.{AreBetween, AreInARow, between, is_zero};

use crate::lanes::{
    all_below_ten, four_eights, four_fours, low_halves, signed, signs_of_zeros, two_masks,
    two_signs, two_words,
};
use std::simd::prelude::*;

/// Four numbers in a row.
#[derive(Clone, Copy)]
pub struct FourNumbers {
    /// Their values.
    pub values: i32x4,
    /// Which of them are zero, the first by the lowest bit.
    pub zeros: u64,
}

/// Two numbers: the values of their halves, of four digits each, their signs, and the values of all
/// their digits. If the value of a digit is not below ten, the others say nothing.
#[derive(Clone, Copy)]
struct Two {
    fours: u32x4,
    signs: u64x2,
    digits: u8x16,
}

/// Two numbers, each between two places.
#[inline(always)]
fn two_at(bytes: &[u8], from: [usize; 2], end: [usize; 2]) -> Two
    requires first { IsPlace (length bytes.now) (slice_index from 0) (slice_index end 0) }
    requires second { IsPlace (length bytes.now) (slice_index from 1) (slice_index end 1) }
    ensures { Each1 (λ x. x < 10) result.digits
        → Writes (between bytes.now (slice_index from 0) (slice_index end 0))
        (slice_index result.fours 0 * 10000 + slice_index result.fours 1)
        (slice_index result.signs 0)
        × Writes (between bytes.now (slice_index from 1) (slice_index end 1))
        (slice_index result.fours 2 * 10000 + slice_index result.fours 3)
        (slice_index result.signs 1) }
{
    let [n, m] = [end[0] - from[0], end[1] - from[1]];
    let word = two_words(bytes, end[0] - 8, end[1] - 8);
    let whole = two_masks(n, m);
    let rest = two_masks(n - 1, m - 1);
    let keep = word.simd_eq(u8x16::splat(b'-')).select(rest, whole);
    let digits = (word ^ u8x16::splat(b'0')) & keep;
    Two {
        fours: four_fours(digits),
        signs: two_signs(keep, whole),
        digits,
    }
}

/// Whether a place is at most seven after another.
#[inline(always)]
fn is_near(before: usize, place: usize) -> bool
    ensures { (before + 8 ≤ 2 ^ 64) ⊎ (8 ≤ place)
        → (IsTrue result ↔ (before ≤ place) × (place < before + 8)) }
{
    place.wrapping_sub(before) < 8
}

/// Whether four numbers in a row may end there: each has one to eight bytes, eight bytes come
/// before the first end, and one after the last.
#[inline(always)]
fn surely_row(len: usize, from: usize, ends: [usize; 4]) -> bool
    requires { len < 2 ^ 63 }
    ensures { result ≡ true → IsPlace len from (slice_index ends 0)
        × IsPlace len (slice_index ends 0 + 1) (slice_index ends 1)
        × IsPlace len (slice_index ends 1 + 1) (slice_index ends 2)
        × IsPlace len (slice_index ends 2 + 1) (slice_index ends 3) }
{
    let [e0, e1, e2, e3] = ends;
    if e0 < 8 || e0 >= len || e3 >= len {
        return false;
    }
    is_near(from.wrapping_add(1), e0)
        & is_near(e0.wrapping_add(2), e1)
        & is_near(e1.wrapping_add(2), e2)
        & is_near(e2.wrapping_add(2), e3)
}

/// Whether a number may stand between two places: it has one to eight bytes, eight bytes come
/// before its end, and one after it.
#[inline(always)]
fn is_place(len: usize, start: usize, end: usize) -> bool
    requires { len < 2 ^ 63 }
    ensures { result ≡ true → IsPlace len start end }
{
    end >= 8 && end < len && is_near(start.wrapping_add(1), end)
}

/// Whether numbers may stand between each of the first places and each of the others.
#[inline(always)]
fn are_places(len: usize, starts: [usize; 4], ends: [usize; 4]) -> bool
    requires { len < 2 ^ 63 }
    ensures { result ≡ true → IsPlace len (slice_index starts 0) (slice_index ends 0)
        × IsPlace len (slice_index starts 1) (slice_index ends 1)
        × IsPlace len (slice_index starts 2) (slice_index ends 2)
        × IsPlace len (slice_index starts 3) (slice_index ends 3) }
{
    let [s0, s1, s2, s3] = starts;
    let [e0, e1, e2, e3] = ends;
    is_place(len, s0, e0) && is_place(len, s1, e1) && is_place(len, s2, e2) && is_place(len, s3, e3)
}

/// The four numbers between these places, where numbers may stand.
#[inline(always)]
fn read_four(bytes: &[u8], starts: [usize; 4], ends: [usize; 4]) -> Option<FourNumbers>
    requires first { IsPlace (length bytes.now) (slice_index starts 0) (slice_index ends 0) }
    requires second { IsPlace (length bytes.now) (slice_index starts 1) (slice_index ends 1) }
    requires third { IsPlace (length bytes.now) (slice_index starts 2) (slice_index ends 2) }
    requires fourth { IsPlace (length bytes.now) (slice_index starts 3) (slice_index ends 3) }
    ensures numbers { IfSome result (λ r. AreBetween bytes.now starts ends r.values) }
    ensures zeros { IfSome result (λ r. r.zeros ≡ mask_l (map is_zero r.values)) }
{
    let [s0, s1, s2, s3] = starts;
    let [e0, e1, e2, e3] = ends;
    let a = two_at(bytes, [s0, s1], [e0, e1]);
    let b = two_at(bytes, [s2, s3], [e2, e3]);
    let values = four_eights(a.fours, b.fours);
    let signs = low_halves(a.signs, b.signs);
    if !all_below_ten(a.digits, b.digits, signs_of_zeros(values, signs)) {
        return None;
    }
    Some(FourNumbers {
        values: signed(values, signs),
        zeros: values.simd_eq(u32x4::splat(0)).to_bitmask(),
    })
}

/// The four numbers in a row of which the first begins at a place, and each other one byte after
/// the end of the last. Each is digits, or a minus and digits, of one to eight bytes in all.
///
/// `None` if they are not so, for a 0 after a minus, and if fewer than eight bytes come before the
/// first end or none after the last. The bytes at the ends and before the first number are not
/// looked at: whether they part tokens is left to the caller.
#[inline(always)]
pub fn four_numbers(bytes: &[u8], from: usize, ends: [usize; 4]) -> Option<FourNumbers>
    ensures numbers { IfSome result (λ r. AreInARow bytes.now from ends r.values) }
    ensures within { IfSome result (λ r. slice_index ends 3 < length bytes.now) }
    ensures zeros { IfSome result (λ r. r.zeros ≡ mask_l (map is_zero r.values)) }
{
    if !surely_row(bytes.len(), from, ends) {
        return None;
    }
    let [e0, e1, e2, _] = ends;
    let four = read_four(bytes, [from, e0 + 1, e1 + 1, e2 + 1], ends)?;
    Some(four)
}

/// The four numbers of which each begins at one of the first places and ends before one of the
/// others. Each is digits, or a minus and digits, of one to eight bytes in all.
///
/// `None` if they are not so, for a 0 after a minus, and if fewer than eight bytes come before an
/// end or none after it. No byte outside of them is looked at.
#[inline(always)]
pub fn four_numbers_between(
    bytes: &[u8],
    starts: [usize; 4],
    ends: [usize; 4],
) -> Option<FourNumbers>
    ensures numbers { IfSome result (λ r. AreBetween bytes.now starts ends r.values) }
    ensures within { IfSome result (λ r.
        (slice_index ends 0 < length bytes.now) × (slice_index ends 1 < length bytes.now)
        × (slice_index ends 2 < length bytes.now) × (slice_index ends 3 < length bytes.now)) }
    ensures zeros { IfSome result (λ r. r.zeros ≡ mask_l (map is_zero r.values)) }
{
    if !are_places(bytes.len(), starts, ends) {
        return None;
    }
    let four = read_four(bytes, starts, ends)?;
    Some(four)
}

#[cfg(test)]
mod tests;
