//! Words of eight bytes in the lanes of vectors, and the numbers that they end with.

ghost use Rattle.std.specs.Prelude.{ℕ, ◌≡◌, ◌<◌, ◌≤◌, ◌+◌, ◌*◌, ◌%◌, ◌^◌, ◌++◌, [], ◌∷◌};
ghost use Rattle.std.specs.Prelude.{length, slice_index, true};
ghost use Rattle.std.specs.Int.Digits.{number_from_digits};
ghost use Rattle.std.specs.Simd.Lanes.{zip2, Each1, chunk};
ghost use Rattle.window_numbers.specs.Lanes.{mask_of, sign_of, with_sign};

use std::simd::prelude::*;

/// Eight bytes from one place on, and eight from another.
#[inline(always)]
#[tactic(auto, using(crate::proofs::LaneWindows::all_bytes))]
pub fn two_words(bytes: &[u8], p: usize, q: usize) -> u8x16
    requires { (p + 8 ≤ length bytes.now) × (q + 8 ≤ length bytes.now) }
    ensures { result ≡ chunk p 8 bytes.now ++ chunk q 8 bytes.now }
{
    let a = u8x8::from_slice(&bytes[p..]);
    let b = u8x8::from_slice(&bytes[q..]);
    a.shuffle(b, [0, 1, 2, 3, 4, 5, 6, 7, 8, 9, 10, 11, 12, 13, 14, 15])
}

/// The eight bytes from the place `n` on are the mask of the last `n` bytes of eight.
const MASKS: [u8; 16] = [
    0, 0, 0, 0, 0, 0, 0, 0, 255, 255, 255, 255, 255, 255, 255, 255,
];

/// The masks of the last bytes of two words.
#[inline(always)]
#[tactic(auto, using(crate::proofs::LaneWindows::mask_at))]
pub fn two_masks(n: usize, m: usize) -> u8x16
    requires { (n ≤ 8) × (m ≤ 8) }
    ensures { result ≡ mask_of n ++ mask_of m }
{
    two_words(&MASKS, n, m)
}

/// The four numbers of four digits each: digits are joined to pairs, and pairs to fours.
#[inline(always)]
#[tactic(auto, using(crate::proofs::LaneSteps::fours_of))]
pub fn four_fours(digits: u8x16) -> u32x4
    ensures { result ≡ number_from_digits 10 (chunk 0 4 digits)
        ∷ number_from_digits 10 (chunk 4 4 digits) ∷ number_from_digits 10 (chunk 8 4 digits)
        ∷ number_from_digits 10 (chunk 12 4 digits) ∷ [] }
{
    let x = u16x8::from_le_bytes(digits);
    let pairs = (x & u16x8::splat(0xFF)) * u16x8::splat(10) + (x >> 8);
    let y = u32x4::from_le_bytes(pairs.to_le_bytes());
    (y & u32x4::splat(0xFFFF)) * u32x4::splat(100) + (y >> 16)
}

/// The numbers of eight digits, each joined from two numbers of four digits.
#[inline(always)]
#[tactic(auto, using(crate::proofs::LaneSteps::eights_of))]
pub fn four_eights(a: u32x4, b: u32x4) -> u32x4
    ensures { result ≡ (slice_index a 0 * 10000 + slice_index a 1) % 2 ^ 32
        ∷ (slice_index a 2 * 10000 + slice_index a 3) % 2 ^ 32
        ∷ (slice_index b 0 * 10000 + slice_index b 1) % 2 ^ 32
        ∷ (slice_index b 2 * 10000 + slice_index b 3) % 2 ^ 32 ∷ [] }
{
    let first = a.shuffle(b, [0, 2, 4, 6]);
    let last = a.shuffle(b, [1, 3, 5, 7]);
    first * u32x4::splat(10000) + last
}

/// The low halves of all four words.
#[inline(always)]
pub fn low_halves(a: u64x2, b: u64x2) -> u32x4
    ensures { result ≡ slice_index a 0 % 2 ^ 32 ∷ slice_index a 1 % 2 ^ 32
        ∷ slice_index b 0 % 2 ^ 32 ∷ slice_index b 1 % 2 ^ 32 ∷ [] }
{
    u32x4::from_le_bytes(a.to_le_bytes()).shuffle(
        u32x4::from_le_bytes(b.to_le_bytes()),
        [0, 2, 4, 6],
    )
}

/// Whether each byte is below ten.
#[inline(always)]
#[tactic(auto, using(crate::proofs::BelowTen::all_small))]
fn surely_below_ten(bytes: u8x16) -> bool
    ensures { result ≡ true → Each1 (λ x. x < 10) bytes }
{
    bytes.simd_gt(u8x16::splat(9)).to_bitmask() == 0
}

/// Whether each byte of all three is below ten.
#[inline(always)]
pub fn all_below_ten(a: u8x16, b: u8x16, c: u8x16) -> bool
    ensures { result ≡ true → Each1 (λ x. x < 10) a × Each1 (λ x. x < 10) b
        × Each1 (λ x. x < 10) c }
{
    surely_below_ten(a.simd_max(b).simd_max(c))
}

/// The signs of two words: all bits of the lower half are set if a mask was changed.
#[inline(always)]
#[tactic(auto, using(crate::proofs::ZeroMarks::signs_are))]
pub fn two_signs(keep: u8x16, whole: u8x16) -> u64x2
    ensures { result ≡ sign_of (chunk 0 8 keep) (chunk 0 8 whole)
        ∷ sign_of (chunk 8 8 keep) (chunk 8 8 whole) ∷ [] }
{
    u64x2::from_le_bytes(keep)
        .simd_eq(u64x2::from_le_bytes(whole))
        .select(u64x2::splat(0), u64x2::splat(0xFFFF_FFFF))
}

/// The signs of the values that are zero, as bytes.
#[inline(always)]
#[tactic(auto, using(crate::proofs::ZeroMarks::no_sign))]
pub fn signs_of_zeros(values: u32x4, signs: u32x4) -> u8x16
    ensures { Each1 (λ x. x < 10) result → (i : ℕ) → i < 4 → slice_index values i ≡ 0
        → slice_index signs i % 256 < 10 }
{
    values
        .simd_eq(u32x4::splat(0))
        .select(signs, u32x4::splat(0))
        .to_le_bytes()
}

/// The values, negative if the highest bit of the sign is set.
#[inline(always)]
#[tactic(auto, using(crate::proofs::SignedLanes::signed_lanes))]
pub fn signed(values: u32x4, signs: u32x4) -> i32x4
    requires { Each1 (λ v. v < 2 ^ 31) values }
    ensures { result ≡ zip2 with_sign values signs }
{
    let plain = values.cast::<i32>();
    u32x4::splat(0x7FFF_FFFF)
        .simd_lt(signs)
        .select(i32x4::splat(0) - plain, plain)
}
