//! The decimal digits that stand at a place of some bytes.

ghost use Rattle.std.specs.Prelude.{◌≡◌, ◌+◌, ◌-◌, ◌*◌, ◌^◌, ◌≤◌, ◌<◌, length, take, drop};
ghost use Rattle.std.specs.Prelude.{true, false, IfSome};
ghost use Rattle.std.specs.Int.{w64, to_le_bytes};
ghost use Rattle.std.specs.Str.Parse.{digits_value, AllDigits};
ghost use Rattle.decimal.specs.Digits.{AreDigits, AreLeadingDigits, IsEight, IsWithZeros};
ghost use Rattle.decimal.specs.declared.number.TheConstants.{MOST};

use crate::word::{number_of_len, short_number};

/// At most this many digits are read: more than these, but for leading zeros, do not fit.
const MOST: usize = 20;

/// Whether a number with one digit more fits in 64 bits.
#[inline(always)]
fn fits(value: u64, digit: u64) -> bool
    requires { digit ≤ 9 }
    ensures yes { result ≡ true → value * 10 + digit < 2 ^ 64 }
    ensures no { result ≡ false → 2 ^ 64 ≤ value * 10 + digit }
{
    value < 1844674407370955161 || (value == 1844674407370955161 && digit <= 5)
}

/// Finds the digits as `digits` does, byte by byte: for any length, and at the end of the bytes.
#[cold]
#[inline(never)]
#[tactic(auto, using(crate::proofs::OneMore::one_more))]
fn by_digit(bytes: &[u8], from: usize) -> (u64, usize)
    requires { from ≤ length bytes.now }
    ensures { AreLeadingDigits bytes.now from result }
{
    let rest = &bytes[from..];
    let mut value = 0;
    let mut i = 0;
    while i < MOST && i < rest.len() && rest[i].is_ascii_digit() {
        let digit = u64::from(rest[i] - b'0');
        if !fits(value, digit) {
            break;
        }
        value = value * 10 + digit;
        i += 1;
    }
    (value, from + i)
}

/// The first eight bytes as a word, if there are so many.
#[inline(always)]
fn first_word(bytes: &[u8]) -> Option<u64>
    ensures within { IfSome result (λ _. 8 ≤ length bytes.now) }
    ensures bytes { IfSome result (λ w. to_le_bytes w64 w ≡ take 8 bytes.now) }
    ensures fits { IfSome result (λ w. w < 2 ^ 64) }
{
    let eight = bytes.first_chunk::<8>()?;
    Some(u64::from_le_bytes(*eight))
}

/// Finds the digits as `digits` does if they end within the first eight bytes, else `None`.
#[inline(always)]
fn by_word(bytes: &[u8], from: usize) -> Option<(u64, usize)>
    ensures digits { IfSome result (λ r. AreDigits bytes.now from r.1 r.0) }
    ensures short { IfSome result (λ r. r.1 < 8) }
{
    if from >= 8 {
        return None;
    }
    let word = first_word(bytes)?;
    let (len, value) = short_number(word >> (8 * from))?;
    let end = from + len as usize;
    if end >= 8 {
        return None;
    }
    Some((value, end))
}

/// Added to a word, this makes a minus in the lowest byte the digit 0.
const MINUS_TO_ZERO: u64 = 3;

/// The first eight bytes as a word, with the digit 0 in place of a leading minus.
#[inline(always)]
fn without_sign(bytes: &[u8], from: usize) -> Option<u64>
    ensures { IfSome result (IsWithZeros bytes.now from) }
{
    let word = first_word(bytes)?;
    match from {
        0 => Some(word),
        1 if bytes[0] == b'-' => Some(word.wrapping_add(MINUS_TO_ZERO)),
        _ => None,
    }
}

/// The number that is written before a place among the first eight bytes, from the first of them on
/// or after a minus there. `None` if one of the bytes is not a decimal digit, or not all eight are
/// there.
#[inline(always)]
#[tactic(auto, using(crate::proofs::Signs::digits_read, crate::proofs::Signs::value_read))]
fn short_between(bytes: &[u8], from: usize, end: usize) -> Option<u64>
    requires { (0 < end) × (end ≤ 8) }
    ensures within { IfSome result (λ _. 8 ≤ length bytes.now) }
    ensures digits { IfSome result (λ _. AllDigits 10 (take (end - from) (drop from bytes.now))) }
    ensures value { IfSome result
        (λ v. v ≡ digits_value 10 (take (end - from) (drop from bytes.now))) }
{
    let word = without_sign(bytes, from)?;
    number_of_len(word, end as u32)
}

/// The number that is written before a place after the first eight bytes, as `number_between` finds
/// it: the last eight digits are read as one word, and those before them as another.
#[inline(always)]
fn long_between(bytes: &[u8], from: usize, end: usize) -> Option<u64>
    requires place { (8 < end) × (end ≤ 16) }
    requires sign { from ≤ 1 }
    ensures digits { IfSome result (λ _. AllDigits 10 (take (end - from) (drop from bytes.now))) }
    ensures value { IfSome result
        (λ v. v ≡ digits_value 10 (take (end - from) (drop from bytes.now))) }
{
    let mid = end - 8;
    let high = short_between(bytes, from, mid)?;
    if mid >= bytes.len() {
        return None;
    }
    let low = short_between(&bytes[mid..], 0, 8)?;
    let shifted = high.checked_mul(100_000_000)?;
    let all = shifted.checked_add(low)?;
    Some(all)
}

/// The number that is written before a place among the first sixteen bytes, from the first of them
/// on or after a minus there. `None` if one of the bytes is not a decimal digit, or not all that are
/// looked at are there: eight, or those before the place if they are more.
///
/// It looks at no byte after these, so that the next place does not wait for what stands here.
#[inline(always)]
pub fn number_between(bytes: &[u8], from: usize, end: usize) -> Option<u64>
    requires place { (0 < end) × (end ≤ 16) }
    requires sign { from ≤ 1 }
    ensures digits { IfSome result (λ _. AllDigits 10 (take (end - from) (drop from bytes.now))) }
    ensures value { IfSome result
        (λ v. v ≡ digits_value 10 (take (end - from) (drop from bytes.now))) }
{
    if end <= 8 {
        short_between(bytes, from, end)
    } else {
        long_between(bytes, from, end)
    }
}

/// The number that is written before a place, as `number_between` finds it, if eight digits end
/// there: `mid` is the place of the first of them, and `last` is their value.
#[inline(always)]
pub fn number_with_last(bytes: &[u8], from: usize, mid: usize, last: u64) -> Option<u64>
    requires place { (0 < mid) × (mid ≤ 16) }
    requires sign { from ≤ 1 }
    requires last { IsEight bytes.now mid last }
    ensures digits { IfSome result
        (λ _. AllDigits 10 (take (mid + 8 - from) (drop from bytes.now))) }
    ensures value { IfSome result
        (λ v. v ≡ digits_value 10 (take (mid + 8 - from) (drop from bytes.now))) }
{
    let high = number_between(bytes, from, mid)?;
    let shifted = high.checked_mul(100_000_000)?;
    let all = shifted.checked_add(last)?;
    Some(all)
}

/// The value of the decimal digits from the place `from` on, at most 20 of them and as far as it
/// fits in 64 bits, and the place after them: `(0, from)` if there are none. The place is at most
/// the length.
///
/// If the digits end within the first eight bytes, these are taken as one word, whose place does
/// not depend on `from`.
#[inline(always)]
pub fn digits(bytes: &[u8], from: usize) -> (u64, usize)
    requires { from ≤ length bytes.now }
    ensures { AreLeadingDigits bytes.now from result }
{
    match by_word(bytes, from) {
        Some(found) => found,
        None => by_digit(bytes, from),
    }
}

#[cfg(test)]
mod tests;
