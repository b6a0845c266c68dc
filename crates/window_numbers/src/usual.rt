//! Usual numbers: below 2 to the power of 31, but for their signs.

ghost use Rattle.std.specs.Prelude.{◌≡◌, ◌+◌, ◌<◌, IfSome, pos, unsigned_abs, int_lt, nat_eq, ◌&&◌};
ghost use Rattle.std.specs.Prelude.{◌↔◌, ◌^◌, IsTrue, false, true};
ghost use Rattle.window_numbers.specs.Numbers.{BeginsWithValue};
ghost use Rattle.qbf_tokens.specs.Left.{is_separator};

use crate::cursor::{begins_with_minus, is_minus_zero};
use decimal::number_between;
use qbf_tokens::is_separator;

/// The number with this sign and magnitude.
#[inline(always)]
pub fn signed(negative: bool, magnitude: u64) -> i32
    requires { magnitude < 2 ^ 31 }
    ensures magnitude { unsigned_abs result ≡ magnitude }
    ensures sign { (negative && nat_eq magnitude 0) ≡ false → int_lt result (pos 0) ≡ negative }
{
    let value = magnitude as i32;
    if negative { -value } else { value }
}

/// Whether digits and their sign write a number that is below 2 to the power of 31, but for the
/// sign, if this byte follows them.
#[inline(always)]
fn is_usual(negative: bool, magnitude: u64, next: u8) -> bool
    ensures { IsTrue result ↔ ((negative && nat_eq magnitude 0) ≡ false)
        × (magnitude < 2 ^ 31) × (is_separator next ≡ true) }
{
    !is_minus_zero(negative, magnitude) && magnitude < 2_147_483_648 && is_separator(next)
}

/// How many bytes a usual number has at most: a minus and ten digits.
const LONGEST: usize = 11;

/// The number that the bytes begin with, if it is a usual one and a separator follows it at the
/// place `end`.
#[inline(always)]
pub fn number_before(bytes: &[u8], end: usize) -> Option<i32>
    ensures begins { IfSome result (λ value. BeginsWithValue bytes.now (end + 1) value) }
    ensures short { IfSome result (λ value. unsigned_abs value < 2 ^ 31) }
{
    if end >= bytes.len() || end.wrapping_sub(1) >= LONGEST {
        return None;
    }
    let negative = begins_with_minus(bytes);
    let start = usize::from(negative);
    let magnitude = number_between(bytes, start, end)?;
    if !is_usual(negative, magnitude, bytes[end]) {
        return None;
    }
    Some(signed(negative, magnitude))
}
