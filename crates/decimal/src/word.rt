//! Decimal digits in a machine word of eight bytes, the first of them the lowest.

ghost use Rattle.std.specs.Prelude.{◌⊎◌, IfSome, IfNone, ◌≡◌, ◌<◌, ◌≤◌, true, take};
ghost use Rattle.std.specs.Char.{is_ascii_digit};
ghost use Rattle.std.specs.List.{prefix_len};
ghost use Rattle.std.specs.Int.{w64, to_le_bytes};
ghost use Rattle.std.specs.Int.Digits.{number_from_digits, AllBelowBase};
ghost use Rattle.std.specs.Str.Parse.{digits_value};

/// A zero digit in each byte.
const ZEROS: u64 = 0x3030303030303030;

/// Bytes 0 and 4 of a word.
const FIRST_OF_FOUR: u64 = 0x000000FF000000FF;

/// How many of the word's eight bytes, from the lowest on, are decimal digits.
///
/// The highest bit marks a byte that is not a digit: `^` makes such a byte 10 or more, so that it
/// has that bit already, or adding 118 sets it. Only such a byte carries, and only into the bytes
/// after it.
#[inline(always)]
fn digit_run(word: u64) -> u32
    ensures { result ≡ prefix_len is_ascii_digit (to_le_bytes w64 word) }
{
    let turned = word ^ ZEROS;
    let marks = (turned.wrapping_add(0x7676767676767676) | turned) & 0x8080808080808080;
    marks.trailing_zeros() / 8
}

/// The number whose eight digits are the word's bytes, the lowest byte first. Three multiplications
/// join digits to pairs, pairs to fours, and fours to the number.
#[inline(always)]
fn eight_digits(digits: u64) -> u64
    requires { AllBelowBase 10 (to_le_bytes w64 digits) }
    ensures { result ≡ number_from_digits 10 (to_le_bytes w64 digits) }
{
    let pairs = digits.wrapping_mul(10).wrapping_add(digits >> 8);
    let odd = (pairs & FIRST_OF_FOUR).wrapping_mul(0x000F424000000064);
    let even = ((pairs >> 16) & FIRST_OF_FOUR).wrapping_mul(0x0000271000000001);
    odd.wrapping_add(even) >> 32
}

/// Whether each of the word's bytes is below ten, so that the addition marks none.
#[inline(always)]
fn surely_digits(word: u64) -> bool
    ensures { result ≡ true → AllBelowBase 10 (to_le_bytes w64 word) }
{
    (word.wrapping_add(0x7676767676767676) | word) & 0x8080808080808080 == 0
}

/// The decimal number of `len` digits that the word's bytes begin with, from the lowest on, or
/// `None` if one of them is not a digit.
#[inline(always)]
pub fn number_of_len(word: u64, len: u32) -> Option<u64>
    requires { (0 < len) × (len ≤ 8) }
    ensures { IfSome result (λ v. (len ≤ prefix_len is_ascii_digit (to_le_bytes w64 word))
        × (v ≡ digits_value 10 (take len (to_le_bytes w64 word)))) }
{
    let digits = (word ^ ZEROS) << (64 - 8 * len);
    if !surely_digits(digits) {
        return None;
    }
    Some(eight_digits(digits))
}

/// The decimal number that the word's bytes begin with, from the lowest on, and how many digits it
/// has: one to seven.
#[inline(always)]
#[tactic(auto, using(std::proofs::lemmas::Grind::common_steps, crate::proofs::Moved::short))]
pub fn short_number(word: u64) -> Option<(u32, u64)>
    ensures none { IfNone result ((prefix_len is_ascii_digit (to_le_bytes w64 word) ≡ 0)
        ⊎ (prefix_len is_ascii_digit (to_le_bytes w64 word) ≡ 8)) }
    ensures len { IfSome result (λ r. r.0 ≡ prefix_len is_ascii_digit (to_le_bytes w64 word)) }
    ensures short { IfSome result (λ r. (0 < r.0) × (r.0 < 8)) }
    ensures value { IfSome result (λ r. r.1 ≡ digits_value 10 (take r.0 (to_le_bytes w64 word))) }
{
    let len = digit_run(word);
    if len == 0 || len == 8 {
        return None;
    }
    Some((len, eight_digits((word ^ ZEROS) << (64 - 8 * len))))
}
