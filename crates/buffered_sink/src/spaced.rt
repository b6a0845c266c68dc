//! Numbers after blanks.

ghost use Rattle.std.specs.Prelude.{◌+◌, ◌-◌, ◌≤◌, ◌∷◌, length, decimal};
ghost use Rattle.std.specs.List.{flat_map};
ghost use Rattle.decimal.specs.Digits.{IsPutFrom};
ghost use Rattle.qbf_tokens.specs.Canonical.{token_text};
ghost use Rattle.qbf_tokens.specs.declared.token.Token.TheVariants.{Number};
ghost use Rattle.qbf_text.specs.Written.{spaced_text};

use decimal::put_digits;

/// Puts a blank and a number from a place on, with a minus before the digits if it is negative, and
/// returns where it ends. There is room for the longest number.
#[inline(always)]
#[tactic(auto, using(crate::proofs::Fronts::at_most_one))]
pub fn put_spaced(bytes: &mut [u8], at: usize, negative: bool, n: u64) -> usize
    requires { at + 22 ≤ length bytes.old }
    ensures put { IsPutFrom bytes.old bytes.new at result (32 ∷ token_text (Number negative n)) }
    ensures within { result ≤ at + 22 }
{
    let last = at + usize::from(negative);
    bytes[last] = b'-';
    bytes[at] = b' ';
    put_digits(bytes, last + 1, n)
}

/// Puts four numbers, each as `put_spaced` puts it, and returns where the last one ends. There is
/// room for four of the longest.
#[inline(always)]
#[tactic(auto, using(crate::proofs::Fronts::put_both))]
pub fn put_four(bytes: &mut [u8], at: usize, four: [(bool, u64); 4]) -> usize
    requires { at + 88 ≤ length bytes.old }
    ensures put { IsPutFrom bytes.old bytes.new at result (flat_map spaced_text four) }
    ensures within { result ≤ at + 88 }
{
    let [first, second, third, last] = four;
    let second_at = put_spaced(bytes, at, first.0, first.1);
    let third_at = put_spaced(bytes, second_at, second.0, second.1);
    let last_at = put_spaced(bytes, third_at, third.0, third.1);
    put_spaced(bytes, last_at, last.0, last.1)
}
