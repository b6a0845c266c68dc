//! The digits of a number, put where they belong.

ghost use Rattle.std.specs.Prelude.{◌≡◌, ◌+◌, ◌-◌, ◌/◌, ◌%◌, ◌≤◌, ◌<◌, length, decimal};
ghost use Rattle.decimal.specs.Digits.{IsPutFrom};

use itoa::write_digits;

/// Puts the digits of a number from a place on, of which there are so many, and returns where they
/// end. Where the count is a constant, the loop over the digits becomes a few moves.
#[inline(always)]
fn put_counted(bytes: &mut [u8], at: usize, n: u64, count: usize) -> usize
    requires counted { length (decimal n) ≤ count }
    requires room { at + count ≤ length bytes.old }
    ensures put { count ≡ length (decimal n)
        → IsPutFrom bytes.old bytes.new at result (decimal n) }
    ensures within { result ≡ at + count }
{
    let end = at + count;
    let _start = write_digits(n, bytes, end);
    end
}

/// Puts the digits of a number below 1,000. There is room for them.
#[inline(always)]
#[tactic(auto, using(itoa::proofs::Decimal::length_one, crate::proofs::Counts::two, crate::proofs::Counts::three))]
fn put_up_to_three(bytes: &mut [u8], at: usize, n: u64) -> usize
    requires { (n < 1000) × (at + 3 ≤ length bytes.old) }
    ensures put { IsPutFrom bytes.old bytes.new at result (decimal n) }
    ensures within { result ≤ at + 3 }
{
    if n < 100 {
        if n < 10 {
            put_counted(bytes, at, n, 1)
        } else {
            put_counted(bytes, at, n, 2)
        }
    } else {
        put_counted(bytes, at, n, 3)
    }
}

/// Puts the digits of a number from 10,000 on that is below 100,000,000. There is room for them.
#[inline(always)]
#[tactic(auto, using(crate::proofs::Counts::five, crate::proofs::Counts::six, crate::proofs::Counts::seven, crate::proofs::Counts::eight))]
fn put_up_to_eight(bytes: &mut [u8], at: usize, n: u64) -> usize
    requires below { (10000 ≤ n) × (n < 100000000) }
    requires room { at + 8 ≤ length bytes.old }
    ensures put { IsPutFrom bytes.old bytes.new at result (decimal n) }
    ensures within { result ≤ at + 8 }
{
    if n < 1_000_000 {
        if n < 100_000 {
            put_counted(bytes, at, n, 5)
        } else {
            put_counted(bytes, at, n, 6)
        }
    } else {
        if n < 10_000_000 {
            put_counted(bytes, at, n, 7)
        } else {
            put_counted(bytes, at, n, 8)
        }
    }
}

/// Puts the digits of a number from a place on, and returns where they end. There is room for the
/// longest number. Most numbers have few digits, and their count needs no logarithm.
#[inline(always)]
#[tactic(auto, using(crate::proofs::Counts::four, crate::proofs::Counts::counted))]
pub fn put_digits(bytes: &mut [u8], at: usize, n: u64) -> usize
    requires { at + 20 ≤ length bytes.old }
    ensures put { IsPutFrom bytes.old bytes.new at result (decimal n) }
    ensures within { result ≤ at + 20 }
{
    if n < 1000 {
        put_up_to_three(bytes, at, n)
    } else if n < 10_000 {
        put_counted(bytes, at, n, 4)
    } else if n < 100_000_000 {
        put_up_to_eight(bytes, at, n)
    } else {
        put_counted(bytes, at, n, 1 + n.ilog10() as usize)
    }
}
