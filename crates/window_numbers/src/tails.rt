//! Numbers of more than eight bytes, four at a time: first their last eight bytes, then the others.

ghost use Rattle.std.specs.Prelude.{◌≡◌, ℕ, ◌+◌, ◌-◌, ◌<◌, ◌≤◌, length, IfSome, pos, drop};
ghost use Rattle.std.specs.Prelude.{unsigned_abs, int_lt, nat_eq, slice_index_or, ◌&&◌, false, true, IsTrue};
ghost use Rattle.decimal.specs.Digits.{IsEight};
ghost use Rattle.qbf_tokens.specs.Left.{is_separator};
ghost use Rattle.window_numbers.specs.Numbers.{AreTails, AreTailsFrom, BeginsWithValue};
ghost use Rattle.window_numbers.specs.Numbers.{FillsTo, IsTail};
ghost use Rattle.window_numbers.specs.Values.{value};
ghost use Rattle.window_numbers.specs.declared.numbers.TheConstants.{MOST, ROOM};

use crate::cursor::{begins_with_minus, is_minus_zero};
use crate::four::four_numbers_between;
use crate::numbers::{MOST, Numbers, ROOM};
use crate::separators::all_separate;
use crate::usual::signed;
use crate::values::LONG;
use decimal::number_with_last;

/// A number in two parts.
#[derive(Clone, Copy)]
pub struct Parted {
    /// The number if it is short, and else `LONG`.
    pub short: i32,
    /// Its value if it is not.
    pub long: u64,
}

/// The number with this sign and magnitude, unless it is negative and not short.
#[inline(always)]
#[tactic(auto, using(crate::proofs::PartedNumbers::short_is))]
fn in_parts(negative: bool, magnitude: u64) -> Option<Parted>
    ensures magnitude { IfSome result (λ p. unsigned_abs (value p) ≡ magnitude) }
    ensures sign { (negative && nat_eq magnitude 0) ≡ false
        → IfSome result (λ p. int_lt (value p) (pos 0) ≡ negative) }
{
    if magnitude < 2_147_483_648 {
        let short = signed(negative, magnitude);
        return Some(Parted { short, long: 0 });
    }
    if negative {
        return None;
    }
    Some(Parted {
        short: LONG,
        long: magnitude,
    })
}

/// How many bytes of a number come before its last eight at most: a minus, or those of 20 digits.
const MOST_BEFORE: usize = 12;

/// The number that the bytes begin with, if eight digits end it: `mid` is the place of the first of
/// them, `last` is their value, and a separator follows them.
#[inline(always)]
fn number_ending(bytes: &[u8], mid: usize, last: u64) -> Option<Parted>
    requires some { 0 < mid }
    requires last { IsEight bytes.now mid last }
    requires within { mid + 8 < length bytes.now }
    requires separator { is_separator (slice_index_or bytes.now (mid + 8) 0) ≡ true }
    ensures { IfSome result (λ p. BeginsWithValue bytes.now (mid + 8 + 1) (value p)) }
{
    if mid > MOST_BEFORE {
        return None;
    }
    let negative = begins_with_minus(bytes);
    let start = usize::from(negative);
    let magnitude = number_with_last(bytes, start, mid, last)?;
    if is_minus_zero(negative, magnitude) {
        return None;
    }
    let number = in_parts(negative, magnitude)?;
    Some(number)
}

/// Where the last eight bytes begin of those between two places, or the first place if they are
/// fewer.
#[inline(always)]
fn tail_from(start: usize, end: usize) -> usize
    ensures { IsTail start result end }
{
    if end > 8 && start < end - 8 {
        end - 8
    } else {
        start
    }
}

/// Where the last eight bytes begin of those between each of the first places and each of the
/// others, or the first place if they are fewer.
#[inline(always)]
#[tactic(auto, using(crate::proofs::LongNumbers::four_are))]
fn four_tails(starts: [usize; 4], ends: [usize; 4]) -> [usize; 4]
    ensures { (i : ℕ) → i < 4
        → IsTail (slice_index_or starts i 0) (slice_index_or result i 0) (slice_index_or ends i 0) }
{
    let [s0, s1, s2, s3] = starts;
    let [e0, e1, e2, e3] = ends;
    [
        tail_from(s0, e0),
        tail_from(s1, e1),
        tail_from(s2, e2),
        tail_from(s3, e3),
    ]
}

/// Four numbers of a window, between places.
#[derive(Clone, Copy)]
pub struct FourTails {
    /// Which number of the window the first is.
    pub first: usize,
    /// Where each begins.
    pub starts: [usize; 4],
    /// Where the last eight bytes of each begin.
    pub tails: [usize; 4],
    /// Where each ends.
    pub ends: [usize; 4],
    /// What these bytes write.
    pub values: [i32; 4],
    /// A bit for each, the first the lowest: whether that is 0.
    pub zeros: u64,
}

impl FourTails {
    /// One of the numbers.
    #[inline(always)]
    fn number(&self, bytes: &[u8], i: usize) -> Option<Parted>
        requires lane { i < 4 }
        requires tails { AreTails bytes.now self.now }
        ensures { IfSome result (λ p.
            BeginsWithValue (drop (slice_index_or self.now.starts i 0) bytes.now)
            (slice_index_or self.now.ends i 0 + 1 - slice_index_or self.now.starts i 0)
            (value p)) }
    {
        let start = self.starts[i];
        let tail = self.tails[i];
        let last = self.values[i];
        if start == tail {
            return Some(Parted {
                short: last,
                long: 0,
            });
        }
        if last < 0 {
            return None;
        }
        let number = number_ending(&bytes[start..], tail - start, last as u64)?;
        Some(number)
    }

    /// The four numbers from the number `k` on, if they come before the number `runs` and the last
    /// eight bytes of each write a number.
    #[inline(always)]
    pub fn at(numbers: &Numbers, bytes: &[u8], k: usize, runs: usize) -> Option<FourTails>
        requires room { (k ≤ runs) × (runs ≤ MOST) }
        requires small { length bytes.now ≤ ROOM }
        ensures { IfSome result (λ four. (k + 4 ≤ runs) × (four.first ≡ k)
            × AreTailsFrom numbers.now bytes.now four) }
    {
        if k + 4 > runs {
            return None;
        }
        let starts = numbers.four_starts(bytes, k);
        let ends = numbers.ends(k);
        let tails = four_tails(starts, ends);
        let four = four_numbers_between(bytes, tails, ends)?;
        if !all_separate(bytes, ends) {
            return None;
        }
        Some(FourTails {
            first: k,
            starts,
            tails,
            ends,
            values: four.values.to_array(),
            zeros: four.zeros,
        })
    }

    /// Puts one of the numbers, if it can be read. Returns whether it can.
    #[inline(always)]
    fn put_tail(self, numbers: &mut Numbers, bytes: &[u8], i: usize) -> bool
        requires room { (i < 4) × (self.first + 4 ≤ MOST) }
        requires tails { AreTailsFrom numbers.old bytes.now self }
        ensures same { numbers.new ≡ record numbers.old {
          values = numbers.new.values;
          longs = numbers.new.longs;
        } }
        ensures fills { IsTrue result → (start runs : ℕ) → self.first + 4 ≤ runs
            → FillsTo numbers.old bytes.now start runs (self.first + i)
            → FillsTo numbers.new bytes.now start runs (self.first + (i + 1)) }
        ensures none { result ≡ false → numbers.new ≡ numbers.old }
    {
        match self.number(bytes, i) {
            Some(number) => {
                numbers.put_parted(self.first + i, number);
                true
            }
            None => false,
        }
    }

    /// Puts the numbers, as far as they can be read. Returns the number after those that are put.
    #[inline(always)]
    pub fn put_tails(self, numbers: &mut Numbers, bytes: &[u8]) -> usize
        requires room { self.first + 4 ≤ MOST }
        requires tails { AreTailsFrom numbers.old bytes.now self }
        ensures fills { (start runs : ℕ) → self.first + 4 ≤ runs
            → FillsTo numbers.old bytes.now start runs self.first
            → FillsTo numbers.new bytes.now start runs result }
        ensures first { numbers.new.first ≡ numbers.old.first }
        ensures places { numbers.new.places ≡ numbers.old.places }
        ensures further { self.first ≤ result }
    {
        let k = self.first;
        if !self.put_tail(numbers, bytes, 0) {
            return k;
        }
        if !self.put_tail(numbers, bytes, 1) {
            return k + 1;
        }
        if !self.put_tail(numbers, bytes, 2) {
            return k + 2;
        }
        if !self.put_tail(numbers, bytes, 3) {
            return k + 3;
        }
        k + 4
    }
}
