//! The values of the numbers of a window, four at a time as far as they can be.

ghost use Rattle.std.specs.Prelude.{◌≡◌, ◌+◌, ◌<◌, ◌≤◌, [], ◌∷◌, length, IfSome, unsigned_abs, ◌^◌};
ghost use Rattle.std.specs.Prelude.{◌-◌, drop};
ghost use Rattle.window_numbers.specs.Numbers.{AreHeld, AreShort, BeginsWithValue, FillsTo, IsPut};
ghost use Rattle.window_numbers.specs.Numbers.{NumberStands, StandFrom, place};
ghost use Rattle.window_numbers.specs.Values.{held, value};
ghost use Rattle.window_numbers.specs.declared.numbers.TheConstants.{MOST, ROOM};

use crate::four::{FourNumbers, four_numbers, four_numbers_between};
use crate::numbers::{MOST, Numbers, ROOM};
use crate::separators::{after_separators, all_separate};
use crate::tails::{FourTails, Parted};
use crate::usual::number_before;
use std::simd::prelude::*;

/// How far numbers are put.
#[derive(Clone, Copy)]
struct Filled {
    /// The number after those that are put.
    next: usize,
    /// How many zeros are noted.
    zeros: usize,
}

impl Numbers {
    /// Puts a short number at the place `k`.
    #[inline(always)]
    fn put(&mut self, k: usize, value: i32)
        requires room { k < MOST }
        requires short { unsigned_abs value < 2 ^ 31 }
        ensures same { self.new ≡ record self.old {
          values = self.new.values;
          longs = self.new.longs;
        } }
        ensures put { IsPut (held self.old) (held self.new) (value ∷ []) k }
    {
        self.values[k] = value;
    }

    /// Puts four numbers from the place `k` on.
    #[inline(always)]
    fn put_four(&mut self, k: usize, values: i32x4)
        requires room { k + 4 ≤ MOST }
        requires short { AreShort values }
        ensures same { self.new ≡ record self.old {
          values = self.new.values;
          longs = self.new.longs;
        } }
        ensures put { IsPut (held self.old) (held self.new) values k }
    {
        values.copy_to_slice(&mut self.values[k..]);
    }

    /// Puts a number at the place `k`.
    #[inline(always)]
    pub(crate) fn put_parted(&mut self, k: usize, number: Parted)
        requires room { k < MOST }
        ensures same { self.new ≡ record self.old {
          values = self.new.values;
          longs = self.new.longs;
        } }
        ensures put { IsPut (held self.old) (held self.new) (value number ∷ []) k }
    {
        self.values[k] = number.short;
        self.longs[k] = number.long;
    }

    /// The number that begins at the place `at`, before the next number after `k`, if it is a usual
    /// one.
    #[inline(always)]
    fn one_at(&self, bytes: &[u8], k: usize, at: usize) -> Option<i32>
        requires room { k < MOST }
        requires here { at ≤ length bytes.now }
        requires small { length bytes.now ≤ ROOM }
        ensures within { IfSome result (λ _. place self.now (k + 1) ≤ length bytes.now) }
        ensures begins { IfSome result (λ value.
            BeginsWithValue (drop at bytes.now) (place self.now (k + 1) - at) value) }
        ensures short { IfSome result (λ value. unsigned_abs value < 2 ^ 31) }
    {
        let end = self.end(k);
        number_before(&bytes[at..], end.wrapping_sub(at))
    }

    /// The number `k`, if it comes before the number `runs` and is a usual one, after any separators
    /// more.
    #[inline(always)]
    fn one_spaced_at(&self, bytes: &[u8], k: usize, runs: usize) -> Option<i32>
        requires room { (k ≤ runs) × (runs ≤ MOST) }
        requires here { place self.now k ≤ length bytes.now }
        requires small { length bytes.now ≤ ROOM }
        ensures stands { IfSome result (λ value. (k < runs)
            × NumberStands bytes.now self.now.places k value) }
        ensures short { IfSome result (λ value. unsigned_abs value < 2 ^ 31) }
    {
        if k >= runs {
            return None;
        }
        let first = usize::from(self.places[k]);
        let at = after_separators(bytes, first);
        let value = self.one_at(bytes, k, at)?;
        Some(value)
    }

    /// The four numbers from the number `k` on, if they come before the number `runs` and are usual
    /// ones, and one or two separators more come before some of them.
    #[inline(always)]
    fn four_spaced_at(&self, bytes: &[u8], k: usize, runs: usize) -> Option<FourNumbers>
        requires room { (k ≤ runs) × (runs ≤ MOST) }
        requires small { length bytes.now ≤ ROOM }
        ensures four { IfSome result (λ four. (k + 4 ≤ runs)
            × StandFrom bytes.now self.now.places k four.values × AreShort four.values) }
    {
        if k + 4 > runs {
            return None;
        }
        let starts = self.starts(bytes, k);
        if !self.are_spaced(k, starts) {
            return None;
        }
        let ends = self.ends(k);
        let four = four_numbers_between(bytes, starts, ends)?;
        if !all_separate(bytes, ends) {
            return None;
        }
        Some(four)
    }

    /// The four numbers from the number `k` on, if they come before the number `runs` and are usual
    /// ones.
    #[inline(always)]
    fn four_at(&self, bytes: &[u8], k: usize, runs: usize) -> Option<FourNumbers>
        requires room { (k ≤ runs) × (runs ≤ MOST) }
        requires small { length bytes.now ≤ ROOM }
        ensures four { IfSome result (λ four. (k + 4 ≤ runs)
            × StandFrom bytes.now self.now.places k four.values × AreShort four.values) }
    {
        if k + 4 > runs {
            return None;
        }
        let begin = self.begin(k);
        let ends = self.ends(k);
        let four = four_numbers(bytes, begin, ends)?;
        if !all_separate(bytes, ends) {
            return None;
        }
        Some(four)
    }

    /// Puts up to four numbers more, one by one, as far as they are usual ones and come before the
    /// number `runs`.
    #[inline(always)]
    fn put_ones(&mut self, bytes: &[u8], runs: usize, filled: Filled) -> Filled
        requires fills { FillsTo self.old bytes.now (place self.old self.old.first) runs
            filled.next }
        requires small { length bytes.now ≤ ROOM }
        ensures fills { FillsTo self.new bytes.now (place self.old self.old.first) runs
            result.next }
        ensures further { filled.next ≤ result.next }
    {
        let mut k = filled.next;
        let mut zeros = filled.zeros;
        let most = k + 4;
        'numbers: while k < most {
            let Some(value) = self.one_spaced_at(bytes, k, runs) else {
                return Filled { next: k, zeros };
            };
            self.put(k, value);
            zeros = self.note_zero(k, value == 0, zeros);
            k += 1;
        }
        Filled { next: k, zeros }
    }

    /// A bit for each of four numbers from the number `k` on, the first the lowest: whether it seems
    /// to have more than eight bytes. If one has, they take at least 16 with their separators.
    #[inline(always)]
    fn wide_marks(&self, k: usize) -> u64
        requires { k ≤ MOST }
    {
        if self.places[k + 4].wrapping_sub(self.places[k]) < 16 {
            return 0;
        }
        let here = u16x4::from_slice(&self.places[k..]);
        let next = u16x4::from_slice(&self.places[k + 1..]);
        (next - here).simd_gt(u16x4::splat(9)).to_bitmask()
    }

    /// Puts up to four numbers more, as `put_ones` does, or more of them if one of the four has more
    /// than eight bytes.
    #[cold]
    #[inline(never)]
    fn put_others(&mut self, bytes: &[u8], runs: usize, filled: Filled) -> Filled
        requires fills { FillsTo self.old bytes.now (place self.old self.old.first) runs
            filled.next }
        requires small { length bytes.now ≤ ROOM }
        ensures fills { FillsTo self.new bytes.now (place self.old self.old.first) runs
            result.next }
        ensures further { filled.next ≤ result.next }
    {
        let k = filled.next;
        if k + 4 > runs {
            return self.put_ones(bytes, runs, filled);
        }
        let wide = self.wide_marks(k);
        if wide == 0 {
            return self.put_ones(bytes, runs, filled);
        }
        let Some(four) = FourTails::at(self, bytes, k, runs) else {
            return self.put_ones(bytes, runs, filled);
        };
        let next = four.put_tails(self, bytes);
        let zeros = self.note_zeros(k, four.zeros & !wide, filled.zeros);
        if next == k + 4 {
            return Filled { next, zeros };
        }
        self.put_ones(bytes, runs, Filled { next, zeros })
    }

    /// Puts four numbers more, if more separators come before some of them, or up to four as
    /// `put_others` does.
    #[cold]
    #[inline(never)]
    fn put_spaced(&mut self, bytes: &[u8], runs: usize, filled: Filled) -> Filled
        requires fills { FillsTo self.old bytes.now (place self.old self.old.first) runs
            filled.next }
        requires small { length bytes.now ≤ ROOM }
        ensures fills { FillsTo self.new bytes.now (place self.old self.old.first) runs
            result.next }
        ensures further { filled.next ≤ result.next }
    {
        let k = filled.next;
        let Some(four) = self.four_spaced_at(bytes, k, runs) else {
            return self.put_others(bytes, runs, filled);
        };
        self.put_four(k, four.values);
        let zeros = self.note_zeros(k, four.zeros, filled.zeros);
        Filled { next: k + 4, zeros }
    }

    /// Puts four numbers more, or fewer, which are not usual ones in a row.
    #[cold]
    #[inline(never)]
    fn put_unusual(&mut self, bytes: &[u8], runs: usize, filled: Filled) -> Filled
        requires fills { FillsTo self.old bytes.now (place self.old self.old.first) runs
            filled.next }
        requires small { length bytes.now ≤ ROOM }
        ensures fills { FillsTo self.new bytes.now (place self.old self.old.first) runs
            result.next }
        ensures further { filled.next ≤ result.next }
    {
        if self.is_spaced {
            return self.put_spaced(bytes, runs, filled);
        }
        self.put_others(bytes, runs, filled)
    }

    /// Puts the numbers from the first that was not passed on, as far as they are usual ones and
    /// come before the number `runs`.
    #[inline(always)]
    fn put_usual(&mut self, bytes: &[u8], runs: usize) -> Filled
        requires start { place self.old self.old.first ≤ length bytes.now }
        requires small { length bytes.now ≤ ROOM }
        requires room { (self.old.first ≤ runs) × (runs ≤ MOST)
            × (length self.old.values ≡ MOST) }
        ensures { AreHeld (record self.new { known = result.next }) bytes.now
            (place self.old self.old.first) }
    {
        let mut k = self.first;
        let mut zeros = 0;
        'numbers: loop {
            if let Some(four) = self.four_at(bytes, k, runs) {
                self.put_four(k, four.values);
                zeros = self.note_zeros(k, four.zeros, zeros);
                k += 4;
            } else {
                let filled = self.put_unusual(bytes, runs, Filled { next: k, zeros });
                if filled.next < k + 4 {
                    return filled;
                }
                k = filled.next;
                zeros = filled.zeros;
            }
        }
    }

    /// Makes the numbers known that stand from the place `start` on, as far as they are usual ones,
    /// which are below 2 to the power of 31, but for their signs.
    #[inline(never)]
    pub fn fill(&mut self, bytes: &[u8], start: usize)
        requires start { start ≤ length bytes.now }
        requires small { length bytes.now ≤ ROOM }
        ensures { AreHeld self.new bytes.now start }
    {
        let runs = self.seek(bytes, start);
        let filled = self.put_usual(bytes, runs);
        self.known = filled.next;
        self.zero = 0;
        self.zero_count = filled.zeros;
        self.alone = 1;
        self.is_spaced = self.is_spaced || self.is_gap(bytes, filled.next, runs);
    }
}
