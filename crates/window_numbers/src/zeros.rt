//! Which numbers of a window are zero, as it seems.

ghost use Rattle.std.specs.Prelude.{◌≡◌, ◌≤◌, length};
ghost use Rattle.window_numbers.specs.declared.numbers.TheConstants.{MOST};

use crate::numbers::{MOST, Numbers};
use std::simd::prelude::*;

/// For each four bits, four numbers: first the places of those that are set, and then zeros.
const PLACES: [u16; 64] = [
    0, 0, 0, 0, 0, 0, 0, 0, 1, 0, 0, 0, 0, 1, 0, 0, 2, 0, 0, 0, 0, 2, 0, 0, 1, 2, 0, 0, 0, 1, 2, 0,
    3, 0, 0, 0, 0, 3, 0, 0, 1, 3, 0, 0, 0, 1, 3, 0, 2, 3, 0, 0, 0, 2, 3, 0, 1, 2, 3, 0, 0, 1, 2, 3,
];

/// The part of a table for the lowest four of these bits.
#[inline(always)]
fn four_of(table: &[u16], bits: u64) -> u16x4
    requires { 64 ≤ length table.now }
{
    u16x4::from_slice(&table[4 * (bits % 16) as usize..])
}

/// Where zeros seem to stand among numbers: no contract says that they do.
#[derive(Clone, Copy)]
pub struct Zeros<'a> {
    /// Their places, each with `first` added.
    places: &'a [u16],
    /// How many numbers were passed before.
    first: usize,
}

impl<'a> Zeros<'a> {
    /// The place of the zero with this number, counted from 0, as it seems. If there is none, a
    /// great number.
    #[inline(always)]
    pub fn place(self, zero: usize) -> usize {
        if zero < self.places.len() {
            usize::from(self.places[zero]).wrapping_sub(self.first)
        } else {
            usize::MAX
        }
    }
}

impl Numbers {
    /// Notes which of four numbers from the place `k` on are zero, after so many zeros: `marks` has
    /// a bit for each. Returns how many are noted.
    #[inline(always)]
    pub(crate) fn note_zeros(&mut self, k: usize, marks: u64, zeros: usize) -> usize
        requires { k ≤ MOST }
        ensures same { self.new ≡ record self.old { zeros = self.new.zeros } }
    {
        let places = four_of(&PLACES, marks) + u16x4::splat(k as u16);
        places.copy_to_slice(&mut self.zeros[zeros % MOST..]);
        zeros.wrapping_add(marks.count_ones() as usize)
    }

    /// Notes whether the number `k` is zero, after so many zeros. Returns how many are noted.
    #[inline(always)]
    pub(crate) fn note_zero(&mut self, k: usize, is_zero: bool, zeros: usize) -> usize
        requires { k ≤ MOST }
        ensures same { self.new ≡ record self.old { zeros = self.new.zeros } }
    {
        self.zeros[zeros % MOST] = k as u16;
        zeros.wrapping_add(usize::from(is_zero))
    }

    /// Where zeros seem to stand among the numbers that are known.
    #[inline(always)]
    pub fn zeros(&self) -> Zeros {
        let count = self.zero_count.min(MOST);
        Zeros {
            places: &self.zeros[self.zero.min(count)..count],
            first: self.first,
        }
    }

    /// The number of the first zero that stands from a place on.
    #[inline(always)]
    pub(crate) fn zero_from(&self, there: usize) -> usize {
        let count = self.zero_count.min(MOST);
        if there >= self.known {
            return count;
        }
        let mut zero = self.zero;
        while zero < count && usize::from(self.zeros[zero]) < there {
            zero += 1;
        }
        zero
    }
}
