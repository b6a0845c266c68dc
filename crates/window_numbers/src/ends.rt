//! Where the numbers of a window seem to end.

ghost use Rattle.std.specs.Prelude.{◌≡◌, ℕ, ◌+◌, ◌≤◌, List, length};
ghost use Rattle.window_numbers.specs.Numbers.{StandInFront, place};
ghost use Rattle.window_numbers.specs.declared.ends.TheConstants.{BLOCK};
ghost use Rattle.window_numbers.specs.declared.numbers.TheConstants.{MOST, ROOM};

use crate::comments::next_comment;
use crate::marks::ends_of;
use crate::numbers::{MOST, Numbers, ROOM};
use std::simd::prelude::*;

/// How many bytes are looked at together to find where numbers end.
const BLOCK: usize = 64;

/// A bit for each of the first 64 bytes, the lowest for the first: whether it is at most a blank,
/// as separators are.
#[inline(always)]
fn marks_of(block: &[u8]) -> u64
    requires { BLOCK ≤ length block.now }
{
    u8x64::from_slice(block)
        .simd_le(u8x64::splat(b' '))
        .to_bitmask()
}

impl Numbers {
    /// Notes where numbers seem to end among eight bytes, after those that were noted: a bit marks
    /// each, and `first` is the place of the first byte. Returns how many are noted.
    #[inline(always)]
    fn note_eight(&mut self, marks: u8, first: u16x8, runs: usize) -> usize
        requires room { runs ≤ MOST }
        ensures same { self.new ≡ record self.old { places = self.new.places } }
        ensures room { result ≤ runs + 8 }
    {
        (first + ends_of(marks)).copy_to_slice(&mut self.places[runs + 1..]);
        runs + marks.count_ones() as usize
    }

    /// Notes where numbers seem to end among the 64 bytes from the place `block` of the window on,
    /// after those that were noted: a bit marks each. Returns how many are noted.
    #[inline(always)]
    fn note(&mut self, ends: u64, block: usize, runs: usize) -> usize
        requires block { block + BLOCK ≤ ROOM }
        requires room { runs + BLOCK ≤ MOST }
        ensures same { self.new ≡ record self.old { places = self.new.places } }
        ensures room { result ≤ runs + BLOCK }
    {
        let marks = ends.to_le_bytes();
        let mut first = u16x8::splat(block as u16);
        let mut runs = runs;
        let mut i = 0;
        while i < 8 {
            runs = self.note_eight(marks[i], first, runs);
            first += u16x8::splat(8);
            i += 1;
        }
        runs
    }

    /// Notes where the numbers of these bytes seem to end, if no separator follows another. The
    /// first `len` of them were pulled. Returns how many are noted.
    #[inline(always)]
    fn note_all(&mut self, bytes: &[u8], len: usize) -> usize
        requires { length bytes.now ≤ ROOM }
        ensures { result ≤ MOST }
    {
        let mut block = 0;
        let mut runs = 0;
        while block < len && block + BLOCK <= bytes.len() && runs + BLOCK <= MOST {
            runs = self.note(marks_of(&bytes[block..]), block, runs);
            block += BLOCK;
        }
        runs
    }

    /// Notes them where a separator follows another byte alone.
    #[cold]
    #[inline(never)]
    fn note_spaced(&mut self, bytes: &[u8], len: usize) -> usize
        requires { length bytes.now ≤ ROOM }
        ensures { result ≤ MOST }
    {
        let mut block = 0;
        let mut runs = 0;
        let mut before = 1;
        while block < len && block + BLOCK <= bytes.len() && runs + BLOCK <= MOST {
            let marks = marks_of(&bytes[block..]);
            runs = self.note(marks & !(marks << 1 | before), block, runs);
            before = marks >> 63;
            block += BLOCK;
        }
        runs
    }

    /// Looks where the numbers of these bytes seem to end. The first `len` of them were pulled.
    #[inline(never)]
    pub fn look(&mut self, bytes: &[u8], len: usize)
        requires { length bytes.now ≤ ROOM }
        ensures { (bytes : List ℕ) → StandInFront self.new bytes }
    {
        let runs = if self.is_spaced {
            self.note_spaced(bytes, len)
        } else {
            self.note_all(bytes, len)
        };
        self.first = 0;
        self.runs = runs;
        self.is_commented = false;
        self.forget();
    }

    /// The first number from the number `first` on that seems to end after a place of the window, if
    /// it comes before the number `runs`, and else `runs`.
    #[inline(always)]
    fn ending_after(&self, place: usize, first: usize, runs: usize) -> usize
        requires place { place ≤ ROOM }
        requires room { (first ≤ runs) × (runs ≤ MOST) }
        ensures { (first ≤ result) × (result ≤ runs) }
    {
        let mut next = first;
        while next < runs {
            let places = u16x8::from_slice(&self.places[next + 1..]);
            let passed = places.simd_le(u16x8::splat(place as u16)).to_bitmask();
            if passed != 255 {
                return runs.min(next + passed.count_ones() as usize);
            }
            next += 8;
        }
        runs
    }

    /// The first number that seems to end after the next comment begins, if one is near and the
    /// number comes before the number `runs`, and else `runs`.
    #[inline(always)]
    fn end_before_comment(&self, bytes: &[u8], start: usize, runs: usize) -> usize
        requires start { start ≤ length bytes.now }
        requires small { length bytes.now ≤ ROOM }
        requires room { (self.now.first ≤ runs) × (runs ≤ MOST) }
        ensures { (self.now.first ≤ result) × (result ≤ runs) }
    {
        match next_comment(bytes, start) {
            Some(comment) => self.ending_after(comment, self.first, runs),
            None => runs,
        }
    }

    /// Goes to the first run that seems to end after the place `start` of the window. Returns the
    /// end of those whose place seems to be known, or of those before the next comment if one was
    /// passed before and the next is near.
    #[inline(never)]
    pub(crate) fn seek(&mut self, bytes: &[u8], start: usize) -> usize
        requires start { start ≤ length bytes.now }
        requires small { length bytes.now ≤ ROOM }
        ensures front { place self.new self.new.first ≡ start }
        ensures within { (self.new.first ≤ result) × (result ≤ MOST) }
        ensures values { length self.new.values ≡ MOST }
    {
        let runs = self.runs.min(MOST);
        let first = self.ending_after(start, self.first.min(runs), runs);
        self.places[first] = start as u16;
        self.first = first;
        if self.is_commented {
            return self.end_before_comment(bytes, start, runs);
        }
        runs
    }
}
