//! Where the numbers of a window begin and end, one by one and four at a time.

ghost use Rattle.std.specs.Prelude.{◌≡◌, ◌+◌, ◌<◌, ◌≤◌};
ghost use Rattle.window_numbers.specs.Numbers.{AreAfterGaps, IsGapTo, SeemToEnd, place};
ghost use Rattle.window_numbers.specs.declared.numbers.TheConstants.{MOST, ROOM};

use crate::numbers::{MOST, Numbers, ROOM};
use crate::separators::after_separator;
use qbf_tokens::is_separator;

impl Numbers {
    /// The place of the separator after the number `k`, as it seems.
    #[inline(always)]
    pub(crate) fn end(&self, k: usize) -> usize
        requires { k < MOST }
        ensures { result < ROOM → place self.now (k + 1) ≡ result + 1 }
    {
        usize::from(self.places[k + 1]).wrapping_sub(1)
    }

    /// The places of the separators after four numbers from the number `k` on, as they seem.
    #[inline(always)]
    #[tactic(auto, using(crate::proofs::NumbersInARow::four_seem))]
    pub(crate) fn ends(&self, k: usize) -> [usize; 4]
        requires { k + 4 ≤ MOST }
        ensures { SeemToEnd self.now k result }
    {
        [
            self.end(k),
            self.end(k + 1),
            self.end(k + 2),
            self.end(k + 3),
        ]
    }

    /// The place where the number `k` begins, as it seems: after up to two separators more.
    #[inline(always)]
    fn start(&self, bytes: &[u8], k: usize) -> usize
        requires { k < MOST }
        ensures { IsGapTo bytes.now (place self.now k) result }
    {
        let first = usize::from(self.places[k]);
        let second = after_separator(bytes, first);
        after_separator(bytes, second)
    }

    /// The places where four numbers from the number `k` on begin, as they seem.
    #[inline(always)]
    #[tactic(auto, using(crate::proofs::NumbersInARow::four_after))]
    pub(crate) fn starts(&self, bytes: &[u8], k: usize) -> [usize; 4]
        requires { k + 4 ≤ MOST }
        ensures { AreAfterGaps self.now bytes.now k result }
    {
        [
            self.start(bytes, k),
            self.start(bytes, k + 1),
            self.start(bytes, k + 2),
            self.start(bytes, k + 3),
        ]
    }

    /// The place where the number `k` begins, if no separators more come first.
    #[inline(always)]
    pub(crate) fn begin(&self, k: usize) -> usize
        requires { k < MOST }
        ensures { result ≡ place self.now k }
    {
        usize::from(self.places[k])
    }

    /// The places where four numbers from the number `k` on begin, as they seem.
    #[inline(always)]
    pub(crate) fn four_starts(&self, bytes: &[u8], k: usize) -> [usize; 4]
        requires { k + 4 ≤ MOST }
        ensures { AreAfterGaps self.now bytes.now k result }
    {
        if self.is_spaced {
            return self.starts(bytes, k);
        }
        [
            self.begin(k),
            self.begin(k + 1),
            self.begin(k + 2),
            self.begin(k + 3),
        ]
    }

    /// Whether more separators come before one of four numbers from the number `k` on.
    #[inline(always)]
    pub(crate) fn are_spaced(&self, k: usize, starts: [usize; 4]) -> bool
        requires { k + 4 ≤ MOST }
    {
        let [a, b, c, d] = starts;
        usize::from(self.places[k]) != a
            || usize::from(self.places[k + 1]) != b
            || usize::from(self.places[k + 2]) != c
            || usize::from(self.places[k + 3]) != d
    }

    /// Whether the number `k` seems to have no bytes, and a separator comes before its place: then
    /// one separator follows another there.
    #[inline(always)]
    pub(crate) fn is_gap(&self, bytes: &[u8], k: usize, runs: usize) -> bool
        requires { runs ≤ MOST }
    {
        if k >= runs {
            return false;
        }
        let place = usize::from(self.places[k]);
        place != 0 && place <= bytes.len() && self.end(k) == place && is_separator(bytes[place - 1])
    }
}
