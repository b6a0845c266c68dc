//! Numbers as a grammar gets them.

ghost use Rattle.std.specs.Prelude.{◌≡◌, ◌≤◌, ◌<◌, ◌^◌, length, slice_range, unsigned_abs};
ghost use Rattle.std.specs.Prelude.{slice_index_or, pos, int_lt, true, IsTrue};
ghost use Rattle.std.specs.List.{AllByRecursion};
ghost use Rattle.qbf_tokens.specs.NumberTokens.{token_at};
ghost use Rattle.window_numbers.specs.Values.{numbers_of, parted};

use qbf_tokens::Token;

/// Stands in the place of a long number.
pub const LONG: i32 = i32::MIN;

/// Numbers that are known, one after the other.
///
/// A number is short if it is below 2 to the power of 31, but for its sign. Each other one is long,
/// and has no sign.
#[derive(Clone, Copy)]
pub struct Values<'a> {
    /// Each number that is short, and `LONG` for each that is not.
    short: &'a [i32],
    /// The value of each that is not, at its place.
    long: &'a [u64],
}

impl<'a> Values<'a> {
    /// The numbers with these parts.
    #[inline(always)]
    pub fn new(short: &'a [i32], long: &'a [u64]) -> Values<'a>
        ensures { numbers_of result ≡ parted short.now long.now }
    {
        Values { short, long }
    }

    /// How many they are.
    #[inline(always)]
    #[tactic(auto, using(crate::proofs::PartedNumbers::length_parted))]
    pub fn len(self) -> usize
        ensures { result ≡ length (numbers_of self.entry) }
    {
        self.short.len()
    }

    /// The value of the long number at a place.
    #[cold]
    #[inline(never)]
    fn long_at(self, place: usize) -> u64
        ensures { result ≡ slice_index_or self.entry.long.now place 0 }
    {
        if place < self.long.len() {
            self.long[place]
        } else {
            0
        }
    }

    /// The token of the number at a place, whose short part is negative.
    #[inline(always)]
    fn marked_token(self, short: i32, place: usize) -> Token
        requires within { place < length self.short.now }
        requires short { slice_index_or self.short.now place (pos 0) ≡ short }
        requires negative { int_lt short (pos 0) ≡ true }
        ensures { result ≡ token_at (numbers_of self.entry) place }
    {
        if short == LONG {
            return Token::Number {
                negative: false,
                value: self.long_at(place),
            };
        }
        Token::Number {
            negative: true,
            value: u64::from(short.unsigned_abs()),
        }
    }

    /// The token of the number at a place.
    #[inline(always)]
    #[tactic(auto, using(crate::proofs::PartedNumbers::length_parted))]
    pub fn token(self, place: usize) -> Token
        requires { place < length (numbers_of self) }
        ensures { result ≡ token_at (numbers_of self.entry) place }
    {
        let short = self.short[place];
        if short < 0 {
            return self.marked_token(short, place);
        }
        Token::Number {
            negative: false,
            value: short as u64,
        }
    }

    /// Whether a 0 stands at a place.
    #[inline(always)]
    #[tactic(auto, using(crate::proofs::PartedNumbers::length_parted))]
    pub fn surely_zero(self, place: usize) -> bool
        ensures within { IsTrue result → place < length (numbers_of self.entry) }
        ensures zero { IsTrue result
            → slice_index_or (numbers_of self.entry) place (pos 0) ≡ pos 0 }
    {
        place < self.short.len() && self.short[place] == 0
    }

    /// The numbers between two places, of which each is itself if it is short.
    #[inline(always)]
    #[tactic(auto, using(crate::proofs::PartedNumbers::length_parted, crate::proofs::PartedNumbers::short_range))]
    pub fn short(self, from: usize, to: usize) -> &'a [i32]
        requires { (from ≤ to) × (to ≤ length (numbers_of self)) }
        ensures { AllByRecursion (λ v. unsigned_abs v < 2 ^ 31) result.now
            → result.now ≡ slice_range (numbers_of self.entry) from to }
    {
        &self.short[from..to]
    }
}
