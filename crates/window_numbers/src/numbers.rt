//! The numbers of a window that are known, and how to go past them.

ghost use Rattle.std.specs.Prelude.{◌≡◌, ℕ, ◌+◌, ◌<◌, ◌≤◌, List, length, nat_le, drop};
ghost use Rattle.window_numbers.specs.Numbers.{IsPart, StandInFront, cursor_to, len_of, place};
ghost use Rattle.window_numbers.specs.Values.{held, numbers_of};
ghost use Rattle.window_numbers.specs.declared.numbers.TheConstants.{MOST, ROOM};

use crate::cursor::Cursor;
use crate::lines::count_line_ends;
use crate::values::Values;
use qbf_tokens::Token;

/// How many bytes a window has at most.
pub const ROOM: usize = 4096;

/// How many numbers are kept at most: a window has no more runs, unless some of them are empty.
pub const MOST: usize = 2048;

/// How many tokens are read one by one after a word.
const FEW: u32 = 8;

/// Numbers that stand one after the other at the front of the buffered bytes.
#[derive(Drop)]
pub struct Numbers {
    /// The numbers that are short, and `LONG` for each that is not.
    pub values: [i32; MOST],
    /// The values of those that are not.
    pub longs: [u64; MOST],
    /// Where each begins in the window, after the separator that ends the one before it: more
    /// separators may come first.
    pub places: [u16; MOST + 9],
    /// Which of them are 0.
    pub zeros: [u16; MOST + 4],
    /// The first that was not passed.
    pub first: usize,
    /// The end of those that are known.
    pub known: usize,
    /// The end of those whose place seems to be known.
    pub runs: usize,
    /// The first zero that was not passed.
    pub zero: usize,
    /// The end of the zeros.
    pub zero_count: usize,
    /// How many tokens are read one by one before numbers are looked for again. At least one, if the
    /// number after those that are known is not a usual one, or its end is not known.
    pub alone: u32,
    /// Whether a separator was found after another: then they are looked for.
    pub is_spaced: bool,
    /// Whether a comment line was passed since the ends were looked for: then the next one is looked
    /// for before numbers are read.
    pub is_commented: bool,
}

impl Numbers {
    /// No numbers.
    #[tactic(auto, using(crate::proofs::HeldNumbers::none_stand))]
    pub fn new() -> Numbers
        ensures { (bytes : List ℕ) → StandInFront result bytes }
    {
        Numbers {
            values: [0; MOST],
            longs: [0; MOST],
            places: [0; MOST + 9],
            zeros: [0; MOST + 4],
            first: 0,
            known: 0,
            runs: 0,
            zero: 0,
            zero_count: 0,
            alone: 0,
            is_spaced: false,
            is_commented: false,
        }
    }

    /// No numbers are known any more, and a token was read.
    #[inline(always)]
    #[tactic(auto, using(crate::proofs::HeldNumbers::none_stand))]
    pub fn forget(&mut self)
        ensures { (bytes : List ℕ) → StandInFront self.new bytes }
    {
        self.known = 0;
        self.alone = self.alone.saturating_sub(1);
    }

    /// No numbers are known any more, and a comment line was passed.
    #[inline(always)]
    #[tactic(auto, using(crate::proofs::HeldNumbers::none_stand))]
    pub fn pass_comment(&mut self)
        ensures { (bytes : List ℕ) → StandInFront self.new bytes }
    {
        self.is_commented = true;
        self.forget();
    }

    /// No numbers are known any more, and a word was read: most sets have few variables, so the next
    /// tokens are read one by one.
    #[inline(always)]
    #[tactic(auto, using(crate::proofs::HeldNumbers::none_stand))]
    fn wait(&mut self)
        ensures { (bytes : List ℕ) → StandInFront self.new bytes }
    {
        self.known = 0;
        self.alone = FEW;
    }

    /// Whether none is buffered.
    #[inline(always)]
    pub fn is_empty(&self) -> bool
        ensures { result ≡ nat_le self.now.known self.now.first }
    {
        self.known <= self.first
    }

    /// Whether none is buffered and more may be made known.
    #[inline(always)]
    pub fn wants_more(&self) -> bool {
        self.is_empty() && self.alone == 0
    }

    /// The numbers that are known.
    #[inline(always)]
    pub fn values(&self) -> Values
        requires some { self.now.first ≤ self.now.known }
        requires few { self.now.known ≤ MOST }
        ensures part { IsPart (numbers_of result) (held self.now) self.now.first }
        ensures within { self.now.first + length (numbers_of result) ≤ self.now.known }
    {
        Values::new(
            &self.values[self.first..self.known],
            &self.longs[self.first..self.known],
        )
    }

    /// The cursor after so many numbers, of which the first stands at `from` and at the front of
    /// these bytes.
    #[inline(always)]
    pub fn cursor_after(&self, bytes: &[u8], from: Cursor, count: usize) -> Cursor
        requires few { 0 < count → self.now.first + count ≤ MOST }
        requires further { 0 < count
            → place self.now self.now.first < place self.now (self.now.first + count) }
        requires within { 0 < count → len_of self.now count ≤ length bytes.now }
        ensures { result ≡ cursor_to self.now bytes.now from count }
    {
        if count == 0 {
            return from;
        }
        let len = usize::from(self.places[self.first + count] - self.places[self.first]);
        Cursor {
            at: len,
            line: from.line.saturating_add(count_line_ends(bytes, len)),
            tokens: u64::from(bytes[len - 1] != b'\n'),
        }
    }

    /// Goes past so many numbers, which take so many bytes. If they do not, it forgets all.
    #[inline(always)]
    pub fn pass(&mut self, count: usize, bytes: usize)
        requires few { self.old.known ≤ MOST }
        requires small { bytes ≤ ROOM }
        ensures held { (front : List ℕ) → StandInFront self.old front
            → StandInFront self.new (drop bytes front) }
    {
        let here = self.first;
        let there = here.wrapping_add(count);
        if here <= there
            && there <= self.known
            && usize::from(self.places[here]) + bytes == usize::from(self.places[there])
        {
            self.first = there;
            self.zero = self.zero_from(there);
        } else {
            self.forget();
        }
    }

    /// Goes past a token, which takes so many bytes with the separator after it.
    #[inline(always)]
    pub fn pass_token(&mut self, token: Token, bytes: usize)
        requires few { self.old.known ≤ MOST }
        requires small { bytes ≤ ROOM }
        ensures held { (front : List ℕ) → StandInFront self.old front
            → StandInFront self.new (drop bytes front) }
    {
        match token {
            Token::Word(_) => self.wait(),
            _ => self.pass(1, bytes),
        }
    }
}
