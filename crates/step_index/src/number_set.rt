//! A set of numbers, with a bit for each.

ghost use Rattle.std.specs.Prelude.{◌≡◌, ◌↔◌, ◌⊎◌, ◌+◌, ◌/◌, ◌<◌, ◌^◌, ℕ};
ghost use Rattle.std.specs.Prelude.{IsTrue, OnOk, OnErr, length};
ghost use Rattle.step_index.specs.NumberSets.{HasBit};

use crate::reach::reach;
use std::alloc::{AllocError, Global};
use std::marker::Model;

/// A set of numbers that takes a bit for each number up to the greatest.
///
/// Contracts see its words: the lowest bit of the first is that of the number 0.
#[derive(Drop)]
pub(crate) struct NumberSet {
    words: Vec<u64>,
}

impl Model for NumberSet {
    ghost use Rattle.std.specs.Prelude.{ℕ, List};

    ghost Value = { List ℕ };

    ghost view = { λ s. s.words.items };
}

impl NumberSet {
    /// No numbers. It takes no memory.
    pub(crate) fn new(alloc: Global) -> NumberSet
        ensures { (n : ℕ) → HasBit result n → ⊥ }
    {
        NumberSet {
            words: Vec::new(alloc),
        }
    }

    /// Whether a number is in the set.
    #[inline(always)]
    pub(crate) fn contains(&self, number: u64) -> bool
        ensures { IsTrue result ↔ HasBit self.now number }
    {
        let index = (number / 64) as usize;
        if index >= self.words.len() {
            return false;
        }
        (self.words[index] >> (number % 64)) & 1 == 1
    }

    /// Puts a number in. An `Err` means that an allocation failed, and changes nothing.
    #[tactic(auto, using(crate::proofs::NumberSets::inserted))]
    pub(crate) fn insert(&mut self, number: u64) -> Result<(), AllocError>
        requires { number < 2 ^ 37 }
        ensures inserted { OnOk result
            ((n : ℕ) → HasBit self.new n ↔ (HasBit self.old n ⊎ (n ≡ number))) }
        ensures few { OnOk result ((length self.new ≡ length self.old)
            ⊎ (length self.new ≡ number / 64 + 1)) }
        ensures err { OnErr result (self.new ≡ self.old) }
    {
        let index = (number / 64) as usize;
        reach(&mut self.words, index, 0)?;
        self.words[index] |= 1 << (number % 64);
        Ok(())
    }
}
