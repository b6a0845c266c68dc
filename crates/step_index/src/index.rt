//! The places of step numbers.

ghost use Rattle.std.specs.Prelude.{◌≡◌, ◌≢◌, ℕ, ◌+◌, ◌^◌, ◌<◌, ◌⊎◌, false, [], ◌∷◌, ◌++◌, length};
ghost use Rattle.std.specs.Prelude.{nat_eq, slice_get, Some, IfSome, IfNone, IsTrue, OnOk, OnErr};
ghost use Rattle.std.specs.List.{AllByRecursion, IsDistinct};
ghost use Rattle.step_index.specs.Numbers.{is_used, AreStepNumbers};

use crate::sparse::SparseNumbers;
use std::alloc::{AllocError, Global};
use std::marker::Model;

/// At most this many steps are counted, so that the number of all steps has 64 bits.
const LIMIT: usize = 1 << 63;

/// The place of a number among those that are counted from the first.
fn place_of(first: u64, counted: usize, number: u64) -> Option<usize>
    ensures some { IfSome result (λ i. (i < counted) × (first + i ≡ number)) }
    ensures none { IfNone result ((i : ℕ) → i < counted → first + i ≡ number → ⊥) }
{
    if number < first {
        return None;
    }
    let i = (number - first) as usize;
    if i < counted { Some(i) } else { None }
}

/// Whether a number is the next one of the count, or the first.
fn continues_count(first: u64, counted: usize, number: u64) -> bool
    ensures fits { IsTrue result → counted < 2 ^ 63 }
    ensures next { IsTrue result → (counted ≡ 0) ⊎ (first + counted ≡ number) }
{
    counted < LIMIT && (counted == 0 || number >= first && number - first == counted as u64)
}

/// The first number of a count that goes on with a number.
fn first_counted(first: u64, counted: usize, number: u64) -> u64
    ensures begun { counted ≡ 0 → result ≡ number }
    ensures kept { counted ≢ 0 → result ≡ first }
{
    if counted == 0 { number } else { first }
}

/// The numbers of steps in the order of a file, no two of them the same, with the place of each.
///
/// Contracts see the list of the numbers.
#[derive(Drop)]
pub struct StepIndex {
    /// The number of the first step.
    first: u64,
    /// How many steps are counted one by one from the first, as most solvers count all: nothing
    /// else is kept of them.
    counted: usize,
    /// The numbers of the steps after those.
    sparse: SparseNumbers,
}

impl Model for StepIndex {
    ghost use Rattle.std.specs.Prelude.{ℕ, List, ◌++◌};
    ghost use Rattle.step_index.specs.Numbers.{count_from, AreIndexed};

    ghost Value = { List ℕ };

    ghost view = { λ s. count_from s.first s.counted ++ s.sparse };

    ghost invariant = { λ s. AreIndexed s.first s.counted s.sparse };
}

impl StepIndex {
    /// An index of no step. It takes no memory.
    pub fn new(alloc: Global) -> StepIndex
        ensures { result ≡ [] }
    {
        StepIndex {
            first: 0,
            counted: 0,
            sparse: SparseNumbers::new(alloc),
        }
    }

    /// How many steps there are.
    #[tactic(auto, using(crate::proofs::CountedNumbers::count_length))]
    pub fn len(&self) -> usize
        ensures len { result ≡ length self.now }
        ensures distinct { IsDistinct nat_eq self.now }
        ensures fit { AllByRecursion (λ n. n < 2 ^ 64) self.now }
    {
        self.counted + self.sparse.len()
    }

    /// The number of the step at place `i`, counted from 0; `i` is below `len()`.
    #[tactic(auto, using(crate::proofs::CountedNumbers::number_at))]
    pub fn number(&self, i: usize) -> u64
        requires { i < length self.now }
        ensures { slice_get self.now i ≡ Some result }
    {
        if i < self.counted {
            return self.first + i as u64;
        }
        self.sparse.number(i - self.counted)
    }

    /// The place of the step with this number: `Some(i)` exactly if `number(i)` is this number.
    #[inline(always)]
    #[tactic(auto, using(crate::proofs::CountedNumbers::place_of_number))]
    pub fn position(&self, number: u64) -> Option<usize>
        ensures found { IfSome result (λ i. slice_get self.now i ≡ Some number) }
        ensures only { (i : ℕ) → slice_get self.now i ≡ Some number → result ≡ Some i }
    {
        if let Some(i) = place_of(self.first, self.counted, number) {
            return Some(i);
        }
        let i = self.sparse.position(number)?;
        Some(self.counted + i)
    }

    /// Whether a step has this number.
    #[inline(always)]
    pub fn contains(&self, number: u64) -> bool
        ensures { result ≡ is_used number self.now }
    {
        if place_of(self.first, self.counted, number).is_some() {
            return true;
        }
        self.sparse.contains(number)
    }

    /// Adds the number of one more step, which no step so far has.
    ///
    /// # Errors
    /// Out of memory. Nothing is changed then.
    #[inline(always)]
    pub fn push(&mut self, number: u64) -> Result<(), AllocError>
        requires { is_used number self.old ≡ false }
        ensures pushed { OnOk result (self.new ≡ self.old ++ number ∷ []) }
        ensures sound { AreStepNumbers self.new }
        ensures err { OnErr result (self.new ≡ self.old) }
    {
        if self.sparse.len() == 0 && continues_count(self.first, self.counted, number) {
            self.first = first_counted(self.first, self.counted, number);
            self.counted += 1;
            return Ok(());
        }
        self.sparse.push(number)?;
        Ok(())
    }

    /// Lets `position` find each number at once. Otherwise it goes over those that were pushed
    /// since the last call of `place_all`.
    pub fn place_all(&mut self)
        ensures { self.new ≡ self.old }
    {
        self.sparse.place_all();
    }
}
