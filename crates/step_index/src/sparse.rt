//! Numbers in the order in which they come, found by value.

ghost use Rattle.std.specs.Prelude.{◌≡◌, ◌≢◌, ℕ, ◌+◌, ◌-◌, ◌*◌, ◌^◌, ◌<◌, ◌≤◌, List, [], ◌∷◌, ◌++◌};
ghost use Rattle.std.specs.Prelude.{suc, length, get_or, slice_get, max, Some, IfSome, IfNone};
ghost use Rattle.std.specs.Prelude.{◌↔◌, IsTrue, false, IfOk, OnOk, OnErr};
ghost use Rattle.step_index.specs.Numbers.{is_used};
ghost use Rattle.step_index.specs.Sparse.{ArePlaced, ArePlaces, AreNoted};

use crate::number_set::NumberSet;
use crate::reach::reach;
use indexmap::IndexMap;
use std::alloc::{AllocError, Global};
use std::marker::Model;

/// The table reaches so many numbers at least, if they come, and `REACH_OF_EACH` more for each
/// number that is kept.
const REACH: usize = 1 << 20;

/// The table takes so many entries at most for each number that is kept.
const REACH_OF_EACH: usize = 16;

/// Numbers in the order in which they come, with the place of each.
///
/// Contracts see the list of the numbers.
#[derive(Drop)]
pub(crate) struct SparseNumbers {
    /// The numbers in their order.
    numbers: Vec<u64>,
    /// The greatest of them, or 0 if there is none.
    greatest: u64,
    /// Those that were not too large for the table when they came. Whether a number came is looked
    /// up here, since a table by number does not stay in the processor's caches.
    near: NumberSet,
    /// For each number below its length: one more than a place of that number, or 0 if `far` or
    /// `numbers` alone may have it.
    table: Vec<u32>,
    /// How many of the numbers, from the first on, have their places in the table or in `far`.
    placed: usize,
    /// The places of the numbers that were too large for the table when they came.
    far: IndexMap<u64, usize>,
}

impl Model for SparseNumbers {
    ghost use Rattle.std.specs.Prelude.{◌+◌, ◌*◌, ◌^◌, ℕ, List, ◌≤◌, length};
    ghost use Rattle.std.specs.List.{AllByRecursion};
    ghost use Rattle.step_index.specs.Sparse.{AreFound};

    ghost Value = { List ℕ };

    ghost view = { λ s. s.numbers.items };

    ghost invariant = { λ s.
        AreFound s.near s.table.items s.far.entries s.numbers.items s.placed
        × AllByRecursion (λ n. n ≤ s.greatest) s.numbers.items
        × (length s.table.items ≤ 2 ^ 20 + 16 * length s.numbers.items) };
}

/// Whether the table may reach a number, if the next place is this one. A place in the table has
/// 32 bits.
fn surely_near(place: usize, number: u64) -> bool
    ensures place { IsTrue result → place + 1 < 2 ^ 32 }
    ensures number { IsTrue result → number < 2 ^ 37 }
    ensures few { IsTrue result → number < 2 ^ 20 + 16 * place }
{
    place < u32::MAX as usize && number < (REACH + REACH_OF_EACH * place) as u64
}

/// Makes a table reach a number that is near, if the next place is this one. `false` if it is
/// not near.
///
/// # Errors
/// If an allocation fails. The table is not changed then.
#[inline(always)]
fn reach_near(table: &mut Vec<u32>, place: usize, number: u64) -> Result<bool, AllocError>
    ensures near { IfOk result (λ near. IsTrue near → number < 2 ^ 37) }
    ensures few { OnOk result
        (length table.new.items ≤ max (length table.old.items) (2 ^ 20 + 16 * place)) }
    ensures kept { (n : ℕ) → get_or table.new.items n 0 ≡ get_or table.old.items n 0 }
    ensures err { OnErr result (table.new.items ≡ table.old.items) }
{
    if !surely_near(place, number) {
        return Ok(false);
    }
    reach(table, number as usize, 0)?;
    Ok(true)
}

/// The place that a table has of a number.
#[inline(always)]
fn place_in(table: &[u32], number: u64) -> Option<usize>
    ensures some { IfSome result (λ i. get_or table.now number 0 ≡ suc i) }
    ensures none { IfNone result (get_or table.now number 0 ≡ 0) }
{
    let index = number as usize;
    if index >= table.len() || table[index] == 0 {
        return None;
    }
    Some(table[index] as usize - 1)
}

/// Puts the place of a number into a table, or returns `false` if there is no room for it.
fn put_place(table: &mut [u32], number: u64, place: usize) -> bool
    ensures put { IsTrue result → get_or table.new number 0 ≡ suc place }
    ensures kept { (n : ℕ) → n ≢ number → get_or table.new n 0 ≡ get_or table.old n 0 }
    ensures none { result ≡ false → get_or table.new number 0 ≡ get_or table.old number 0 }
{
    let index = number as usize;
    if index >= table.len() || place >= u32::MAX as usize {
        return false;
    }
    table[index] = place as u32 + 1;
    true
}

/// Puts the places of the numbers of a set into a table, from a place on, as far as there is room.
/// Returns how far.
fn put_places(table: &mut [u32], near: &NumberSet, numbers: &[u64], from: usize) -> usize
    requires { from ≤ length numbers.now }
    ensures few { result ≤ length numbers.now }
    ensures sound { ArePlaces table.old numbers.now → ArePlaces table.new numbers.now }
    ensures placed { (far : List (ℕ × ℕ)) → AreNoted far near.now numbers.now
        → ArePlaced far table.old numbers.now from → ArePlaced far table.new numbers.now result }
{
    for place in from..numbers.len() {
        let number = numbers[place];
        if near.contains(number) {
            if !put_place(table, number, place) {
                return place;
            }
        }
    }
    numbers.len()
}

/// The first place from another one on that has a number.
#[cold]
#[inline(never)]
fn find_from(numbers: &[u64], from: usize, number: u64) -> Option<usize>
    ensures some { IfSome result (λ i. slice_get numbers.now i ≡ Some number) }
    ensures none { IfNone result ((i : ℕ) → from ≤ i → slice_get numbers.now i ≡ Some number → ⊥) }
{
    for place in from..numbers.len() {
        if numbers[place] == number {
            return Some(place);
        }
    }
    None
}

/// Whether a number is above the greatest of those that came.
#[inline(always)]
fn is_above(greatest: u64, number: u64) -> bool
    ensures { IsTrue result ↔ greatest < number }
{
    number > greatest
}

impl SparseNumbers {
    /// No numbers. It takes no memory.
    pub(crate) fn new(alloc: Global) -> SparseNumbers
        ensures { result ≡ [] }
    {
        SparseNumbers {
            numbers: Vec::new(alloc),
            greatest: 0,
            near: NumberSet::new(alloc),
            table: Vec::new(alloc),
            placed: 0,
            far: IndexMap::new(alloc),
        }
    }

    /// How many numbers there are.
    pub(crate) fn len(&self) -> usize
        ensures len { result ≡ length self.now }
        ensures small { result < 2 ^ 63 }
    {
        let numbers = &self.numbers;
        numbers.len()
    }

    /// The number at place `i`, counted from 0; `i` is below `len()`.
    pub(crate) fn number(&self, i: usize) -> u64
        requires { i < length self.now }
        ensures { slice_get self.now i ≡ Some result }
    {
        self.numbers[i]
    }

    /// A place of a number, or `None` if it did not come.
    #[inline(never)]
    #[tactic(auto, using(crate::proofs::SparseNumbers::not_there))]
    pub(crate) fn position(&self, number: u64) -> Option<usize>
        ensures some { IfSome result (λ i. slice_get self.now i ≡ Some number) }
        ensures none { IfNone result ((i : ℕ) → slice_get self.now i ≡ Some number → ⊥) }
    {
        if let Some(place) = place_in(&self.table, number) {
            return Some(place);
        }
        match self.far.get(&number) {
            Some(place) => Some(*place),
            None => find_from(&self.numbers, self.placed, number),
        }
    }

    /// Whether a number came. One that is greater than all before is not looked up.
    #[inline(always)]
    pub(crate) fn contains(&self, number: u64) -> bool
        ensures { result ≡ is_used number self.now }
    {
        if is_above(self.greatest, number) {
            return false;
        }
        if self.near.contains(number) {
            return true;
        }
        let far = self.far.get(&number);
        far.copied().is_some()
    }

    /// Puts the places of all numbers where `position` finds them at once. Otherwise it goes over
    /// those that were added since the last call of `place_all`.
    pub(crate) fn place_all(&mut self)
        ensures { self.new ≡ self.old }
    {
        self.placed = put_places(&mut self.table, &self.near, &self.numbers, self.placed);
    }

    /// Adds a number at the end. An `Err` means that an allocation failed, and changes nothing.
    #[inline(never)]
    pub(crate) fn push(&mut self, number: u64) -> Result<(), AllocError>
        ensures pushed { OnOk result (self.new ≡ self.old ++ number ∷ []) }
        ensures small { OnOk result (length self.new < 2 ^ 63) }
        ensures err { OnErr result (self.new ≡ self.old) }
    {
        let greatest = self.greatest.max(number);
        self.numbers.reserve(1)?;
        let place = self.numbers.len();
        if reach_near(&mut self.table, place, number)? {
            self.near.insert(number)?;
        } else {
            self.far.insert(number, place)?;
        }
        self.greatest = greatest;
        match self.numbers.push(number) {
            Ok(()) => Ok(()),
            Err(_) => unreachable!(),
        }
    }
}
