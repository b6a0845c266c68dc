//! The antecedents of all steps of a trace.

ghost use Rattle.std.specs.Prelude.{◌≡◌, ◌≤◌, ◌<◌, ◌-◌, ℕ, List, [], ◌∷◌, ◌++◌, Some};
ghost use Rattle.std.specs.Prelude.{length, take, slice_get, false, IfSome, IsTrue, OnOk, OnErr};
ghost use Rattle.trace_items.specs.Antecedents.{list_of_pair, list_of_word, listed};

use crate::antecedents::{AntecedentPair, Antecedents};
use lists::GrowingLists;
use std::alloc::{AllocError, Global};
use std::marker::Model;

/// The antecedents of steps, in the order of the steps, however they are kept.
pub trait AntecedentLists: Drop {
    /// The list of each step.
    ghost lists: { Self → List (List ℕ) };

    /// The lists of no steps. It takes no memory.
    fn of_no_steps(alloc: Global) -> Self
        ensures { lists result ≡ [] };

    /// Adds the antecedents of one more step.
    ///
    /// # Errors
    /// Out of memory. Nothing is changed then.
    fn add(&mut self, ants: AntecedentPair) -> Result<(), AllocError>
        ensures added { OnOk result (lists self.new ≡ lists self.old ++ list_of_pair ants ∷ []) }
        ensures err { OnErr result (lists self.new ≡ lists self.old) };

    /// Takes the list of the last step away, if there is one.
    fn remove_last(&mut self)
        ensures { lists self.new ≡ take (length (lists self.old) - 1) (lists self.old) };
}

/// Eight bytes for each antecedent, and each list can be lent.
impl AntecedentLists for GrowingLists<u64> {
    ghost lists = { λ g. g.whole };

    fn of_no_steps(alloc: Global) -> GrowingLists<u64> {
        GrowingLists::new(alloc)
    }

    #[inline(always)]
    fn add(&mut self, ants: AntecedentPair) -> Result<(), AllocError> {
        self.begin();
        match ants.antecedents() {
            Antecedents::Empty => {}
            Antecedents::One(only) => self.push(only)?,
            Antecedents::Two(first, second) => {
                self.push(first)?;
                self.push(second)?;
            }
        }
        self.close()
    }

    fn remove_last(&mut self) {
        self.pop();
    }
}

/// A word with these antecedents, the first in its lower half, if each takes four bytes. A half
/// that is 0 stands for no antecedent.
#[inline(always)]
#[tactic(auto, using(crate::proofs::AntecedentsInWords::word_list))]
fn word_of(ants: AntecedentPair) -> Option<u64>
    ensures { IfSome result (λ word. list_of_word word ≡ list_of_pair ants) }
{
    if ants.first < 4294967296 && ants.second < 4294967296 {
        Some(ants.second * 4294967296 + ants.first)
    } else {
        None
    }
}

/// Adds antecedents of a step that are not in a word.
///
/// # Errors
/// Out of memory. Nothing is changed then.
#[cold]
#[inline(never)]
fn add_wide(wide: &mut GrowingLists<u64>, ants: AntecedentPair) -> Result<(), AllocError>
    ensures added { OnOk result (wide.new.whole ≡ wide.old.whole ++ list_of_pair ants ∷ []) }
    ensures err { OnErr result (wide.new.whole ≡ wide.old.whole) }
{
    wide.add(ants)
}

/// The antecedents of steps. Each step has one word, with four bytes for each antecedent, up to the
/// first step with an antecedent that takes more. From that step on they are in lists of numbers of
/// eight bytes. Contracts see the list of each step.
#[derive(Drop)]
pub struct AntecedentWords {
    words: Vec<u64>,
    /// The lists of the first step that takes more than a word, and of all after it.
    wide: GrowingLists<u64>,
}

impl Model for AntecedentWords {
    ghost use Rattle.std.specs.Prelude.{ℕ, List, ◌++◌, map};
    ghost use Rattle.trace_items.specs.Antecedents.{list_of_word};

    ghost Value = { List (List ℕ) };

    ghost view = { λ p. map list_of_word p.words.items ++ p.wide.whole };
}

impl AntecedentWords {
    /// The antecedents of the step at position `i`, which are at most two.
    #[inline(always)]
    pub fn get(&self, i: usize) -> Antecedents
        requires place { i < length self.now }
        requires few { (ants : List ℕ) → slice_get self.now i ≡ Some ants → length ants ≤ 2 }
        ensures { slice_get self.now i ≡ Some (listed result) }
    {
        let reached = self.words.len();
        if i < reached {
            let word = self.words[i];
            Antecedents::of_two(word % 4294967296, word / 4294967296)
        } else {
            Antecedents::of_list(self.wide.get(i - reached))
        }
    }
}

impl AntecedentLists for AntecedentWords {
    ghost lists = { λ p. p };

    fn of_no_steps(alloc: Global) -> AntecedentWords {
        AntecedentWords {
            words: Vec::new(alloc),
            wide: GrowingLists::new(alloc),
        }
    }

    #[inline(always)]
    fn add(&mut self, ants: AntecedentPair) -> Result<(), AllocError> {
        if self.wide.whole_len() == 0 {
            if let Some(word) = word_of(ants) {
                self.words.push(word)?;
                return Ok(());
            }
        }
        add_wide(&mut self.wide, ants)
    }

    #[tactic(auto, using(crate::proofs::AntecedentsInWords::last_of_later))]
    fn remove_last(&mut self) {
        if self.wide.whole_len() == 0 {
            self.words.pop();
        } else {
            self.wide.pop();
        }
    }
}
