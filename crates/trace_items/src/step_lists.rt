//! The literals and the antecedents of all steps of a trace.

ghost use Rattle.std.specs.Prelude.{◌≡◌, ◌++◌, ◌∷◌, [], OnOk, OnErr};
ghost use Rattle.trace_items.specs.StepLists.{no_lists, with_lists, without_last, ListsOfSteps};

use crate::antecedent_lists::{AntecedentLists, AntecedentWords};
use crate::antecedents::AntecedentPair;
use lists::GrowingLists;
use qbf_core::{Lit, PackedLists};
use std::alloc::{AllocError, Global};
use std::marker::Model;

/// The literals and the antecedents of steps, in the order of the steps, however they are kept.
pub trait StepLists: Drop {
    /// The lists of each step.
    ghost lists: { Self → ListsOfSteps };

    /// The lists of no steps. It takes no memory.
    fn of_no_steps(alloc: Global) -> Self
        ensures { lists result ≡ no_lists };

    /// Adds the lists of one more step.
    ///
    /// # Errors
    /// Out of memory. Nothing is changed then.
    fn add(&mut self, lits: &[Lit], ants: AntecedentPair) -> Result<(), AllocError>
        ensures added { OnOk result (lists self.new ≡ with_lists (lists self.old) lits.now ants) }
        ensures err { OnErr result (lists self.new ≡ lists self.old) };

    /// Takes the lists of the last step away, if there is one.
    fn remove_last(&mut self)
        ensures { lists self.new ≡ without_last (lists self.old) };
}

/// The lists of steps, of which each can be lent: four bytes for each literal, and eight for each
/// antecedent. Contracts see the lists.
#[derive(Drop)]
pub struct LentLists {
    pub lits: GrowingLists<Lit>,
    pub ants: GrowingLists<u64>,
}

impl Model for LentLists {
    ghost use Rattle.trace_items.specs.StepLists.{ListsOfSteps};

    ghost Value = { ListsOfSteps };

    ghost view = { λ s. record { lits = s.lits.whole; ants = s.ants.whole } };
}

/// Adds a list with these literals.
///
/// # Errors
/// Out of memory. No whole list is changed then.
#[inline(always)]
fn add_literals(lists: &mut GrowingLists<Lit>, lits: &[Lit]) -> Result<(), AllocError>
    ensures added { OnOk result (lists.new.whole ≡ lists.old.whole ++ lits.now ∷ []) }
    ensures err { OnErr result (lists.new.whole ≡ lists.old.whole) }
{
    lists.begin();
    lists.extend(lits)?;
    lists.close()
}

impl StepLists for LentLists {
    ghost lists = { λ s. s };

    fn of_no_steps(alloc: Global) -> LentLists {
        LentLists {
            lits: GrowingLists::new(alloc),
            ants: GrowingLists::new(alloc),
        }
    }

    #[inline(always)]
    fn add(&mut self, lits: &[Lit], ants: AntecedentPair) -> Result<(), AllocError> {
        add_literals(&mut self.lits, lits)?;
        match self.ants.add(ants) {
            Ok(()) => Ok(()),
            Err(refused) => {
                self.lits.pop();
                Err(refused)
            }
        }
    }

    fn remove_last(&mut self) {
        self.lits.pop();
        self.ants.pop();
    }
}

/// The lists of steps in little memory: the literals of a step take as many bytes as its largest
/// needs, and antecedents four bytes as long as all of them fit. Contracts see the lists.
#[derive(Drop)]
pub struct CompactLists {
    pub lits: PackedLists,
    pub ants: AntecedentWords,
}

impl Model for CompactLists {
    ghost use Rattle.trace_items.specs.StepLists.{ListsOfSteps};

    ghost Value = { ListsOfSteps };

    ghost view = { λ s. record { lits = s.lits; ants = s.ants } };
}

impl StepLists for CompactLists {
    ghost lists = { λ s. s };

    fn of_no_steps(alloc: Global) -> CompactLists {
        CompactLists {
            lits: PackedLists::new(alloc),
            ants: AntecedentWords::of_no_steps(alloc),
        }
    }

    #[inline(always)]
    fn add(&mut self, lits: &[Lit], ants: AntecedentPair) -> Result<(), AllocError> {
        self.lits.add(lits)?;
        match self.ants.add(ants) {
            Ok(()) => Ok(()),
            Err(refused) => {
                self.lits.pop();
                Err(refused)
            }
        }
    }

    fn remove_last(&mut self) {
        self.lits.pop();
        self.ants.remove_last();
    }
}
