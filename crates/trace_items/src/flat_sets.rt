//! Quantifier sets, however they are kept.

ghost use Rattle.std.specs.Prelude.{◌≡◌, ◌<◌, List, [], ◌∷◌, ◌++◌, Some, length, slice_get};
ghost use Rattle.std.specs.Prelude.{IfOk, OnOk, OnErr};
ghost use Rattle.qbf_core.specs.Blocks.{Block};

use crate::item::QuantSet;
use lists::GrowingLists;
use qbf_core::{Quantifier, Var};
use std::alloc::{AllocError, Global};
use std::marker::Model;

/// Quantifier sets in the order of a file, however they are kept.
pub trait KeptSets {
    /// The sets in the order of the file.
    ghost sets: { Self → List Block };

    /// How many sets there are.
    fn len(&self) -> usize
        ensures { result ≡ length (sets self.now) };

    /// The set at place `i`, counted from 0; `i` is below `len()`.
    fn get(&self, i: usize) -> (Quantifier, &[Var])
        requires { i < length (sets self.now) }
        ensures { slice_get (sets self.now) i
            ≡ Some (record { quantifier = result.0; vars = result.1.now }) };
}

/// Sets that lie in a slice.
#[derive(Clone, Copy)]
pub struct LentSets<'a>(pub &'a [QuantSet]);

impl<'a> KeptSets for LentSets<'a> {
    ghost sets = { λ s. s.0.now };

    #[inline(always)]
    fn len(&self) -> usize {
        self.0.len()
    }

    #[inline(always)]
    fn get(&self, i: usize) -> (Quantifier, &[Var]) {
        let set = &self.0[i];
        (set.quantifier, &set.vars)
    }
}

/// Sets whose variables lie one after the other in one buffer, so that a set is no allocation of
/// its own. Contracts see the list of them.
#[derive(Drop)]
pub struct FlatSets {
    quantifiers: Vec<Quantifier>,
    vars: GrowingLists<Var>,
}

impl Model for FlatSets {
    ghost use Rattle.std.specs.Prelude.{◌≡◌, List, length};
    ghost use Rattle.qbf_core.specs.Blocks.{Block};
    ghost use Rattle.trace_items.specs.SetLists.{sets_of};

    ghost Value = { List Block };

    ghost view = { λ s. sets_of s.quantifiers.items s.vars.whole };

    ghost invariant = { λ s. length s.vars.whole ≡ length s.quantifiers.items };
}

impl FlatSets {
    /// No sets. It takes no memory yet.
    pub fn new(alloc: Global) -> FlatSets
        ensures { result ≡ [] }
    {
        FlatSets {
            quantifiers: Vec::new(alloc),
            vars: GrowingLists::new(alloc),
        }
    }

    /// Adds a set at the end.
    ///
    /// # Errors
    /// Out of memory. Nothing is changed then.
    #[inline(always)]
    #[tactic(auto, using(crate::proofs::SetLists::sets_more))]
    pub fn push(&mut self, quantifier: Quantifier, vars: &[Var]) -> Result<(), AllocError>
        ensures pushed { OnOk result (self.new
            ≡ self.old ++ record { quantifier = quantifier; vars = vars.now } ∷ []) }
        ensures err { OnErr result (self.new ≡ self.old) }
    {
        self.vars.begin();
        self.vars.extend(vars)?;
        self.quantifiers.push(quantifier)?;
        match self.vars.close() {
            Ok(()) => Ok(()),
            Err(refused) => {
                self.quantifiers.pop();
                Err(refused)
            }
        }
    }

    /// The same sets, each with a list of its own.
    ///
    /// # Errors
    /// Out of memory.
    #[tactic(auto, using(crate::proofs::SetLists::taken_next))]
    pub fn to_sets(&self, alloc: Global) -> Result<Vec<QuantSet>, AllocError>
        ensures { IfOk result (λ sets. sets.items ≡ self.now) }
    {
        let mut sets = Vec::with_capacity(alloc, self.len())?;
        for place in 0..self.len() {
            let (quantifier, lent) = self.get(place);
            let vars = Vec::from_slice(alloc, lent)?;
            sets.push(QuantSet { quantifier, vars })?;
        }
        Ok(sets)
    }
}

impl KeptSets for FlatSets {
    ghost sets = { λ s. s };

    #[inline(always)]
    #[tactic(auto, using(crate::proofs::SetLists::sets_count))]
    fn len(&self) -> usize {
        self.quantifiers.len()
    }

    #[inline(always)]
    #[tactic(auto, using(crate::proofs::SetLists::sets_count))]
    fn get(&self, i: usize) -> (Quantifier, &[Var]) {
        (self.quantifiers[i], self.vars.get(i))
    }
}
