//! Steps that repeat a literal, with each of their literals once.

ghost use Rattle.std.specs.Prelude.{◌≡◌, ◌<◌, List, [], ◌∷◌, ◌++◌, length, IfOk, IfSome, OnOk};
ghost use Rattle.trace_items.specs.Inferences.{Inference};
ghost use Rattle.core_walk.specs.DistinctLits.{AreKept, HasMembersAt, IsKeptAt};

use lists::GrowingLists;
use qbf_core::{Lit, LitBuffer};
use std::alloc::{AllocError, Global};
use trace_items::KeptSteps;
use written_steps::{SeenLits, push_distinct};

/// The steps that were accepted and seen to repeat a literal, with each of their literals once. So
/// the repetitions of a step do not take time again each time it is an antecedent.
#[derive(Drop)]
pub(crate) struct DistinctLits {
    /// The positions of these steps in the trace. They go up.
    positions: Vec<usize>,
    /// Their literals.
    lists: GrowingLists<Lit>,
}

impl DistinctLits {
    /// No steps. It takes no memory yet.
    pub(crate) fn new(alloc: Global) -> DistinctLits
        ensures { (steps : List Inference) → AreKept steps result }
    {
        DistinctLits {
            positions: Vec::new(alloc),
            lists: GrowingLists::new(alloc),
        }
    }

    /// The literals that are kept of the step at a position.
    #[cold]
    #[inline(never)]
    fn find(&self, position: usize) -> Option<&[Lit]>
        ensures { IfSome result (λ lits. IsKeptAt self.now position lits.now) }
    {
        let Ok(index) = self.positions.binary_search(&position) else {
            return None;
        };
        if index >= self.lists.whole_len() || self.positions[index] != position {
            return None;
        }
        Some(self.lists.get(index))
    }

    /// The literals of the step at a position: each once if the step is kept, else as they are
    /// written. The buffer is for those that the trace cannot lend.
    ///
    /// # Errors
    /// If an allocation fails.
    #[inline(always)]
    pub(crate) fn members<'a, T: KeptSteps>(
        &'a self,
        trace: &'a T,
        position: usize,
        buffer: &'a mut LitBuffer,
    ) -> Result<&'a [Lit], AllocError>
        requires position { position < length (T.steps trace.now) }
        requires kept { AreKept (T.steps trace.now) self.now }
        ensures { IfOk result (λ lits. HasMembersAt (T.steps trace.now) position lits.now) }
    {
        if !self.positions.is_empty() {
            if let Some(lits) = self.find(position) {
                return Ok(lits);
            }
        }
        trace.unpacked(position, buffer)
    }

    /// Keeps the unfinished list as that of the step at a position.
    #[cold]
    fn close(&mut self, position: usize) -> Result<(), AllocError>
        ensures positions { OnOk result
            (self.new.positions.items ≡ self.old.positions.items ++ position ∷ []) }
        ensures lists { OnOk result
            (self.new.lists.whole ≡ self.old.lists.whole ++ self.old.lists.unfinished ∷ []) }
    {
        self.lists.close()?;
        self.positions.push(position)?;
        Ok(())
    }

    /// Keeps the step at a position if the test that accepted it saw a literal twice. From call to
    /// call the positions go up.
    ///
    /// # Errors
    /// If an allocation fails.
    #[inline(always)]
    pub(crate) fn keep(
        &mut self,
        seen: &mut SeenLits,
        position: usize,
        lits: &[Lit],
    ) -> Result<(), AllocError>
        ensures { OnOk result ((steps : List Inference) → HasMembersAt steps position lits.now
            → AreKept steps self.old → AreKept steps self.new) }
    {
        if !push_distinct(seen, lits, &mut self.lists)? {
            return Ok(());
        }
        self.close(position)?;
        Ok(())
    }
}
