//! Traces that are read as a whole to be checked, and take less memory.

ghost use Rattle.std.specs.Prelude.{◌≡◌};
ghost use Rattle.trace_items.specs.Derivations.{IsWellFormed};
ghost use Rattle.trace_items.specs.Flat.{kept_of, trace_of, IsFlat};

use crate::antecedents::Antecedents;
use crate::flat_sets::FlatSets;
use crate::item::{Header, Outcome};
use crate::kept_steps::KeptSteps;
use crate::parts::Parts;
use crate::step_lists::CompactLists;
use qbf_core::{Lit, LitBuffer, LitsLeft};
use std::alloc::AllocError;
use std::marker::Model;

/// A trace that was read as a whole. The literals of a step take as many bytes as its
/// largest needs, and antecedents four as long as all of them fit, so it gives them and cannot lend
/// them.
///
/// Contracts see a `Derivation`, which is well formed.
#[derive(Drop)]
pub struct CompactTrace {
    parts: Parts<CompactLists>,
    result: Outcome,
}

impl Model for CompactTrace {
    ghost use Rattle.trace_items.specs.Derivations.{Derivation};
    ghost use Rattle.trace_items.specs.Flat.{kept_of, trace_of, IsFlat};

    ghost Value = { Derivation };

    ghost view = { λ t.
        record (trace_of (kept_of (λ lists. lists) t.parts)) { result = t.result } };

    ghost invariant = { λ t. IsFlat (kept_of (λ lists. lists) t.parts) };
}

impl CompactTrace {
    /// The trace that these parts make, with this result. It takes no memory.
    pub fn of_parts(parts: Parts<CompactLists>, outcome: Outcome) -> CompactTrace
        requires { IsFlat (kept_of (λ lists. lists) parts) }
        ensures { result ≡ record (trace_of (kept_of (λ lists. lists) parts)) { result = outcome } }
    {
        CompactTrace {
            parts,
            result: outcome,
        }
    }

    /// Its header, as written.
    pub fn header(&self) -> Header
        ensures value { result ≡ self.now.header }
        ensures sound { IsWellFormed self.now }
    {
        self.parts.header
    }

    /// Its quantifier sets, as written.
    pub fn sets(&self) -> &FlatSets
        ensures { result.now ≡ self.now.sets }
    {
        &self.parts.sets
    }

    /// The claim about its formula.
    pub fn result(&self) -> Outcome
        ensures value { result ≡ self.now.result }
        ensures sound { IsWellFormed self.now }
    {
        self.result
    }
}

impl KeptSteps for CompactTrace {
    ghost steps = { λ t. t.steps };

    #[inline(always)]
    fn len(&self) -> usize {
        self.parts.lists.index.len()
    }

    #[inline(always)]
    #[tactic(auto, using(crate::proofs::Positions::only_at))]
    fn number(&self, i: usize) -> u64 {
        self.parts.lists.index.number(i)
    }

    #[inline(always)]
    #[tactic(auto, using(crate::proofs::FlatSteps::numbered_at))]
    fn lits_left(&self, i: usize) -> LitsLeft<'_> {
        self.parts.steps.lits.left(i)
    }

    #[inline(always)]
    #[tactic(auto, using(crate::proofs::FlatSteps::numbered_at))]
    fn unpacked<'a>(
        &'a self,
        i: usize,
        buffer: &'a mut LitBuffer,
    ) -> Result<&'a [Lit], AllocError> {
        self.parts.steps.lits.unpack(i, buffer)
    }

    #[inline(always)]
    #[tactic(auto, using(crate::proofs::FlatSteps::numbered_at, crate::proofs::FlatSteps::few_at))]
    fn antecedents(&self, i: usize) -> Antecedents {
        self.parts.steps.ants.get(i)
    }

    #[inline(always)]
    #[tactic(auto, using(crate::proofs::Positions::step_found))]
    fn position(&self, number: u64) -> Option<usize> {
        self.parts.lists.index.position(number)
    }
}
