//! Long lists of literals without those that a reduction takes out: short steps that follow from a
//! long list are compared with its part.

ghost use Rattle.std.specs.Prelude.{◌≡◌, [], ◌⊎◌, List, None, IfOk, IfSome, IsTrue, OnOk};
ghost use Rattle.qbf_core.specs.Literal.{Literal};
ghost use Rattle.qbf_core.specs.Members.{◌∈◌, ◌⊆◌};
ghost use Rattle.qbf_core.specs.Rules.{Side, reduced_quantifier};
ghost use Rattle.qrp_rules.specs.Walks.{IsHeldBefore, StandsAfter, TakesOut};
ghost use Rattle.written_steps.specs.Parts.{AreParts, AreReducibleAfter, IsPart, IsSameResolvent};
ghost use Rattle.written_steps.specs.Parts.{ReducesWhole, ResolvesWhole};
ghost use Rattle.qrp_rules.specs.Conditions.{AllHold, reduct_conditions};
ghost use Rattle.qrp_rules.specs.declared.rules.Rules.{Rules};
ghost use Rattle.written_steps.specs.declared.parts.Part.{Part};

use indexmap::IndexMap;
use qbf_core::{Lit, Prefix, Quantifier, Var};
use qrp_rules::{Reducible, Side, reducible_in};
use std::alloc::{AllocError, Global};

/// The literals of a list, but for those of the reduced quantifier that come after so many blocks.
#[derive(Drop)]
pub struct Part {
    /// The number under which it is kept.
    number: u64,
    /// How many blocks stand before those of the literals that it lacks.
    reach: usize,
    lits: Vec<Lit>,
}

/// Whether the block of a variable is before so many blocks, if it has the quantifier.
fn is_before(prefix: &Prefix, quantifier: Quantifier, reach: usize, var: Var) -> bool
    ensures { IsTrue result → IsHeldBefore prefix.now quantifier None var reach }
{
    prefix.reach(quantifier, var) <= reach
}

/// Whether the blocks of the literals that have the quantifier are before so many blocks.
fn surely_before(prefix: &Prefix, quantifier: Quantifier, reach: usize, lits: &[Lit]) -> bool
    ensures { IsTrue result → (l : Literal) → l ∈ lits.now
        → IsHeldBefore prefix.now quantifier None l.var reach }
{
    lits.iter()
        .all(|lit| is_before(prefix, quantifier, reach, lit.var()))
}

impl Part {
    /// Whether the literals that it lacks are seen to be reducible in a list or in the whole one.
    fn lacks_reducible<S: Side>(&self, prefix: &Prefix, to: &[Lit]) -> bool
        ensures { IsTrue result
            → AreReducibleAfter S.side prefix.now self.now.reach to.now self.now.lits.items }
    {
        surely_before(prefix, S::DECIDING, self.reach, to)
            || surely_before(prefix, S::DECIDING, self.reach, &self.lits)
    }

    /// Whether it is seen to lack no literal of the variables of a list.
    fn surely_has_vars_of(&self, prefix: &Prefix, reduced: Quantifier, lits: &[Lit]) -> bool
        ensures { IsTrue result → (l : Literal) → l ∈ lits.now
            → StandsAfter prefix.now reduced self.now.reach l.var → ⊥ }
    {
        let lacking = Reducible {
            prefix,
            quantifier: reduced,
            reach: self.reach,
        };
        lits.iter().all(|lit| !lacking.has(lit.var()))
    }

    /// Its literals, if a reduct of them is seen to be one of the whole list.
    fn for_reduct<S: Side>(&self, prefix: &Prefix, to: &[Lit]) -> Option<&[Lit]>
        ensures lits { IfSome result (λ lits. lits.now ≡ self.now.lits.items) }
        ensures whole { IfSome result (λ lits.
            ReducesWhole S.side prefix.now self.now.reach lits.now to.now) }
    {
        if !self.lacks_reducible::<S>(prefix, to) {
            return None;
        }
        Some(&self.lits)
    }

    /// Its literals, if a resolvent of them and another list is seen to be one of the whole list
    /// and that.
    fn for_resolvent<S: Side>(&self, prefix: &Prefix, other: &[Lit], to: &[Lit]) -> Option<&[Lit]>
        ensures lits { IfSome result (λ lits. lits.now ≡ self.now.lits.items) }
        ensures whole { IfSome result (λ lits.
            ResolvesWhole S.side prefix.now self.now.reach lits.now other.now to.now) }
    {
        if !self.lacks_reducible::<S>(prefix, to) {
            return None;
        }
        if !self.surely_has_vars_of(prefix, S::REDUCED, other) {
            return None;
        }
        Some(&self.lits)
    }
}

/// A step, and a long list that has a number, from which the step follows.
#[derive(Clone, Copy)]
pub struct ShortStep<'a> {
    /// The number of the list.
    pub number: u64,
    /// The literals of the list.
    pub from: &'a [Lit],
    /// The literals of the step.
    pub to: &'a [Lit],
}

/// A step that follows by resolution from a long list that has a number, and another list.
#[derive(Clone, Copy)]
pub struct ShortResolvent<'a> {
    /// The number of the long list.
    pub number: u64,
    /// The literals of the other list.
    pub other: &'a [Lit],
    /// The literals of the step.
    pub to: &'a [Lit],
}

/// Adds a literal to a list, unless it is reducible.
fn push_kept(part: &mut Vec<Lit>, reducible: Reducible, lit: Lit) -> Result<(), AllocError>
    ensures within { OnOk result ((l : Literal) → l ∈ part.new.items
        → (l ∈ part.old.items) ⊎ (l ≡ lit)) }
    ensures kept { OnOk result (part.old.items ⊆ part.new.items) }
    ensures put { OnOk result ((lit ∈ part.new.items) ⊎ TakesOut reducible.entry lit.var) }
{
    if reducible.has(lit.var()) {
        return Ok(());
    }
    part.push(lit)?;
    Ok(())
}

/// The literals of a list that are not reducible.
fn kept_lits(alloc: Global, reducible: Reducible, lits: &[Lit]) -> Result<Vec<Lit>, AllocError>
    ensures { IfOk result (λ part. IsPart reducible.entry.prefix.now reducible.entry.quantifier
        reducible.entry.reach lits.now part.items) }
{
    let mut part = Vec::new(alloc);
    for lit in lits {
        push_kept(&mut part, reducible, *lit)?;
    }
    Ok(part)
}

/// The part of a list that lacks what comes after so many blocks and has the reduced quantifier.
fn part_of<S: Side>(
    alloc: Global,
    prefix: &Prefix,
    step: ShortStep,
    reach: usize,
) -> Result<Part, AllocError>
    ensures { IfOk result (λ part. (part.number ≡ step.entry.number)
        × IsPart prefix.now (reduced_quantifier S.side) part.reach step.entry.from.now
        part.lits.items) }
{
    let reducible = Reducible {
        prefix,
        quantifier: S::REDUCED,
        reach,
    };
    let lits = kept_lits(alloc, reducible, step.from)?;
    Ok(Part {
        number: step.number,
        reach,
        lits,
    })
}

/// Parts of lists, each under a number that its owner gives to the list.
#[derive(Drop)]
pub struct Parts {
    alloc: Global,
    parts: Vec<Part>,
    /// Where the part of a list is, by its number, or `usize::MAX` if the list was met only once.
    /// The number of that part is compared.
    places: IndexMap<u64, usize>,
}

impl Parts {
    /// No parts. It takes no memory.
    pub fn new(alloc: Global) -> Parts
        ensures { result.parts.items ≡ [] }
    {
        Parts {
            alloc,
            parts: Vec::new(alloc),
            places: IndexMap::new(alloc),
        }
    }

    /// The part that is kept under a number.
    fn find(&self, number: u64) -> Option<&Part>
        ensures { IfSome result (λ part. (part.now ∈ self.now.parts.items)
            × (part.now.number ≡ number)) }
    {
        let place = *self.places.get(&number)?;
        let part = self.parts.get(place)?;
        if part.number == number {
            Some(part)
        } else {
            None
        }
    }

    /// The literals of a part of the list with a number, if a reduct of them is seen to be one of
    /// that list.
    pub fn for_reduct<S: Side>(&self, prefix: &Prefix, number: u64, to: &[Lit]) -> Option<&[Lit]>
        ensures { IfSome result (λ lits. (whole : List Literal)
            → AreParts S.side prefix.now self.now number whole
            → lits.now ⊆ whole × (AllHold (reduct_conditions S.side prefix.now lits.now to.now)
            → AllHold (reduct_conditions S.side prefix.now whole to.now))) }
    {
        let part = self.find(number)?;
        let lits = part.for_reduct::<S>(prefix, to)?;
        Some(lits)
    }

    /// The literals of a part of the list with a number, if a resolvent of them and the other list is
    /// seen to be one of both lists.
    pub fn for_resolvent<S: Side>(&self, prefix: &Prefix, step: ShortResolvent) -> Option<&[Lit]>
        ensures { IfSome result (λ lits. (whole : List Literal)
            → AreParts S.side prefix.now self.now step.entry.number whole
            → lits.now ⊆ whole × ((rules : Rules) → IsSameResolvent rules S.side prefix.now lits.now
            whole step.entry.other.now step.entry.to.now)) }
    {
        let part = self.find(step.number)?;
        let lits = part.for_resolvent::<S>(prefix, step.other, step.to)?;
        Some(lits)
    }

    /// How many blocks stand before those of the literals that a part of a list is to lack. `None` if
    /// there is one that serves for such steps.
    fn wanted_reach<S: Side>(&self, prefix: &Prefix, step: ShortStep) -> Option<usize> {
        let place = *self.places.get(&step.number)?;
        let whole = reducible_in(prefix, S::REDUCED, step.from).reach;
        let least = whole.min(reducible_in(prefix, S::REDUCED, step.to).reach);
        match self.parts.get(place) {
            None => Some(least),
            Some(part) if least <= part.reach => None,
            Some(_) => Some(whole),
        }
    }

    /// Keeps a part of the list from which a short step follows, if such a step of it was met
    /// before. It lacks what a step as this one may leave out.
    ///
    /// # Errors
    /// If an allocation fails.
    pub fn keep<S: Side>(&mut self, prefix: &Prefix, step: ShortStep) -> Result<(), AllocError>
        ensures { OnOk result ((part : Part) → part ∈ self.new.parts.items
            → (part ∈ self.old.parts.items) ⊎ ((part.number ≡ step.entry.number)
            × IsPart prefix.now (reduced_quantifier S.side) part.reach step.entry.from.now
            part.lits.items)) }
    {
        if self.places.get(&step.number).is_none() {
            self.places.insert(step.number, usize::MAX)?;
            return Ok(());
        }
        let Some(reach) = self.wanted_reach::<S>(prefix, step) else {
            return Ok(());
        };
        let part = part_of::<S>(self.alloc, prefix, step, reach)?;
        self.places.insert(step.number, self.parts.len())?;
        self.parts.push(part)?;
        Ok(())
    }
}
