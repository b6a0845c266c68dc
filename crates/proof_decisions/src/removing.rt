//! The literals that a step keeps, and those that are removed of the lists that it comes from.

ghost use Rattle.std.specs.Prelude.{◌≡◌, ◌≤◌, ◌+◌, [], ◌∷◌, ◌⊎◌, OnOk, length};
ghost use Rattle.qbf_core.specs.Literal.{Literal};
ghost use Rattle.qbf_core.specs.Members.{◌∈◌, ◌⊆◌};
ghost use Rattle.qrp_rules.specs.Walks.{MayOmit, TakesOut};
ghost use Rattle.proof_decisions.specs.Removing.{IsLeft, MayLeave, Removes, RemovesAll};

use crate::literal_sets::put;
use crate::origins::Origin;
use lists::GrowingLists;
use qbf_core::{Lit, Prefix};
use qrp_rules::{Reducible, Side, may_omit, reducible_in};
use std::alloc::AllocError;
use written_steps::SeenLits;

/// Puts a literal of a step into the list of those that it keeps, unless it may be taken out.
#[tactic(auto, using(qbf_core::proofs::Members::in_push, qbf_core::proofs::Members::push_in))]
fn put_kept(own: Reducible, lit: Lit, kept: &mut GrowingLists<Lit>) -> Result<(), AllocError>
    ensures whole { kept.new.whole ≡ kept.old.whole }
    ensures within { OnOk result ((l : Literal) → l ∈ kept.new.unfinished
        → (l ∈ kept.old.unfinished) ⊎ ((l ≡ lit) × (TakesOut own.entry lit.var → ⊥))) }
    ensures grows { OnOk result (kept.old.unfinished ⊆ kept.new.unfinished) }
    ensures one { OnOk result
        (length kept.new.unfinished ≤ length kept.old.unfinished + 1) }
    ensures here { OnOk result ((lit ∈ kept.new.unfinished) ⊎ TakesOut own.entry lit.var) }
{
    if own.has(lit.var()) {
        return Ok(());
    }
    kept.push(lit)
}

/// Makes the unfinished list that of the literals of a step without all that may be taken out.
pub(crate) fn keep(
    own: Reducible,
    lits: &[Lit],
    kept: &mut GrowingLists<Lit>,
) -> Result<(), AllocError>
    ensures whole { kept.new.whole ≡ kept.old.whole }
    ensures left { OnOk result (IsLeft own.entry lits.now kept.new.unfinished) }
{
    kept.begin();
    for lit in lits {
        put_kept(own, *lit, kept)?;
    }
    Ok(())
}

/// Removes a literal, unless it is kept or was removed.
#[tactic(auto, using(crate::proofs::RemovedLiterals::removes_same))]
fn remove(lit: Lit, seen: &mut SeenLits, removed: &mut GrowingLists<Lit>) -> Result<(), AllocError>
    ensures whole { removed.new.whole ≡ removed.old.whole }
    ensures removes { OnOk result (Removes seen.old seen.new removed.old.unfinished
        removed.new.unfinished (lit ∷ []) (λ l. ⊥)) }
{
    if seen.contains(lit) {
        return Ok(());
    }
    put(seen, lit)?;
    removed.push(lit)
}

/// The literals of a list that are left aside: those of the pivot, and those that may be taken out.
#[derive(Clone, Copy)]
struct Aside<'a> {
    reducible: Option<Reducible<'a>>,
    pivot: Option<u32>,
}

/// An antecedent of a step.
#[derive(Clone, Copy)]
struct Antecedent<'a> {
    prefix: &'a Prefix,
    lits: &'a [Lit],
    /// The variable in which it clashes with the other antecedent, if there is one.
    pivot: Option<u32>,
}

/// Removes a literal, unless it is left aside.
#[tactic(auto, using(crate::proofs::RemovedLiterals::removes_aside, crate::proofs::RemovedLiterals::removes_other))]
fn remove_other(
    aside: Aside,
    lit: Lit,
    seen: &mut SeenLits,
    removed: &mut GrowingLists<Lit>,
) -> Result<(), AllocError>
    ensures whole { removed.new.whole ≡ removed.old.whole }
    ensures removes { OnOk result (Removes seen.old seen.new removed.old.unfinished
        removed.new.unfinished (lit ∷ [])
        (λ l. MayOmit aside.entry.reducible aside.entry.pivot l.var)) }
{
    if may_omit(aside.reducible, aside.pivot, lit.var()) {
        return Ok(());
    }
    remove(lit, seen, removed)
}

/// Removes the literals of a list, but for those that are left aside.
fn remove_others(
    aside: Aside,
    lits: &[Lit],
    seen: &mut SeenLits,
    removed: &mut GrowingLists<Lit>,
) -> Result<(), AllocError>
    ensures whole { removed.new.whole ≡ removed.old.whole }
    ensures removes { OnOk result (Removes seen.old seen.new removed.old.unfinished
        removed.new.unfinished lits.now
        (λ l. MayOmit aside.entry.reducible aside.entry.pivot l.var)) }
{
    for lit in lits {
        remove_other(aside, *lit, seen, removed)?;
    }
    Ok(())
}

/// Removes the literals of an antecedent, but for those of the pivot and those that are reducible
/// in it.
fn remove_antecedent<S: Side>(
    antecedent: Antecedent,
    seen: &mut SeenLits,
    removed: &mut GrowingLists<Lit>,
) -> Result<(), AllocError>
    ensures whole { removed.new.whole ≡ removed.old.whole }
    ensures removes { OnOk result (Removes seen.old seen.new removed.old.unfinished
        removed.new.unfinished antecedent.entry.lits.now
        (MayLeave S.side antecedent.entry.prefix.now antecedent.entry.pivot
        antecedent.entry.lits.now)) }
{
    let aside = Aside {
        reducible: Some(reducible_in(antecedent.prefix, S::REDUCED, antecedent.lits)),
        pivot: antecedent.pivot,
    };
    remove_others(aside, antecedent.lits, seen, removed)
}

/// Removes the literals of all lists that a step comes from, but for those of the pivot, and those
/// that are reducible in their list.
pub(crate) fn remove_all<S: Side>(
    prefix: &Prefix,
    origin: Origin,
    seen: &mut SeenLits,
    removed: &mut GrowingLists<Lit>,
) -> Result<(), AllocError>
    ensures whole { removed.new.whole ≡ removed.old.whole }
    ensures removes { OnOk result (RemovesAll S.side prefix.now seen.old seen.new
        removed.old.unfinished removed.new.unfinished origin.entry) }
{
    match origin {
        Origin::Initial(from) => {
            let aside = Aside {
                reducible: None,
                pivot: None,
            };
            remove_others(aside, from, seen, removed)
        }
        Origin::One(lits) => {
            let antecedent = Antecedent {
                prefix,
                lits,
                pivot: None,
            };
            remove_antecedent::<S>(antecedent, seen, removed)
        }
        Origin::Two(a, b, pivot) => {
            let first = Antecedent {
                prefix,
                lits: a,
                pivot,
            };
            remove_antecedent::<S>(first, seen, removed)?;
            let second = Antecedent {
                prefix,
                lits: b,
                pivot,
            };
            remove_antecedent::<S>(second, seen, removed)
        }
    }
}
