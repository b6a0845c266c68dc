//! Resolvents as they are written, whatever the order of their literals and how often each is
//! written: a walk or a set of literals finds the pivot and the rests of the antecedents, and a set
//! decides whether these may be left out.

ghost use Rattle.std.specs.Prelude.{◌≡◌, ◌≢◌, ◌<◌, ◌⊎◌, ◌↔◌, IsTrue, IfOk, IfSome, List};
ghost use Rattle.qbf_core.specs.Literal.{Literal};
ghost use Rattle.qbf_core.specs.Members.{◌∈◌};
ghost use Rattle.qbf_core.specs.Rules.{IsClean};
ghost use Rattle.qbf_core.specs.Sets.{IsOrdered};
ghost use Rattle.qrp_rules.specs.declared.rules.Rules.{Rules};
ghost use Rattle.written_steps.specs.Accepted.{IsAcceptedBy, IsFit};
ghost use Rattle.qrp_rules.specs.Conditions.{AllHold, AllowsPivot, resolvent_conditions};
ghost use Rattle.written_steps.specs.TwoLists.{IsApart, IsPutBy, IsResolvedBut};
ghost use Rattle.written_steps.specs.Seen.{Has};
ghost use Rattle.qrp_rules.specs.Walks.{TakesOut};

use crate::seen::{SeenLits, find_negated, put_each, set_if_clean};
use crate::two_lists::{Rests, find_rests};
use qbf_core::{Lit, Prefix, Var};
use qrp_rules::{Reducible, Resolution, Rules, Side, is_pivot, reducible_in, reducible_in_parents};
use std::alloc::AllocError;

/// Whether each literal is seen to have another variable.
fn surely_apart(lits: &[Lit], var: Var) -> bool
    ensures { IsTrue result → IsApart lits.now var }
{
    lits.iter().all(|lit| lit.var().number() != var.number())
}

/// Puts a literal into a set, unless it is one of the pivot. `false` if its negation is there, or
/// if it is not there and may not be left out.
///
/// # Errors
/// If an allocation fails.
fn put_left_out(
    seen: &mut SeenLits,
    reducible: Reducible,
    pivot: Var,
    lit: Lit,
) -> Result<bool, AllocError>
    ensures put { IsPutBy seen.old seen.new (λ l. TakesOut reducible.entry l.var) }
    ensures has { IfOk result (λ t. IsTrue t → (lit.var ≡ pivot) ⊎ Has seen.new lit) }
{
    if lit.var().number() == pivot.number() {
        return Ok(true);
    }
    if seen.contains(lit) {
        return Ok(true);
    }
    if seen.contains(lit.negated()) {
        return Ok(false);
    }
    if !reducible.has(lit.var()) {
        return Ok(false);
    }
    seen.put(lit)?;
    Ok(true)
}

/// As `put_left_out`, for each literal of a list.
fn put_each_left_out(
    seen: &mut SeenLits,
    reducible: Reducible,
    pivot: Var,
    lits: &[Lit],
) -> Result<bool, AllocError>
    ensures put { IsPutBy seen.old seen.new (λ l. TakesOut reducible.entry l.var) }
    ensures each { IfOk result (λ t. IsTrue t → (l : Literal) → l ∈ lits.now
        → (l.var ≡ pivot) ⊎ Has seen.new l) }
{
    for lit in lits {
        if !put_left_out(seen, reducible, pivot, *lit)? {
            return Ok(false);
        }
    }
    Ok(true)
}

/// Whether each literal of a list is seen to be one of the pivot or in a set.
fn surely_has_each_but(seen: &SeenLits, lits: &[Lit], pivot: Var) -> bool
    ensures { IsTrue result → (l : Literal) → l ∈ lits.now → (l.var ≡ pivot) ⊎ Has seen.now l }
{
    lits.iter().all(|lit| lit.var().number() == pivot.number() || seen.contains(*lit))
}

/// Whether the rests of two lists may be left out of their resolvent.
///
/// # Errors
/// If an allocation fails.
fn leaves_out_rests<S: Side>(
    seen: &mut SeenLits,
    prefix: &Prefix,
    to: &[Lit],
    rests: Rests,
) -> Result<bool, AllocError>
    ensures { IfOk result (λ t. IsTrue t → (rules : Rules) (a b : List Literal)
        → IsResolvedBut a b to.now rests.entry.a.now rests.entry.b.now rests.entry.pivot
        → AllowsPivot rules S.side prefix.now rests.entry.pivot.var
        → AllHold (resolvent_conditions rules S.side prefix.now a b to.now)) }
{
    let pivot = rests.pivot.var();
    if !surely_apart(to, pivot) {
        return Ok(false);
    }
    if !set_if_clean(seen, to)? {
        return Ok(false);
    }
    // If nothing is left out, no block matters.
    if surely_has_each_but(seen, rests.a, pivot) && surely_has_each_but(seen, rests.b, pivot) {
        return Ok(true);
    }
    // The literals that are left out have the other quantifier, so those that are kept say the
    // block.
    let reducible = reducible_in(prefix, S::REDUCED, to);
    if !put_each_left_out(seen, reducible, pivot, rests.a)? {
        return Ok(false);
    }
    put_each_left_out(seen, reducible, pivot, rests.b)
}

/// Whether each literal of a list is seen to be one of the pivot, in a set, or one that may be left
/// out.
fn surely_covers_but(seen: &SeenLits, reducible: Reducible, pivot: Var, lits: &[Lit]) -> bool
    ensures { IsTrue result → (l : Literal) → l ∈ lits.now
        → (l.var ≡ pivot) ⊎ (Has seen.now l ⊎ TakesOut reducible.entry l.var) }
{
    lits.iter().all(|lit| {
        lit.var().number() == pivot.number() || seen.contains(*lit) || reducible.has(lit.var())
    })
}

/// As `leaves_out_rests`, for literals that may be left out of the antecedents before these are
/// resolved.
///
/// # Errors
/// If an allocation fails.
#[cold]
fn leaves_out_of_parents<S: Side>(
    seen: &mut SeenLits,
    prefix: &Prefix,
    step: Resolution,
    rests: Rests,
) -> Result<bool, AllocError>
    requires { IsResolvedBut step.a.now step.b.now step.to.now rests.a.now rests.b.now
        rests.pivot }
    ensures { IfOk result (λ t. IsTrue t → (rules : Rules)
        → AllowsPivot rules S.side prefix.now rests.entry.pivot.var
        → AllHold (resolvent_conditions rules S.side prefix.now step.entry.a.now step.entry.b.now
        step.entry.to.now)) }
{
    let pivot = rests.pivot.var();
    if !surely_apart(step.to, pivot) {
        return Ok(false);
    }
    if !set_if_clean(seen, step.to)? {
        return Ok(false);
    }
    let (in_a, in_b) = reducible_in_parents::<S>(prefix, step.a, step.b, pivot);
    // The literals that the first one leaves out are put in. The second one is tested before that,
    // since it may not lack them for this reason.
    if !surely_covers_but(seen, in_b, pivot, rests.b) {
        return Ok(false);
    }
    if !put_each_left_out(seen, in_a, pivot, rests.a)? {
        return Ok(false);
    }
    put_each_left_out(seen, in_b, pivot, rests.b)
}

/// Two lists, whatever their order, and a literal of one whose negation is in the other, if a third
/// list has no other literals. `None` if that is not seen.
///
/// # Errors
/// If an allocation fails.
fn find_parents<'a>(
    seen: &mut SeenLits,
    a: &'a [Lit],
    b: &'a [Lit],
    to: &[Lit],
) -> Result<Option<Rests<'a>>, AllocError>
    ensures { IfOk result (λ found. IfSome found (λ rests. IsResolvedBut a.now b.now to.now
        rests.a.now rests.b.now rests.pivot)) }
{
    seen.set_each(a)?;
    let Some(opposite) = find_negated(seen, b) else {
        return Ok(None);
    };
    let pivot = opposite.negated();
    put_each(seen, b)?;
    if !surely_has_each_but(seen, to, pivot.var()) {
        return Ok(None);
    }
    Ok(Some(Rests { pivot, a, b }))
}

/// Whether a number comes after another one, and is not a third.
#[inline(always)]
fn is_later_but(last: u32, number: u32, other: u32) -> bool
    ensures { IsTrue result ↔ ((last < number) × (number ≢ other)) }
{
    (last < number) & (number != other)
}

/// Whether literals stand in the order of their variables, and none has this variable. It looks at
/// each of them in any case, so that several are compared at once.
fn surely_ordered_without(lits: &[Lit], var: Var) -> bool
    ensures ordered { IsTrue result → IsOrdered lits.now }
    ensures apart { IsTrue result → IsApart lits.now var }
{
    let mut last = 0;
    let mut fits = true;
    for lit in lits {
        let number = lit.var().number();
        fits = fits & is_later_but(last, number, var.number());
        last = number;
    }
    fits
}

/// Whether literals are seen to be clean, and none to have this variable.
fn surely_clean_without(
    seen: &mut SeenLits,
    prefix: &Prefix,
    lits: &[Lit],
    var: Var,
) -> Result<bool, AllocError>
    ensures { IfOk result (λ t. IsTrue t → IsClean lits.now × IsApart lits.now var) }
{
    if surely_ordered_without(lits, var) {
        return Ok(true);
    }
    seen.make_room(prefix)?;
    Ok(seen.surely_distinct(lits, var))
}

/// Whether the rests of its antecedents show that a step follows, if the pivot is allowed.
#[inline(always)]
fn follows_by_rests<S: Side>(
    seen: &mut SeenLits,
    prefix: &Prefix,
    step: Resolution,
    rests: Rests,
) -> Result<bool, AllocError>
    requires { IsResolvedBut step.a.now step.b.now step.to.now rests.a.now rests.b.now
        rests.pivot }
    ensures { IfOk result (λ t. IsTrue t → (rules : Rules)
        → AllowsPivot rules S.side prefix.now rests.entry.pivot.var
        → AllHold (resolvent_conditions rules S.side prefix.now step.entry.a.now step.entry.b.now
        step.entry.to.now)) }
{
    let Rests { pivot, a, b } = rests;
    if a.is_empty() && b.is_empty() {
        if surely_clean_without(seen, prefix, step.to, pivot.var())? {
            return Ok(true);
        }
    }
    seen.make_room(prefix)?;
    if leaves_out_rests::<S>(seen, prefix, step.to, Rests { pivot, a, b })? {
        return Ok(true);
    }
    leaves_out_of_parents::<S>(seen, prefix, step, Rests { pivot, a, b })
}

/// Accepts a step that follows from its antecedents, which are clean and bound, by resolution: as
/// `resolvent_fault`, of literals as they are written.
///
/// Their order does not matter, nor how often each is written. If they are in the order of the
/// antecedents, and nothing is left out, only the pivot is looked up. The literals that were seen
/// are forgotten.
///
/// # Errors
/// If an allocation fails.
#[inline(always)]
pub fn accepts_resolvent<S: Side>(
    seen: &mut SeenLits,
    prefix: &Prefix,
    step: Resolution,
    rules: Rules,
) -> Result<bool, AllocError>
    requires a { IsFit prefix.now step.a.now }
    requires b { IsFit prefix.now step.b.now }
    ensures { IfOk result (IsAcceptedBy (resolvent_conditions rules S.side prefix.now
        step.entry.a.now step.entry.b.now step.entry.to.now) prefix.now step.entry.to.now) }
{
    let Resolution { a, b, to } = step;
    let rests = match find_rests(a, b, to) {
        Some(rests) => rests,
        None => {
            seen.make_room(prefix)?;
            match find_parents(seen, a, b, to) {
                Ok(Some(rests)) => rests,
                Ok(None) => return Ok(false),
                Err(failed) => return Err(failed),
            }
        }
    };
    if !is_pivot::<S>(prefix, rests.pivot.var(), rules) {
        return Ok(false);
    }
    follows_by_rests::<S>(seen, prefix, step, rests)
}
