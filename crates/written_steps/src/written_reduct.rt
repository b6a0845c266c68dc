//! Reducts as they are written, whatever the order of their literals and how often each is written.
//! One walk decides if they are in the order of their antecedents, else a set of literals.

ghost use Rattle.std.specs.Prelude.{◌⊎◌, IsTrue, IfOk};
ghost use Rattle.qbf_core.specs.Literal.{Literal};
ghost use Rattle.qbf_core.specs.Members.{◌∈◌, ◌⊆◌};
ghost use Rattle.written_steps.specs.Accepted.{IsAcceptedBy, IsFit};
ghost use Rattle.qrp_rules.specs.Conditions.{reduct_conditions};
ghost use Rattle.qrp_rules.specs.Walks.{TakesOut};

use crate::seen::{SeenLits, set_if_clean};
use crate::two_lists::advance_if_equal;
use qbf_core::{Lit, Prefix};
use qrp_rules::{Reducible, Side, reducible_in};
use std::alloc::AllocError;

/// Accepts a list that is another one without some literals that a reduction may take out, in its
/// order.
fn accepts_reduct_as_written(reducible: Reducible, from: &[Lit], to: &[Lit]) -> bool
    ensures within { IsTrue result → to.now ⊆ from.now }
    ensures each { IsTrue result → (l : Literal) → l ∈ from.now
        → (l ∈ to.now) ⊎ TakesOut reducible.entry l.var }
{
    let mut in_to = 0;
    for lit in from {
        let next = advance_if_equal(to, in_to, *lit);
        if next == in_to && !reducible.has(lit.var()) {
            return false;
        }
        in_to = next;
    }
    in_to == to.len()
}

/// Accepts a list that is a clean and bound one without some reducible literals, in its order. It
/// takes no memory.
#[inline(always)]
fn accepts_reduct_in_order<S: Side>(prefix: &Prefix, from: &[Lit], to: &[Lit]) -> bool
    requires { IsFit prefix.now from.now }
    ensures { IsAcceptedBy (reduct_conditions S.side prefix.now from.now to.now) prefix.now to.now
        result }
{
    // If nothing is left out, no block matters.
    if from == to {
        return true;
    }
    // The literals that are left out have the other quantifier, so those that are kept say the
    // block.
    accepts_reduct_as_written(reducible_in(prefix, S::REDUCED, to), from, to)
}

/// Whether each literal of a list is seen to be in another one.
///
/// # Errors
/// If an allocation fails.
fn surely_within(seen: &mut SeenLits, lits: &[Lit], whole: &[Lit]) -> Result<bool, AllocError>
    ensures { IfOk result (λ t. IsTrue t → lits.now ⊆ whole.now) }
{
    seen.set_each(whole)?;
    Ok(lits.iter().all(|lit| seen.contains(*lit)))
}

/// Whether each literal of a list is seen to be in another one, or may be taken out.
///
/// # Errors
/// If an allocation fails.
fn surely_covers(
    seen: &mut SeenLits,
    reducible: Reducible,
    from: &[Lit],
    to: &[Lit],
) -> Result<bool, AllocError>
    ensures { IfOk result (λ t. IsTrue t → (l : Literal) → l ∈ from.now
        → (l ∈ to.now) ⊎ TakesOut reducible.entry l.var) }
{
    if !set_if_clean(seen, to)? {
        return Ok(false);
    }
    Ok(
        from.iter()
            .all(|lit| seen.contains(*lit) || reducible.has(lit.var())),
    )
}

/// As `accepts_reduct`, by a set of literals, for which there is room.
///
/// # Errors
/// If an allocation fails.
#[cold]
#[inline(never)]
fn accepts_reduct_by_set<S: Side>(
    seen: &mut SeenLits,
    prefix: &Prefix,
    from: &[Lit],
    to: &[Lit],
) -> Result<bool, AllocError>
    requires { IsFit prefix.now from.now }
    ensures { IfOk result (IsAcceptedBy (reduct_conditions S.side prefix.now from.now to.now)
        prefix.now to.now) }
{
    if !surely_within(seen, to, from)? {
        return Ok(false);
    }
    // The literals that are left out have the other quantifier, so those that are kept say the
    // block.
    surely_covers(seen, reducible_in(prefix, S::REDUCED, to), from, to)
}

/// Accepts a step that is a reduct of its antecedent, which is clean and bound: as `reduct_fault`,
/// of literals as they are written, whatever their order and how often each is written.
///
/// # Errors
/// If an allocation fails.
#[inline(always)]
pub fn accepts_reduct<S: Side>(
    seen: &mut SeenLits,
    prefix: &Prefix,
    from: &[Lit],
    to: &[Lit],
) -> Result<bool, AllocError>
    requires { IsFit prefix.now from.now }
    ensures { IfOk result (IsAcceptedBy (reduct_conditions S.side prefix.now from.now to.now)
        prefix.now to.now) }
{
    if accepts_reduct_in_order::<S>(prefix, from, to) {
        return Ok(true);
    }
    seen.make_room(prefix)?;
    accepts_reduct_by_set::<S>(seen, prefix, from, to)
}
