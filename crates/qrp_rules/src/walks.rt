//! Walks over two ordered sets of literals: whether one covers the other, and is a reduct of it.

ghost use Rattle.std.specs.Prelude.{◌≡◌, ◌≤◌, ◌↔◌, ◌⊎◌, IsTrue};
ghost use Rattle.qbf_core.specs.Literal.{Literal};
ghost use Rattle.qbf_core.specs.Members.{◌∈◌};
ghost use Rattle.qbf_core.specs.Rules.{Side, reduced_quantifier};
ghost use Rattle.qbf_core.specs.Sets.{IsOrdered};
ghost use Rattle.qrp_rules.specs.Conditions.{IsFaultOf, reduct_conditions};
ghost use Rattle.qrp_rules.specs.Walks.{Covers, IsRestFrom, MayOmit};

use crate::blocks::{Reducible, is_the_pivot, reducible_in};
use crate::fault::RuleFault;
use qbf_core::{Lit, Prefix, Quantifier, Var};

/// The rest of an ordered list from a variable on.
fn seek(lits: &[Lit], var: Var) -> &[Lit]
    requires { IsOrdered lits.now }
    ensures rest { IsRestFrom lits.now var result.now }
    ensures later { (m : Literal) → m ∈ result.now → var ≤ m.var }
{
    let mut rest = lits;
    while let Some((first, others)) = rest.split_first() {
        if first.var().number() >= var.number() {
            return rest;
        }
        rest = others;
    }
    rest
}

/// Whether an ordered list, with no variable before that of the literal, begins with it.
#[tactic(auto, using(crate::proofs::Cursors::first_is))]
fn starts_with(lits: &[Lit], lit: Lit) -> bool
    requires ordered { IsOrdered lits.now }
    requires later { (m : Literal) → m ∈ lits.now → lit.var ≤ m.var }
    ensures { IsTrue result ↔ lit ∈ lits.now }
{
    match lits.first() {
        Some(first) => *first == lit,
        None => false,
    }
}

/// The rest of an ordered list from the variable of a literal on, and whether the list has the
/// literal.
pub(crate) fn seek_literal(lits: &[Lit], lit: Lit) -> (&[Lit], bool)
    requires { IsOrdered lits.now }
    ensures rest { IsRestFrom lits.now lit.var result.0.now }
    ensures found { IsTrue result.1 ↔ lit ∈ lits.now }
{
    let rest = seek(lits, lit.var());
    (rest, starts_with(rest, lit))
}

/// Whether a literal of the variable may be missing: of the pivot, or one that reduction takes out.
pub fn may_omit(reducible: Option<Reducible>, pivot: Option<u32>, var: Var) -> bool
    ensures { IsTrue result ↔ MayOmit reducible.entry pivot var }
{
    match reducible {
        _ if is_the_pivot(pivot, var) => true,
        Some(reducible) => reducible.has(var),
        None => false,
    }
}

/// Whether each literal of one ordered list is in the other, or may be missing there.
pub(crate) fn is_subset_up_to(
    reducible: Option<Reducible>,
    pivot: Option<u32>,
    from: &[Lit],
    to: &[Lit],
) -> bool
    requires from { IsOrdered from.now }
    requires to { IsOrdered to.now }
    ensures { IsTrue result ↔ Covers reducible.entry pivot from.now to.now }
{
    let mut rest = to;
    for lit in from {
        let (others, kept) = seek_literal(rest, *lit);
        if !kept && !may_omit(reducible, pivot, lit.var()) {
            return false;
        }
        rest = others;
    }
    true
}

/// Why one ordered list is not a reduct of the other, for the side that reduces this quantifier.
pub(crate) fn ordered_reduct_fault_by(
    prefix: &Prefix,
    reduced: Quantifier,
    from: &[Lit],
    to: &[Lit],
) -> Option<RuleFault>
    requires from { IsOrdered from.now }
    requires to { IsOrdered to.now }
    ensures { (side : Side) → reduced ≡ reduced_quantifier side
        → IsFaultOf (reduct_conditions side prefix.now from.now to.now) result }
{
    if !is_subset_up_to(None, None, to, from) {
        return Some(RuleFault::S6);
    }
    // Nothing is left out, so no block matters.
    if from.len() <= to.len() {
        return None;
    }
    if !is_subset_up_to(Some(reducible_in(prefix, reduced, from)), None, from, to) {
        return Some(RuleFault::S7);
    }
    None
}
