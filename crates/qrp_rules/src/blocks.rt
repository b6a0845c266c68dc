//! The blocks of literals: the innermost of some, and what a reduction may take out.

ghost use Rattle.std.specs.Prelude.{◌≡◌, ◌≤◌, ◌↔◌, ℕ, IsTrue};
ghost use Rattle.qbf_core.specs.Literal.{Literal};
ghost use Rattle.qbf_core.specs.Blocks.{Binds};
ghost use Rattle.qbf_core.specs.Rules.{Side, IsReducible, deciding_quantifier, reduced_quantifier};
ghost use Rattle.qrp_rules.specs.Walks.{IsHeldBefore, IsInnermost, IsThePivot, TakesOut};

use qbf_core::{Lit, Prefix, Quantifier, Var};

/// Whether a variable is the pivot, if the number of a pivot is given.
pub(crate) fn is_the_pivot(pivot: Option<u32>, var: Var) -> bool
    ensures { IsTrue result ↔ IsThePivot pivot var }
{
    match pivot {
        Some(number) => var.number() == number,
        None => false,
    }
}

/// Whether a prefix binds the variable by this quantifier.
#[inline(always)]
pub fn is_bound_by(prefix: &Prefix, quantifier: Quantifier, var: Var) -> bool
    ensures { IsTrue result ↔ Binds prefix.now quantifier var }
{
    prefix.quantifier(var) == Some(quantifier)
}

/// How many blocks reach to that of a variable, if it has the quantifier and is not the pivot, else
/// 0.
#[inline(always)]
pub(crate) fn reach_if(
    prefix: &Prefix,
    quantifier: Quantifier,
    pivot: Option<u32>,
    var: Var,
) -> usize
    ensures { (k : ℕ) → result ≤ k ↔ IsHeldBefore prefix.now quantifier pivot var k }
{
    if is_the_pivot(pivot, var) {
        return 0;
    }
    prefix.reach(quantifier, var)
}

/// How many blocks reach to the innermost one of the literals that have the quantifier and are not
/// of the pivot.
#[inline(always)]
pub(crate) fn innermost_reach(
    prefix: &Prefix,
    quantifier: Quantifier,
    pivot: Option<u32>,
    lits: &[Lit],
) -> usize
    ensures { IsInnermost prefix.now quantifier pivot lits.now result }
{
    let mut found = 0usize;
    for lit in lits {
        // No branch, since which of two blocks is the inner one cannot be predicted.
        found = found.max(reach_if(prefix, quantifier, pivot, lit.var()));
    }
    found
}

/// The literals that a reduction may take out: those of a quantifier whose blocks come after so
/// many blocks of a prefix.
#[derive(Clone, Copy)]
pub struct Reducible<'a> {
    /// The prefix.
    pub prefix: &'a Prefix,
    /// The quantifier.
    pub quantifier: Quantifier,
    /// How many blocks stand before theirs.
    pub reach: usize,
}

impl<'a> Reducible<'a> {
    /// Whether literals of the variable are among them.
    #[inline(always)]
    pub fn has(self, var: Var) -> bool
        ensures { IsTrue result ↔ TakesOut self.entry var }
    {
        self.prefix.reach(self.quantifier, var) > self.reach
    }
}

/// The quantifier that is not this one.
fn other_quantifier(quantifier: Quantifier) -> Quantifier
    ensures { (side : Side) → quantifier ≡ reduced_quantifier side
        → result ≡ deciding_quantifier side }
{
    match quantifier {
        Quantifier::All => Quantifier::Exists,
        Quantifier::Exists => Quantifier::All,
    }
}

/// The literals that may be taken out of a list, for the side that reduces this quantifier.
#[inline(always)]
pub fn reducible_in<'a>(prefix: &'a Prefix, reduced: Quantifier, lits: &[Lit]) -> Reducible<'a>
    ensures { (side : Side) → reduced ≡ reduced_quantifier side → (l : Literal)
        → TakesOut result l.var ↔ IsReducible side prefix.now lits.now l }
{
    Reducible {
        prefix,
        quantifier: reduced,
        reach: innermost_reach(prefix, other_quantifier(reduced), None, lits),
    }
}
