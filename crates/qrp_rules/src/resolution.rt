//! A step of resolution: its lists, the variables on which it may resolve, and what may be left out
//! of its antecedents.

ghost use Rattle.std.specs.Prelude.{◌↔◌, IsTrue, List, Some};
ghost use Rattle.qbf_core.specs.Literal.{Literal};
ghost use Rattle.qbf_core.specs.Rules.{Clashes};
ghost use Rattle.qrp_rules.specs.Conditions.{AllowsPivot};
ghost use Rattle.qrp_rules.specs.Walks.{Accounts, Covers};

use crate::blocks::{Reducible, innermost_reach, is_bound_by, reach_if};
use crate::rules::Rules;
use crate::side::Side;
use qbf_core::{Lit, Prefix, Var};

/// A step of resolution: the literals of two antecedents, and those that are to follow from them.
#[derive(Clone, Copy)]
pub struct Resolution<'a> {
    /// The literals of the first antecedent.
    pub a: &'a [Lit],
    /// The literals of the second antecedent.
    pub b: &'a [Lit],
    /// The literals of the step.
    pub to: &'a [Lit],
}

/// Whether a step may resolve on the variable.
pub fn is_pivot<S: Side>(prefix: &Prefix, pivot: Var, rules: Rules) -> bool
    ensures { IsTrue result ↔ AllowsPivot rules S.side prefix.now pivot }
{
    rules.any_pivot || is_bound_by(prefix, S::DECIDING, pivot)
}

/// The literals that may be left out of each of two antecedents that clash in the pivot: those that
/// are reducible in the resolvent or in that antecedent.
///
/// Each has a block after the innermost block of the deciding quantifier in the resolvent, or after
/// that in the antecedent: after the outer one of these. A literal that both hold is left out if it
/// may be left out of both.
pub fn reducible_in_parents<'a, S: Side>(
    prefix: &'a Prefix,
    a: &[Lit],
    b: &[Lit],
    pivot: Var,
) -> (Reducible<'a>, Reducible<'a>)
    requires { Clashes a.now b.now pivot }
    ensures { (to : List Literal) → Accounts S.side prefix.now a.now b.now to pivot
        ↔ (Covers (Some result.0) (Some pivot) a.now to
        × Covers (Some result.1) (Some pivot) b.now to) }
{
    let reduced = S::REDUCED;
    let deciding = S::DECIDING;
    let number = Some(pivot.number());
    let beside_a = innermost_reach(prefix, deciding, number, a);
    let beside_b = innermost_reach(prefix, deciding, number, b);
    let of_pivot = reach_if(prefix, deciding, None, pivot);
    let whole = beside_a.max(beside_b);
    let in_a = Reducible {
        prefix,
        quantifier: reduced,
        reach: whole.min(beside_a.max(of_pivot)),
    };
    let in_b = Reducible {
        prefix,
        quantifier: reduced,
        reach: whole.min(beside_b.max(of_pivot)),
    };
    (in_a, in_b)
}
