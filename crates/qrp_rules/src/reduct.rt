//! Whether a set is a reduct of another.

ghost use Rattle.std.specs.Prelude.{◌↔◌, IsTrue};
ghost use Rattle.qbf_core.specs.Blocks.{AreBound};
ghost use Rattle.qbf_core.specs.Rules.{IsReduct};
ghost use Rattle.qbf_core.specs.Sets.{IsOrdered};
ghost use Rattle.qrp_rules.specs.Conditions.{IsFaultOf, reduct_conditions};

use crate::fault::RuleFault;
use crate::side::Side;
use crate::walks::ordered_reduct_fault_by;
use qbf_core::{Lit, LitSet, Prefix};

/// Why an ordered list is not a reduct of another, or `None` if it is one: as `reduct_fault`, of
/// literals in the order of their variables, no variable twice. It takes no memory.
pub fn ordered_reduct_fault<S: Side>(prefix: &Prefix, from: &[Lit], to: &[Lit]) -> Option<RuleFault>
    requires from { IsOrdered from.now }
    requires to { IsOrdered to.now }
    ensures { IsFaultOf (reduct_conditions S.side prefix.now from.now to.now) result }
{
    ordered_reduct_fault_by(prefix, S::REDUCED, from, to)
}

/// Why a set is not a reduct of another, or `None` if it is one. Both are over this prefix.
///
/// `to` is a reduct of `from` if it holds nothing else, and each literal that is left out has the
/// reduced quantifier and a block after that of every literal of `from` with the deciding
/// quantifier: universal reduction on clauses, and its dual on cubes. The results are `S6` if a
/// literal of `to` is not in `from`, else `S7` if a literal that is left out is not reducible. It
/// takes no memory.
pub fn reduct_fault<S: Side>(prefix: &Prefix, from: &LitSet, to: &LitSet) -> Option<RuleFault>
    requires from { AreBound prefix.now from.now }
    requires to { AreBound prefix.now to.now }
    ensures { IsFaultOf (reduct_conditions S.side prefix.now from.now to.now) result }
{
    ordered_reduct_fault::<S>(prefix, from.as_slice(), to.as_slice())
}

/// Whether a set is a reduct of another, as `reduct_fault` says. Both are over this prefix. It
/// takes no memory.
pub fn is_reduct<S: Side>(prefix: &Prefix, from: &LitSet, to: &LitSet) -> bool
    requires from { AreBound prefix.now from.now }
    requires to { AreBound prefix.now to.now }
    ensures { IsTrue result ↔ IsReduct S.side prefix.now from.now to.now }
{
    reduct_fault::<S>(prefix, from, to).is_none()
}
