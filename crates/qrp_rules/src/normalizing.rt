//! Literals as they are written: most steps and clauses are in order already, and need no set of
//! their own.

ghost use Rattle.std.specs.Prelude.{◌≡◌, IfOk, OnOk};
ghost use Rattle.std.specs.Result.{IsErrOf};
ghost use Rattle.qbf_core.specs.Literal.{Literal};
ghost use Rattle.qbf_core.specs.Members.{◌∈◌};
ghost use Rattle.qbf_core.specs.Blocks.{AreBound, IsBound};
ghost use Rattle.qbf_core.specs.Rules.{IsClean, IsTautology};
ghost use Rattle.qbf_core.specs.Sets.{HasMembersOf, IsOrdered};
ghost use Rattle.qrp_rules.specs.Normal.{normal_form};

use crate::written::is_ordered;
use qbf_core::{Lit, LitSet, Prefix, SetFault, are_bound};
use std::alloc::Global;

/// The set of the literals if they are not in order as written, or `None` if they are in order and
/// bound, which takes no memory.
///
/// # Errors
/// As those of `LitSet::from_slice`.
pub fn normalize(alloc: Global, prefix: &Prefix, lits: &[Lit]) -> Result<Option<LitSet>, SetFault>
    ensures ordered { IfOk result (λ set. IsOrdered (normal_form set lits.now)) }
    ensures members { IfOk result (λ set. HasMembersOf (normal_form set lits.now) lits.now) }
    ensures fit { OnOk result (IsClean lits.now × AreBound prefix.now lits.now) }
    ensures clash { IsErrOf result SetFault.E1 → IsTautology lits.now }
    ensures clean { IsErrOf result SetFault.E2 → IsClean lits.now }
    ensures unbound { IsErrOf result SetFault.E2
        → (l : Literal) × (l ∈ lits.now) × (IsBound prefix.now l.var → ⊥) }
{
    if is_ordered(lits) && are_bound(prefix, lits) {
        return Ok(None);
    }
    match LitSet::from_slice(alloc, lits, prefix) {
        Ok(set) => Ok(Some(set)),
        Err(fault) => Err(fault),
    }
}

/// The members of the set, or the literals as written if there is none.
pub fn normal_form<'a>(set: &'a Option<LitSet>, lits: &'a [Lit]) -> &'a [Lit]
    ensures { result.now ≡ normal_form set.now lits.now }
{
    match set {
        Some(set) => set.as_slice(),
        None => lits,
    }
}
