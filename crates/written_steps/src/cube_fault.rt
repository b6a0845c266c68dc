//! Why a set is not an initial cube, in time that is linear in the clauses.

ghost use Rattle.std.specs.Prelude.{◌↔◌, [], ◌∷◌, IsTrue, IfOk};
ghost use Rattle.qbf_core.specs.Literal.{Literal};
ghost use Rattle.qbf_core.specs.Members.{◌∈◌};
ghost use Rattle.qbf_core.specs.Rules.{Cubes, IsTautology};
ghost use Rattle.qbf_core.specs.Sets.{IsOrdered};
ghost use Rattle.qrp_rules.specs.Conditions.{IsFaultOf, initial_condition};

use crate::seen::{SeenLits, find_negated, surely_clean};
use qbf_core::{Formula, Lit, Prefix};
use qrp_rules::{RuleFault, has_clash, has_common_literal};
use std::alloc::AllocError;

/// Whether a clause as written holds a variable with both signs, in linear time. The set is used
/// for the clause, if this is not in order.
///
/// # Errors
/// If an allocation fails.
pub(crate) fn is_tautology(
    seen: &mut SeenLits,
    prefix: &Prefix,
    clause: &[Lit],
) -> Result<bool, AllocError>
    ensures { IfOk result (λ t. IsTrue t ↔ IsTautology clause.now) }
{
    if surely_clean(seen, prefix, clause)? {
        return Ok(false);
    }
    seen.set_each(clause)?;
    match find_negated(seen, clause) {
        Some(_) => Ok(true),
        None => Ok(has_clash(clause)),
    }
}

/// Why the set is not an initial cube: `S5`, or `None` if it is one.
///
/// # Errors
/// If an allocation fails.
pub(crate) fn find_cube_fault(
    seen: &mut SeenLits,
    formula: &Formula,
    set: &[Lit],
) -> Result<Option<RuleFault>, AllocError>
    requires { IsOrdered set.now }
    ensures { IfOk result
        (λ fault. IsFaultOf (initial_condition Cubes formula.now set.now ∷ []) fault) }
{
    for place in 0..formula.clauses() {
        let clause = formula.clause(place);
        if has_common_literal(clause, set) {
            continue;
        }
        if !is_tautology(seen, formula.prefix(), clause)? {
            return Ok(Some(RuleFault::S5));
        }
    }
    Ok(None)
}
