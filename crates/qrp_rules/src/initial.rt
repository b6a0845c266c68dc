//! Whether a set is an initial clause or an initial cube of a formula.

ghost use Rattle.std.specs.Prelude.{◌↔◌, [], ◌∷◌, IsTrue, IfNone, IfOk, IfSome};
ghost use Rattle.qbf_core.specs.Literal.{Literal};
ghost use Rattle.qbf_core.specs.Members.{◌∈◌};
ghost use Rattle.qbf_core.specs.Blocks.{AreBound};
ghost use Rattle.qbf_core.specs.Rules.{Clauses, Cubes, IsClean, IsReduct, IsTautology};
ghost use Rattle.qbf_core.specs.Sets.{IsOrdered};
ghost use Rattle.qrp_rules.specs.Conditions.{IsFaultOf, initial_condition};
ghost use Rattle.qrp_rules.specs.Reducts.{HasNoReduct, IsReductAt};

use crate::fault::RuleFault;
use crate::walks::ordered_reduct_fault_by;
use crate::written::{is_among, is_ordered};
use qbf_core::{Formula, Lit, LitSet, Prefix, Quantifier, SetFault, is_member};
use std::alloc::{AllocError, Global};

/// Whether a clause in order has the set as a reduct.
fn has_ordered_reduct(prefix: &Prefix, clause: &[Lit], set: &[Lit]) -> bool
    requires clause { IsOrdered clause.now }
    requires set { IsOrdered set.now }
    ensures { IsTrue result ↔ IsReduct Clauses prefix.now clause.now set.now }
{
    ordered_reduct_fault_by(prefix, Quantifier::All, clause, set).is_none()
}

/// Whether a clause as written is clean and has the set as a reduct.
fn has_reduct(
    alloc: Global,
    prefix: &Prefix,
    clause: &[Lit],
    set: &[Lit],
) -> Result<bool, AllocError>
    requires bound { AreBound prefix.now clause.now }
    requires ordered { IsOrdered set.now }
    ensures { IfOk result
        (λ t. IsTrue t ↔ (IsClean clause.now × IsReduct Clauses prefix.now clause.now set.now)) }
{
    // Most clauses miss the first literal already, and are not a set yet.
    if let Some(lit) = set.first() {
        if !is_among(clause, *lit) {
            return Ok(false);
        }
    }
    if is_ordered(clause) {
        return Ok(has_ordered_reduct(prefix, clause, set));
    }
    match LitSet::from_slice(alloc, clause, prefix) {
        Ok(from) => Ok(has_ordered_reduct(prefix, from.as_slice(), set)),
        Err(SetFault::E1) => Ok(false),
        // The clause is bound, so this is not met.
        Err(SetFault::E2) => Ok(false),
        Err(SetFault::E3) => Err(AllocError),
    }
}

/// The position of the first clause that is clean and has the set as a reduct.
pub fn reduced_clause(
    alloc: Global,
    formula: &Formula,
    set: &[Lit],
) -> Result<Option<usize>, AllocError>
    requires { IsOrdered set.now }
    ensures found { IfOk result (λ found. IfSome found (IsReductAt formula.now set.now)) }
    ensures only { IfOk result (λ found. IfNone found (HasNoReduct formula.now set.now)) }
{
    for position in 0..formula.clauses() {
        if has_reduct(alloc, formula.prefix(), formula.clause(position), set)? {
            return Ok(Some(position));
        }
    }
    Ok(None)
}

/// Why the set is not an initial clause, or `None` if it is one.
#[tactic(auto, using(crate::proofs::ReductsByMembers::some_reduct, crate::proofs::ReductsByMembers::no_reduct))]
pub fn initial_clause_fault(
    alloc: Global,
    formula: &Formula,
    set: &[Lit],
) -> Result<Option<RuleFault>, AllocError>
    requires { IsOrdered set.now }
    ensures { IfOk result
        (λ fault. IsFaultOf (initial_condition Clauses formula.now set.now ∷ []) fault) }
{
    if reduced_clause(alloc, formula, set)?.is_some() {
        return Ok(None);
    }
    Ok(Some(RuleFault::S4))
}

/// Whether a clause as written has a literal of the set.
pub fn has_common_literal(clause: &[Lit], set: &[Lit]) -> bool
    requires { IsOrdered set.now }
    ensures { IsTrue result ↔ ((l : Literal) × (l ∈ clause.now) × (l ∈ set.now)) }
{
    clause.iter().any(|lit| is_member(set, *lit))
}

/// Whether a clause as written holds a variable with both signs: if it is not in order, all
/// literals are compared with each other. It takes no memory.
#[cold]
pub fn has_clash(clause: &[Lit]) -> bool
    ensures { IsTrue result ↔ IsTautology clause.now }
{
    if is_ordered(clause) {
        return false;
    }
    clause.iter().any(|lit| is_among(clause, lit.negated()))
}

/// Why the set is not an initial cube. It takes no memory.
pub(crate) fn initial_cube_fault(formula: &Formula, set: &[Lit]) -> Option<RuleFault>
    requires { IsOrdered set.now }
    ensures { IsFaultOf (initial_condition Cubes formula.now set.now ∷ []) result }
{
    for i in 0..formula.clauses() {
        let clause = formula.clause(i);
        if has_common_literal(clause, set) {
            continue;
        }
        if !has_clash(clause) {
            return Some(RuleFault::S5);
        }
    }
    None
}
