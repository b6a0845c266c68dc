//! Whether the quantifier sets of a trace agree with the prefix of the formula.

ghost use Rattle.std.specs.Prelude.{[], ◌∷◌, IfOk, IfErr, IfNone, IfSome};
ghost use Rattle.qbf_core.specs.Blocks.{pairs_of_block};
ghost use Rattle.trace_check.specs.Passed.{FailsIn, Passes};
ghost use Rattle.trace_check.specs.Sets.{IsSetFault, SetsAgree};

use crate::fault::CheckFault;
use qbf_core::{Prefix, Quantifier, Var};
use qrp_rules::is_bound_by;
use trace_items::KeptSets;

/// The block of a set variable, if the variable agrees with the prefix and the block is no smaller
/// than those named before.
fn next_block(
    prefix: &Prefix,
    quantifier: Quantifier,
    var: Var,
    highest: usize,
) -> Result<usize, CheckFault>
    ensures ok { IfOk result (λ n. Passes prefix.now highest ((quantifier, var) ∷ []) n) }
    ensures err { IfErr result
        (λ fault. FailsIn prefix.now highest ((quantifier, var) ∷ []) fault) }
{
    if !prefix.is_bound(var) {
        return Err(CheckFault::C1(var));
    }
    if !is_bound_by(prefix, quantifier, var) {
        return Err(CheckFault::C2(var));
    }
    match prefix.block(var) {
        Some(block) => {
            if block < highest {
                return Err(CheckFault::C3(var));
            }
            Ok(block)
        }
        // The variable is bound, so this is not met.
        None => Err(CheckFault::C1(var)),
    }
}

/// The greatest block after a set with this quantifier and these variables.
fn set_block(
    prefix: &Prefix,
    quantifier: Quantifier,
    vars: &[Var],
    highest: usize,
) -> Result<usize, CheckFault>
    ensures ok { IfOk result (λ n. Passes prefix.now highest
        (pairs_of_block (record { quantifier = quantifier; vars = vars.now })) n) }
    ensures err { IfErr result (λ fault. FailsIn prefix.now highest
        (pairs_of_block (record { quantifier = quantifier; vars = vars.now })) fault) }
{
    let mut reached = highest;
    for var in vars {
        match next_block(prefix, quantifier, *var, reached) {
            Ok(block) => reached = block,
            Err(fault) => return Err(fault),
        }
    }
    Ok(reached)
}

/// Why the sets of a trace do not agree with a prefix, or `None` if they do.
///
/// They agree if each variable that they name is bound by the prefix, with that quantifier, and its
/// block is no smaller than that of any variable named before it. The result is about the first
/// variable in file order that fails, and is the first of `C1`, `C2` and `C3` that fits it.
pub(crate) fn sets_fault<Q: KeptSets>(prefix: &Prefix, sets: &Q) -> Option<CheckFault>
    ensures none { IfNone result (SetsAgree prefix.now (Q.sets sets.now)) }
    ensures some { IfSome result (λ fault. IsSetFault prefix.now (Q.sets sets.now) fault) }
{
    let mut highest = 0;
    for place in 0..sets.len() {
        let (quantifier, vars) = sets.get(place);
        match set_block(prefix, quantifier, vars, highest) {
            Ok(block) => highest = block,
            Err(fault) => return Some(fault),
        }
    }
    None
}
