//! The clauses of a whole formula of gates.

ghost use Rattle.std.specs.Prelude.{◌≡◌, ◌<◌, ◌++◌, length, nat_eq, IfOk, OnOk};
ghost use Rattle.std.specs.List.{IsDistinct};
ghost use Rattle.std.specs.Result.{IsErrOf};
ghost use Rattle.qbf_core.specs.Blocks.{pairs, variables};
ghost use Rattle.qbf_gates.specs.Gates.{IsWellFormed, names};
ghost use Rattle.gate_clauses.specs.Begun.{greatest};
ghost use Rattle.gate_clauses.specs.Encoding.{encoding};

use crate::encoder::Encoder;
use crate::fault::EncodingFault;
use qbf_core::{Formula, Prefix};
use qbf_gates::GateFormula;
use std::alloc::Global;

/// Binds the variables of a prefix.
fn bind_all(encoder: &mut Encoder, prefix: &Prefix) -> Result<(), EncodingFault>
    ensures bound { OnOk result
        (pairs encoder.new.blocks ≡ pairs encoder.old.blocks ++ pairs prefix.now) }
    ensures clauses { encoder.new.clauses ≡ encoder.old.clauses }
    ensures given { IsErrOf result EncodingFault.Given → IsDistinct nat_eq
        (variables (pairs encoder.old.blocks) ++ variables (pairs prefix.now)) → ⊥ }
    ensures unknown { IsErrOf result EncodingFault.Unknown → ⊥ }
    ensures short { IsErrOf result EncodingFault.TooLong → ⊥ }
{
    for i in 0..prefix.len() {
        let (quantifier, var) = prefix.pair(i);
        encoder.bind(quantifier, var)?;
    }
    Ok(())
}

/// The formula in clauses of a formula of gates: its variables, and after them its gates as
/// existential variables; the clauses of the gates in their order, and one of the output alone. Its
/// header names the greatest variable.
///
/// # Errors
/// `Given` if a name is given twice, `Unknown` if an input or the output is of no name that is
/// given before it, `TooLong` if there are more clauses than QDIMACS can count, and `NoMemory` if
/// an allocation fails.
pub fn formula_in_clauses(alloc: Global, formula: &GateFormula) -> Result<Formula, EncodingFault>
    ensures made { IfOk result (λ f. f ≡ encoding (greatest (names formula.now)) formula.now) }
    ensures given { IsErrOf result EncodingFault.Given → IsWellFormed formula.now → ⊥ }
    ensures unknown { IsErrOf result EncodingFault.Unknown → IsWellFormed formula.now → ⊥ }
    ensures long { IsErrOf result EncodingFault.TooLong → 2147483647
        < length (encoding (greatest (names formula.now)) formula.now).clauses }
{
    let gates = formula.gates();
    let mut encoder = Encoder::new(alloc);
    bind_all(&mut encoder, gates.prefix())?;
    let encoder = encoder.with_gates(gates)?;
    encoder.finish(formula.output())
}
