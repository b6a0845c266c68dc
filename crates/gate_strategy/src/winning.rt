//! The winner's circuit of a formula of gates.

ghost use Rattle.std.specs.Prelude.{◌≡◌, ℕ, length, IfOk};
ghost use Rattle.qbf_core.specs.declared.quantifier.Quantifier.TheVariants.{Exists};
ghost use Rattle.qbf_core.specs.Blocks.{pairs};
ghost use Rattle.aiger.specs.Circuits.{IsOrdered};
ghost use Rattle.qbf_strategy.specs.Winning.{variables_of};
ghost use Rattle.qbf_gates.specs.Gates.{IsWellFormed, GateFormula};
ghost use Rattle.gate_clauses.specs.Encoding.{encoding};
ghost use Rattle.gate_strategy.specs.Winning.{IsWinningCircuit};
ghost use Rattle.qbf_strategy.specs.Winning as clauses;

use aiger::{Circuit, trimmed, with_inputs};
use qbf_core::Quantifier;
use std::alloc::{AllocError, Global};

/// A circuit by which a player wins the formula in clauses of a formula of gates, without the gates:
/// the existential player's outputs of gates are cut off, and the universal player's inputs of
/// gates are always false. `existential` is the number of the formula's existential variables.
fn without_gates(mine: Quantifier, existential: usize, mut circuit: Circuit) -> Circuit
    ensures ordered { IsOrdered circuit → IsOrdered result }
    ensures wins { (q : GateFormula) (top : ℕ) → IsWellFormed q
        → existential ≡ length (variables_of Exists (pairs q.blocks))
        → clauses.IsWinningCircuit mine (encoding top q) circuit
        → IsWinningCircuit mine q result }
{
    match mine {
        Quantifier::Exists => {
            circuit.outputs.truncate(existential);
            circuit
        }
        Quantifier::All if existential <= circuit.inputs.len() => with_inputs(existential, circuit),
        Quantifier::All => circuit,
    }
}

/// The winner's circuit of a formula of gates, by that of its formula in clauses: without the
/// gates' outputs and inputs, and without what no output needs.
///
/// # Errors
/// If an allocation fails.
pub fn winners_circuit(
    alloc: Global,
    mine: Quantifier,
    existential: usize,
    circuit: Circuit,
) -> Result<Circuit, AllocError>
    requires { IsOrdered circuit }
    ensures { IfOk result (λ c. (q : GateFormula) (top : ℕ) → IsWellFormed q
        → existential ≡ length (variables_of Exists (pairs q.blocks))
        → clauses.IsWinningCircuit mine (encoding top q) circuit
        → IsWinningCircuit mine q c) }
{
    trimmed(alloc, without_gates(mine, existential, circuit))
}
