//! From a formula and a trace to the strategy of the winner.

ghost use Rattle.std.specs.Prelude.{◌≡◌, ◌≤◌, ◌+◌, ◌⊎◌, List, IfErr, IfOk, IfSome, length};
ghost use Rattle.std.specs.Result.{IsErrOf};
ghost use Rattle.qbf_core.specs.Blocks.{Block, pairs, variables};
ghost use Rattle.qbf_core.specs.Rules.{reduced_quantifier};
ghost use Rattle.qbf_strategy.specs.Winning.{IsWinningCircuit};
ghost use Rattle.qrp_check.specs.Checked.{call_of};
ghost use Rattle.core_walk.specs.Core.{ListsCore};
ghost use Rattle.trace_check.specs.Proof.{Proves, side_of};
ghost use Rattle.qrp_rules.specs.declared.rules.Rules.{Rules};
ghost use Rattle.proof_decisions.specs.Sizes.{core_size};
ghost use Rattle.qrp_winner.specs.Strategies.{IsOfVerdict, IsOfWinner, IsStrategyOf};
ghost use Rattle.qrp_winner.specs.declared.fault.StrategyFault.TheVariants.{NoCircuit, NoMemory};

use crate::fault::StrategyFault;
use aiger::{Circuit, GateFault};
use proof_decisions::{CheckedProof, decisions_of};
use qbf_core::{Formula, Quantifier};
use qbf_strategy::circuit_of;
use qbf_text::Source;
use qdimacs::read_formula;
use qrp_check::{Fault, Rules, Verified, find_proof_of};
use std::alloc::Global;
use trace_items::{CompactTrace, Outcome};

/// The strategy of the player who wins a formula.
#[derive(Drop)]
pub struct Strategy {
    /// The truth of the formula. The existential player wins a true one, and the universal player a
    /// false one.
    pub truth: bool,
    /// The circuit of the strategy: its inputs are the other player's variables, and its outputs
    /// those of the winner, in the order of the prefix, each named by its variable.
    pub circuit: Circuit,
}

/// The player who wins, by the outcome of a proof.
fn winner(outcome: Outcome) -> Quantifier
    ensures { result ≡ reduced_quantifier (side_of outcome) }
{
    match outcome {
        Outcome::Unsat => Quantifier::All,
        Outcome::Sat => Quantifier::Exists,
    }
}

/// The circuit by which the winner wins, from a proof.
fn circuit_for(
    alloc: Global,
    formula: &Formula,
    whole: &CompactTrace,
    verified: &Verified,
) -> Result<Circuit, StrategyFault>
    requires proves { (rules : Rules)
        × Proves rules formula.now whole.now.sets whole.now.steps whole.now.result }
    requires core { ListsCore whole.now.steps verified.now.core.items }
    ensures wins { IfOk result (λ c.
        IsWinningCircuit (reduced_quantifier (side_of whole.now.result)) formula.now c) }
    ensures refused { IfErr result (λ e. (e ≡ NoMemory) ⊎ (e ≡ NoCircuit)) }
    ensures long { IsErrOf result StrategyFault.NoCircuit → 2147483647
        ≤ length (variables (pairs formula.now.blocks))
        + core_size (side_of whole.now.result) formula.now whole.now.steps verified.now.core.items }
{
    let outcome = whole.result();
    let proof = CheckedProof {
        formula,
        trace: whole,
    };
    let decisions = decisions_of(alloc, proof, outcome, &verified.core)?;
    match circuit_of(alloc, formula.prefix(), winner(outcome), &decisions) {
        Ok(circuit) => Ok(circuit),
        Err(GateFault::NoMemory) => Err(StrategyFault::NoMemory),
        Err(GateFault::TooLong) => Err(StrategyFault::NoCircuit),
    }
}

/// The strategy of the winner of a formula that was read, by the trace at a source.
///
/// # Errors
/// As of `find_strategy`, but for the formula's.
pub fn strategy_of<B: Source>(
    alloc: Global,
    formula: &Formula,
    trace: &mut B,
    rules: Rules,
) -> Result<Strategy, StrategyFault>
    ensures { IsStrategyOf rules formula.now (call_of B.Source trace.old trace.new) result }
{
    let (whole, verified) = match find_proof_of(alloc, formula, trace, rules) {
        Ok(proof) => proof,
        Err(fault) => return Err(StrategyFault::Check(fault)),
    };
    match circuit_for(alloc, formula, &whole, &verified) {
        Ok(circuit) => Ok(Strategy {
            truth: verified.truth,
            circuit,
        }),
        Err(fault) => Err(fault),
    }
}

/// The strategy of the winner of a formula (QDIMACS 1.1), by a trace (QRP), both from their bytes.
/// The formula is read before the trace.
///
/// For all formula and trace bytes, if a strategy is returned, its circuit wins: any values of the
/// inputs have a run; in each run the matrix holds if the trace says `r sat`, and fails if it says
/// `r unsat`; and an output is the same in two runs that agree on the inputs of earlier blocks.
///
/// # Errors
/// That of `verify`, if nothing is verified. `NoMemory` if an allocation fails after that.
/// `NoCircuit` if AIGER has no numbers for the gates. This cannot be if the variables and the sizes
/// of the steps that the proof needs come to less than 2147483647. The size of a step is one, and
/// for each literal of its antecedents one and one for each of its own literals. For an initial
/// clause the literals of the longest clause of the formula are counted in place of those of
/// antecedents, and for an initial cube its own.
pub fn find_strategy<A: Source, B: Source>(
    alloc: Global,
    formula: &mut A,
    trace: &mut B,
    rules: Rules,
) -> Result<Strategy, StrategyFault>
    // The sentence above, if both sources tell their bytes.
    ensures headline { IfSome (A.remaining formula.old)
        (λ a. IfSome (B.remaining trace.old) (λ b. IfOk result (IsOfWinner a b))) }
    ensures verdict { IsOfVerdict rules (call_of A.Source formula.old formula.new)
        (call_of B.Source trace.old trace.new) result }
{
    match read_formula(alloc, formula) {
        Ok(read) => strategy_of(alloc, &read, trace, rules),
        Err((fault, line)) => Err(StrategyFault::Check(Fault::Formula(fault, line))),
    }
}
