//! From a formula of gates and a trace to the strategy of the winner.

ghost use Rattle.std.specs.Prelude.{◌≡◌, ℕ, List, Ok, IfOk, IfSome};
ghost use Rattle.qbf_strategy.specs.Winning as clauses;
ghost use Rattle.qbf_gates.specs.Gates.{IsWellFormed};
ghost use Rattle.qcir.specs.Reading.{read_gates};
ghost use Rattle.qrp_check.specs.Checked.{call_of};
ghost use Rattle.qrp_winner.specs.Strategies.{winner};
ghost use Rattle.gate_verify.specs.Laws.{in_clauses};
ghost use Rattle.gate_strategy.specs.Winning.{IsWinningCircuit};
ghost use Rattle.gate_strategy.specs.Strategies.{IsOfVerdict, IsOfWinner, text_call};

use crate::fault::GateStrategyFault;
use crate::winning::winners_circuit;
use gate_verify::clauses_of;
use qbf_core::Quantifier;
use qbf_text::Source;
use qcir::{Question, read_question};
use qrp_check::Rules;
use qrp_winner::{Strategy, strategy_of};
use std::alloc::{AllocError, Global};

/// The player who wins, by the truth of the formula.
fn winner(truth: bool) -> Quantifier
    ensures { result ≡ winner truth }
{
    if truth {
        Quantifier::Exists
    } else {
        Quantifier::All
    }
}

/// The strategy of the winner of a formula of gates, by that for its clauses.
fn strategy_without_gates(
    alloc: Global,
    question: &Question,
    strategy: Strategy,
) -> Result<Strategy, AllocError>
    requires formed { IsWellFormed question.now.formula }
    requires wins { clauses.IsWinningCircuit (winner strategy.truth)
        (in_clauses question.now.formula) strategy.circuit }
    ensures truth { IfOk result (λ s. s.truth ≡ strategy.truth) }
    ensures wins { IfOk result
        (λ s. IsWinningCircuit (winner s.truth) question.now.formula s.circuit) }
{
    let Strategy { truth, circuit } = strategy;
    let circuit = winners_circuit(alloc, winner(truth), question.existential(), circuit)?;
    Ok(Strategy { truth, circuit })
}

/// The strategy of the winner of a formula of gates that was read, by the trace at a source; and
/// the formula.
fn strategy_for<'a, B: Source>(
    alloc: Global,
    question: Question<'a>,
    trace: &mut B,
    rules: Rules,
) -> Result<(Question<'a>, Strategy), GateStrategyFault>
    requires formed { IsWellFormed question.formula }
    ensures { (text : List ℕ) → read_gates text ≡ Ok question.entry
        → IsOfVerdict rules (text_call text) (call_of B.Source trace.old trace.new) result }
{
    let formula = clauses_of(alloc, &question)?;
    let by_clauses = strategy_of(alloc, &formula, trace, rules)?;
    let strategy = strategy_without_gates(alloc, &question, by_clauses)?;
    Ok((question, strategy))
}

/// The strategy of the winner of a formula of gates (QCIR-14), by a trace (QRP), both from their
/// bytes; and the formula with its names. The formula is read before the trace.
///
/// For all bytes of a formula of gates and of a trace, if a strategy is returned, its circuit wins:
/// its inputs are the bound variables of the other player, and its outputs those of the winner; any
/// values of the inputs have a run; in each run the output of the formula, computed gate by gate,
/// is true if the trace says `r sat`, and false if it says `r unsat`; and an output is the same in
/// two runs that agree on the inputs of earlier blocks.
///
/// # Errors
/// That of `verify_question`, if nothing is verified. `NoMemory` if an allocation fails after that.
/// `NoCircuit` if AIGER has no numbers for the gates of a circuit that wins the clauses, as of
/// `find_strategy` for these.
pub fn find_gate_strategy<'a, B: Source>(
    alloc: Global,
    text: &'a [u8],
    trace: &mut B,
    rules: Rules,
) -> Result<(Question<'a>, Strategy), GateStrategyFault>
    // The sentence above, if the source tells its bytes.
    ensures headline { IfSome (B.remaining trace.old)
        (λ b. IfOk result (IsOfWinner text.now b)) }
    ensures verdict { IsOfVerdict rules (text_call text.now)
        (call_of B.Source trace.old trace.new) result }
{
    let question = read_question(alloc, text)?;
    strategy_for(alloc, question, trace, rules)
}
