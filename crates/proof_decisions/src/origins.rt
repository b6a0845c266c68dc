//! The lists of literals that a step of a proof comes from.

ghost use Rattle.std.specs.Prelude.{◌≡◌, ◌<◌, ◌∷◌, [], ℕ, None, IfNone, IfOk, IfSome, length, take};
ghost use Rattle.qbf_core.specs.Literal.{Literal, negated};
ghost use Rattle.qbf_core.specs.Members.{◌∈◌};
ghost use Rattle.trace_items.specs.Inferences.{Inference, IsAt};
ghost use Rattle.core_walk.specs.Conditions.{IsNumberOf, StepFollows};
ghost use Rattle.core_walk.specs.Earlier.{StandsEarlier};
ghost use Rattle.written_steps.specs.Accepted.{IsFit};
ghost use Rattle.qrp_rules.specs.Conditions.{AllHold, initial_condition};
ghost use Rattle.qrp_rules.specs.Reducts.{IsReductAt};
ghost use Rattle.written_steps.specs.Seen.{Has};
ghost use Rattle.qrp_rules.specs.declared.rules.Rules.{Rules};
ghost use Rattle.proof_decisions.specs.Removing.{ComesFrom, IsClauseOf, IsInitialOf, IsPivotOf};

use crate::checked_proof::CheckedProof;
use crate::literal_sets::set_all;
use qbf_core::{Formula, Lit, LitBuffer, Quantifier};
use qrp_rules::Side;
use std::alloc::{AllocError, Global};
use trace_items::{Antecedents, KeptSteps};
use written_steps::{InitialClauses, SeenLits};

/// The lists of literals that a step comes from.
#[derive(Clone, Copy)]
pub(crate) enum Origin<'a> {
    /// Of an initial clause, a clause of the formula of which it is a reduct; an initial cube itself.
    Initial(&'a [Lit]),
    /// The only antecedent.
    One(&'a [Lit]),
    /// Two antecedents, and the variable in which they clash.
    Two(&'a [Lit], &'a [Lit], Option<u32>),
}

/// What is kept from one step to the next.
#[derive(Drop)]
pub(crate) struct Search {
    /// A set of literals.
    pub seen: SeenLits,
    /// Where clauses of the formula are found.
    pub clauses: InitialClauses,
}

/// Room for the literals of the lists that a step comes from, for those that the trace cannot lend.
#[derive(Drop)]
pub(crate) struct OriginBuffers {
    pub first: LitBuffer,
    pub second: LitBuffer,
}

impl Search {
    /// Nothing is known of the formula. It takes no memory.
    pub(crate) fn new(alloc: Global) -> Search {
        Search {
            seen: SeenLits::new(alloc),
            clauses: InitialClauses::new(alloc),
        }
    }
}

/// The first variable of a list with a literal whose negation is in a set.
fn find_clash(seen: &SeenLits, lits: &[Lit]) -> Option<u32>
    ensures found { IfSome result (λ v. (l : Literal) × (l ∈ lits.now) × Has seen.now (negated l)
        × (l.var ≡ v)) }
    ensures only { IfNone result ((l : Literal) → l ∈ lits.now → Has seen.now (negated l) → ⊥) }
{
    for lit in lits {
        if seen.contains(lit.negated()) {
            return Some(lit.var().number());
        }
    }
    None
}

/// The first variable in which two lists clash.
fn pivot_of(a: &[Lit], b: &[Lit], seen: &mut SeenLits) -> Result<Option<u32>, AllocError>
    ensures { IfOk result (IsPivotOf a.now b.now) }
{
    set_all(seen, a)?;
    Ok(find_clash(seen, b))
}

/// The position of an earlier step, by its number.
fn earlier<T: KeptSteps>(trace: &T, position: usize, number: u64) -> usize
    requires position { position < length (T.steps trace.now) }
    requires named { IsNumberOf (take position (T.steps trace.now)) number }
    ensures { StandsEarlier (T.steps trace.now) position number result }
{
    match trace.position(number) {
        Some(index) => index,
        // There is such a step.
        None => position,
    }
}

/// A clause of the formula of which an initial clause is a reduct.
#[tactic(auto, using(crate::proofs::FoundOrigins::clause_there))]
fn clause_of<'a>(
    formula: &'a Formula,
    lits: &'a [Lit],
    search: &mut Search,
) -> Result<&'a [Lit], AllocError>
    requires fit { IsFit formula.now.blocks lits.now }
    requires some { (position : ℕ) × IsReductAt formula.now lits.now position }
    ensures { IfOk result (λ from. IsClauseOf formula.now lits.now from.now) }
{
    match search.clauses.find_clause(formula, &mut search.seen, lits)? {
        Some(clause) => Ok(formula.clause(clause)),
        // There is such a clause.
        None => Ok(lits),
    }
}

/// What an initial step comes from.
fn initial_of<'a, S: Side>(
    formula: &'a Formula,
    lits: &'a [Lit],
    search: &mut Search,
) -> Result<&'a [Lit], AllocError>
    requires fit { IsFit formula.now.blocks lits.now }
    requires initial { AllHold (initial_condition S.side formula.now lits.now ∷ []) }
    ensures { IfOk result (λ from. IsInitialOf S.side formula.now lits.now from.now) }
{
    match S::REDUCED {
        Quantifier::All => clause_of(formula, lits, search),
        Quantifier::Exists => Ok(lits),
    }
}

/// What the step at a position comes from.
pub(crate) fn origin_of<'a, S: Side, T: KeptSteps>(
    proof: CheckedProof<'a, T>,
    position: usize,
    search: &mut Search,
    buffers: &'a mut OriginBuffers,
) -> Result<Origin<'a>, AllocError>
    requires position { position < length (T.steps proof.trace.now) }
    requires follows { (by : Rules)
        × StepFollows by S.side proof.formula.now (T.steps proof.trace.now) position }
    ensures { IfOk result (λ origin. (step : Inference)
        → IsAt (T.steps proof.entry.trace.now) position step
        → ComesFrom S.side proof.entry.formula.now (take position (T.steps proof.entry.trace.now))
        step.ants step.lits origin) }
{
    let CheckedProof { formula, trace } = proof;
    match trace.antecedents(position) {
        Antecedents::Empty => {
            let lits = trace.unpacked(position, &mut buffers.first)?;
            let from = initial_of::<S>(formula, lits, search)?;
            Ok(Origin::Initial(from))
        }
        Antecedents::One(only) => {
            let from = earlier(trace, position, only);
            let lits = trace.unpacked(from, &mut buffers.first)?;
            Ok(Origin::One(lits))
        }
        Antecedents::Two(first, second) => {
            let a = trace.unpacked(earlier(trace, position, first), &mut buffers.first)?;
            let b = trace.unpacked(earlier(trace, position, second), &mut buffers.second)?;
            let pivot = pivot_of(a, b, &mut search.seen)?;
            Ok(Origin::Two(a, b, pivot))
        }
    }
}
