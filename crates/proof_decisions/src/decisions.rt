//! The decisions of a checked proof, one for each step of its core that sets something.

ghost use Rattle.std.specs.Prelude.{◌≡◌, ◌<◌, ℕ, Some, length, slice_get, IfOk, OnOk};
ghost use Rattle.qbf_core.specs.Members.{◌∈◌};
ghost use Rattle.qbf_core.specs.Rules.{reduced_quantifier};
ghost use Rattle.qbf_strategy.specs.Decisions.{decisions_by};
ghost use Rattle.core_walk.specs.Core.{IsInCore, ListsCore};
ghost use Rattle.trace_check.specs.Proof.{Derives, side_of};
ghost use Rattle.qrp_rules.specs.declared.rules.Rules.{Rules};
ghost use Rattle.proof_decisions.specs.ProofDecisions.{AreAllThatSet};
ghost use Rattle.proof_decisions.specs.Removing.{AddsDecision, AddsUnlessIdle};

use crate::checked_proof::CheckedProof;
use crate::literal_sets::set_all;
use crate::origins::{OriginBuffers, Search, origin_of};
use crate::removing::{keep, remove_all};
use lists::GrowingLists;
use qbf_core::LitBuffer;
use qbf_strategy::Decisions;
use qrp_rules::{Clauses, Cubes, Side, reducible_in};
use std::alloc::{AllocError, Global};
use trace_items::{KeptSteps, Outcome};

/// The state of the walk over the core.
#[derive(Drop)]
struct Walk {
    search: Search,
    buffers: OriginBuffers,
    /// Room for the literals of the step itself.
    own: LitBuffer,
    /// Those that are made so far.
    decisions: Decisions,
}

/// Makes a decision of what is kept and removed, unless nothing is removed.
fn close_unless_idle(decisions: &mut Decisions) -> Result<(), AllocError>
    ensures { OnOk result (AddsUnlessIdle decisions.old.kept.whole decisions.old.removed.whole
        decisions.old.kept.unfinished decisions.old.removed.unfinished
        decisions.new.kept.whole decisions.new.removed.whole) }
{
    if decisions.removed.unfinished_len() == 0 {
        return Ok(());
    }
    decisions.kept.close()?;
    decisions.removed.close()
}

/// Adds the decision of the step at a position, unless it sets nothing.
fn decide<S: Side, T: KeptSteps>(
    proof: CheckedProof<'_, T>,
    position: usize,
    walk: &mut Walk,
) -> Result<(), AllocError>
    requires derives { (by : Rules) × Derives by S.side proof.formula.now (T.steps proof.trace.now) }
    requires core { IsInCore (T.steps proof.trace.now) position }
    ensures { OnOk result (AddsDecision S.side proof.entry.formula.now
        (T.steps proof.entry.trace.now) position
        walk.old.decisions.kept.whole walk.old.decisions.removed.whole
        walk.new.decisions.kept.whole walk.new.decisions.removed.whole) }
{
    let CheckedProof { formula, trace } = proof;
    let lits = trace.unpacked(position, &mut walk.own)?;
    let own = reducible_in(formula.prefix(), S::REDUCED, lits);
    keep(own, lits, &mut walk.decisions.kept)?;
    let origin = origin_of::<S, T>(proof, position, &mut walk.search, &mut walk.buffers)?;
    set_all(&mut walk.search.seen, walk.decisions.kept.unfinished())?;
    walk.decisions.removed.begin();
    remove_all::<S>(
        formula.prefix(),
        origin,
        &mut walk.search.seen,
        &mut walk.decisions.removed,
    )?;
    close_unless_idle(&mut walk.decisions)
}

/// The position at a place.
fn place_at(core: &[usize], i: usize) -> usize
    requires { i < length core.now }
    ensures { slice_get core.now i ≡ Some result }
{
    core[i]
}

/// The decisions of the steps at some positions that set something, for one side.
#[tactic(auto, using(crate::proofs::MadeDecisions::decisions_none))]
fn decisions_for<S: Side, T: KeptSteps>(
    alloc: Global,
    proof: CheckedProof<'_, T>,
    core: &[usize],
) -> Result<Decisions, AllocError>
    requires derives { (by : Rules) × Derives by S.side proof.formula.now (T.steps proof.trace.now) }
    requires core { (i : ℕ) → i ∈ core.now → IsInCore (T.steps proof.trace.now) i }
    ensures are { IfOk result (λ d. AreAllThatSet S.side proof.entry.formula.now
        (T.steps proof.entry.trace.now) core.now
        (decisions_by (reduced_quantifier S.side) d.kept.whole d.removed.whole)) }
    ensures same { IfOk result (λ d. length d.kept.whole ≡ length d.removed.whole) }
{
    let mut walk = Walk {
        search: Search::new(alloc),
        buffers: OriginBuffers {
            first: LitBuffer::new(alloc),
            second: LitBuffer::new(alloc),
        },
        own: LitBuffer::new(alloc),
        decisions: Decisions {
            kept: GrowingLists::new(alloc),
            removed: GrowingLists::new(alloc),
        },
    };
    walk.search.seen.make_room(proof.formula.prefix())?;
    for i in 0..core.len() {
        let position = place_at(core, i);
        decide::<S, T>(proof, position, &mut walk)?;
    }
    Ok(walk.decisions)
}

/// The decisions of a proof, in order: one for each step of its core that sets something. A player
/// who keeps to them wins: the universal player if the result is `r unsat`, else the existential player.
///
/// # Errors
/// If an allocation fails.
pub fn decisions_of<T: KeptSteps>(
    alloc: Global,
    proof: CheckedProof<'_, T>,
    outcome: Outcome,
    core: &[usize],
) -> Result<Decisions, AllocError>
    requires derives { (by : Rules)
        × Derives by (side_of outcome) proof.formula.now (T.steps proof.trace.now) }
    requires core { ListsCore (T.steps proof.trace.now) core.now }
    ensures are { IfOk result (λ d. AreAllThatSet (side_of outcome) proof.entry.formula.now
        (T.steps proof.entry.trace.now) core.now
        (decisions_by (reduced_quantifier (side_of outcome)) d.kept.whole d.removed.whole)) }
    ensures same { IfOk result (λ d. length d.kept.whole ≡ length d.removed.whole) }
{
    match outcome {
        Outcome::Unsat => decisions_for::<Clauses, T>(alloc, proof, core),
        Outcome::Sat => decisions_for::<Cubes, T>(alloc, proof, core),
    }
}
