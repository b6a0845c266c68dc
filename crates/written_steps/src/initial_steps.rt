//! The initial steps of a trace, on either side.

ghost use Rattle.std.specs.Prelude.{[], ◌∷◌, OnOk, IfOk};
ghost use Rattle.qbf_core.specs.Qbf.{Qbf};
ghost use Rattle.qbf_core.specs.Sets.{IsOrdered};
ghost use Rattle.written_steps.specs.Accepted.{IsAcceptedBy};
ghost use Rattle.qrp_rules.specs.Conditions.{IsFaultOf, initial_condition};
ghost use Rattle.written_steps.specs.Initial.{AreKnown};

use crate::clause_index::InitialClauses;
use crate::cube_fault::find_cube_fault;
use crate::initial_cubes::InitialCubes;
use crate::seen::SeenLits;
use qbf_core::{Formula, Lit, Quantifier};
use qrp_rules::{RuleFault, Side, initial_clause_fault};
use std::alloc::{AllocError, Global};

/// The data that is kept of a formula, so that its initial steps are found fast. Each call takes
/// the same formula: contracts say by `AreKnown` that all that is kept is of it.
#[derive(Drop)]
pub struct InitialSteps {
    clauses: InitialClauses,
    cubes: InitialCubes,
}

impl InitialSteps {
    /// Nothing is known of the formula. It takes no memory.
    pub fn new(alloc: Global) -> InitialSteps
        ensures { (f : Qbf) → AreKnown f result }
    {
        InitialSteps {
            clauses: InitialClauses::new(alloc),
            cubes: InitialCubes::new(alloc),
        }
    }

    /// Accepts literals that are clean and bound and, as they are written, those of an initial
    /// step: a reduct of a clean clause of the formula, or an initial cube.
    ///
    /// # Errors
    /// If an allocation fails.
    #[inline(never)]
    #[tactic(auto, using(crate::proofs::WatchedClauses::accepted_clause, crate::proofs::WatchedClauses::accepted_cube))]
    pub fn accepts_initial<S: Side>(
        &mut self,
        formula: &Formula,
        seen: &mut SeenLits,
        lits: &[Lit],
    ) -> Result<bool, AllocError>
        requires { AreKnown formula.now self.old }
        ensures accepted { IfOk result (IsAcceptedBy
            (initial_condition S.side formula.now lits.now ∷ []) formula.now.blocks lits.now) }
        ensures known { OnOk result (AreKnown formula.now self.new) }
    {
        match S::REDUCED {
            Quantifier::All => self.clauses.accepts_initial(formula, seen, lits),
            Quantifier::Exists => self.cubes.accepts_initial(formula, seen, lits),
        }
    }
}

/// Why a set in order is not an initial step, or `None` if it is one: `S4` for clauses, `S5` for
/// cubes, as `Side::initial_fault` says.
///
/// # Errors
/// If an allocation fails.
pub fn ordered_initial_fault<S: Side>(
    alloc: Global,
    formula: &Formula,
    set: &[Lit],
) -> Result<Option<RuleFault>, AllocError>
    requires { IsOrdered set.now }
    ensures { IfOk result
        (λ fault. IsFaultOf (initial_condition S.side formula.now set.now ∷ []) fault) }
{
    match S::REDUCED {
        Quantifier::All => initial_clause_fault(alloc, formula, set),
        Quantifier::Exists => find_cube_fault(&mut SeenLits::new(alloc), formula, set),
    }
}
