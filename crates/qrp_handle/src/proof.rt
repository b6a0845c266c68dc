//! A formula and the steps of its proof, handed over one by one.

ghost use Rattle.std.specs.Prelude.{◌≡◌, ◌≢◌, ◌≤◌, ◌<◌, ◌↔◌, [], ◌∷◌, ◌++◌, map, length, IsTrue, OnOk, OnErr, IfErr};
ghost use Rattle.std.specs.Prelude.{IfOk};
ghost use Rattle.std.specs.List.{AllByRecursion};
ghost use Rattle.qbf_core.specs.Blocks.{pairs};
ghost use Rattle.qbf_core.specs.Truth.{IsTrueFormula};
ghost use Rattle.trace_items.specs.Inferences.{IsNumber, numbers};
ghost use Rattle.step_index.specs.Numbers.{is_used};
ghost use Rattle.trace_check.specs.declared.fault.CheckFault.TheVariants.{C5};
ghost use Rattle.trace_check.specs.Proof.{Proves, IsFirstFault, is_sat};
ghost use Rattle.qrp_handle.specs.Checks.{AreWellFormed, HasCore};
ghost use Rattle.qrp_handle.specs.Adding.{IsVariableFault, IsClauseFault, IsStepFault};
ghost use Rattle.qbf_core.specs.WrittenLiterals.{literal_of};

use crate::fault::AddFault;
use crate::written::{WrittenStep, literals_of};
use qbf_core::{Formula, LAST_VARIABLE, Prefix, PrefixFault, Quantifier, Var, are_bound};
use qrp_check::{CheckFault, Context, check};
use qrp_rules::Rules;
use std::alloc::Global;
use trace_items::{Header, Outcome, Steps, Trace};

/// A formula, and the steps of its proof that were handed over so far.
#[derive(Drop)]
pub struct Proof {
    /// The formula.
    pub formula: Formula,
    /// The steps. Its sets, its header and its result say nothing.
    pub trace: Trace,
}

impl Proof {
    /// A formula with no variable and no clause, and no step. It takes no memory.
    pub fn new(alloc: Global) -> Proof
        ensures formula { result.formula
            ≡ record { max_var = 2147483647; blocks = []; clauses = [] } }
        ensures steps { result.trace.steps ≡ [] }
    {
        let header = Header { vars: 0, steps: 0 };
        Proof {
            formula: Formula::new(alloc, LAST_VARIABLE, Prefix::new(alloc)),
            trace: Trace::new(alloc, header, Outcome::Unsat),
        }
    }

    /// Binds a variable innermost: in the last block if that has this quantifier, else in a new
    /// one.
    ///
    /// # Errors
    /// `Range` and `Bound` only as they say, and `NoMemory` only if an allocation failed. Nothing
    /// is changed then.
    pub fn push_variable(&mut self, quantifier: Quantifier, number: u32) -> Result<(), AddFault>
        ensures pushed { OnOk result (pairs self.new.formula.blocks
            ≡ pairs self.old.formula.blocks ++ (quantifier, number) ∷ []) }
        ensures rest { self.new ≡ record self.old {
          formula = record self.old.formula { blocks = self.new.formula.blocks };
        } }
        ensures refused { IfErr result (IsVariableFault self.old.formula number) }
        ensures err { OnErr result (self.new ≡ self.old) }
    {
        let Some(var) = Var::up_to(self.formula.max_var(), u64::from(number)) else {
            return Err(AddFault::Range);
        };
        match self.formula.push_variable(quantifier, var) {
            Ok(()) => Ok(()),
            Err(PrefixFault::B1) => Err(AddFault::Bound),
            Err(PrefixFault::B2) => Err(AddFault::NoMemory),
        }
    }

    /// Adds the clause that these numbers write.
    ///
    /// # Errors
    /// `Range`, `Unbound` and `Full` only as they say, and `NoMemory` only if an allocation failed.
    /// Nothing is changed then.
    #[tactic(auto, using(crate::proofs::ReadFaults::clause_fault))]
    pub fn push_clause(&mut self, alloc: Global, written: &[i32]) -> Result<(), AddFault>
        ensures pushed { OnOk result (self.new ≡ record self.old {
          formula = record self.old.formula {
            clauses = self.old.formula.clauses ++ map literal_of written.now ∷ [];
          };
        }) }
        ensures refused { IfErr result (IsClauseFault self.old.formula written.now) }
        ensures err { OnErr result (self.new ≡ self.old) }
    {
        let lits = literals_of(alloc, written)?;
        if !are_bound(self.formula.prefix(), &lits) {
            return Err(AddFault::Unbound);
        }
        if self.formula.clauses() >= LAST_VARIABLE as usize {
            return Err(AddFault::Full);
        }
        match self.formula.push_clause(lits) {
            Ok(()) => Ok(()),
            Err(_) => Err(AddFault::NoMemory),
        }
    }

    /// Adds a step.
    ///
    /// # Errors
    /// `Range`, `Used` and `Many` only as they say, and `NoMemory` only if an allocation failed.
    /// Nothing is changed then.
    #[tactic(auto, using(crate::proofs::ReadFaults::step_fault))]
    pub fn push_step(&mut self, alloc: Global, step: WrittenStep) -> Result<(), AddFault>
        ensures pushed { OnOk result (self.new ≡ record self.old {
          trace = record self.old.trace {
            steps = self.old.trace.steps ++ record {
              number = step.entry.number;
              lits = map literal_of step.entry.lits.now;
              ants = step.entry.ants.now;
            } ∷ [];
          };
        }) }
        ensures refused { IfErr result (IsStepFault self.old.trace.steps step.entry.number
            step.entry.lits.now step.entry.ants.now) }
        ensures err { OnErr result (self.new ≡ self.old) }
    {
        let WrittenStep {
            number,
            lits: written,
            ants,
        } = step;
        if ants.len() > 2 {
            return Err(AddFault::Many);
        }
        if number == 0 || !are_numbers(ants) {
            return Err(AddFault::Range);
        }
        let lits = literals_of(alloc, written)?;
        if has_step(&self.trace, number) {
            return Err(AddFault::Used);
        }
        self.trace.push_lists(number, &lits, ants)?;
        Ok(())
    }

    /// The positions of the steps that the proof of this outcome needs, in order, if the steps prove
    /// it of the formula, as `check` of the checker says it.
    ///
    /// # Errors
    /// As of that.
    pub fn core(
        &self,
        alloc: Global,
        outcome: Outcome,
        rules: Rules,
    ) -> Result<Vec<usize>, CheckFault>
        ensures core { IfOk result
            (λ v. HasCore rules self.now.formula self.now.trace.steps outcome v.items) }
        ensures truth { OnOk result (IsTrue (is_sat outcome) ↔ IsTrueFormula self.now.formula) }
        ensures refused { IfErr result (λ e. e ≢ C5
            → IsFirstFault rules self.now.formula [] self.now.trace.steps outcome e) }
        ensures sound { AreWellFormed self.now.formula self.now.trace }
    {
        // The proof reads here that the formula and the steps are well formed.
        let _greatest = self.formula.max_var();
        let _claim = self.trace.result();
        let context = Context {
            alloc,
            formula: &self.formula,
            rules,
        };
        let verified = check(context, &self.trace, &[], outcome)?;
        Ok(verified.core)
    }

    /// Whether the steps prove this outcome of the formula, as `check` of the checker says it. There
    /// is no fault then.
    ///
    /// # Errors
    /// As of that.
    pub fn check(&self, alloc: Global, outcome: Outcome, rules: Rules) -> Result<(), CheckFault>
        ensures proves { OnOk result
            (Proves rules self.now.formula [] self.now.trace.steps outcome) }
        ensures truth { OnOk result (IsTrue (is_sat outcome) ↔ IsTrueFormula self.now.formula) }
        ensures refused { IfErr result (λ e. e ≢ C5
            → IsFirstFault rules self.now.formula [] self.now.trace.steps outcome e) }
        ensures sound { AreWellFormed self.now.formula self.now.trace }
    {
        self.core(alloc, outcome, rules)?;
        Ok(())
    }
}

/// Whether each of these is a step number.
fn are_numbers(numbers: &[u64]) -> bool
    ensures { IsTrue result ↔ AllByRecursion IsNumber numbers.now }
{
    numbers.iter().all(|number| *number >= 1)
}

/// Whether a step has this number.
#[tactic(auto, using(crate::proofs::Used::found_is_used))]
fn has_step(trace: &Trace, number: u64) -> bool
    ensures { result ≡ is_used number (numbers trace.now.steps) }
{
    trace.position(number).is_some()
}
