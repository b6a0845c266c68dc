//! A formula in clauses that is made of a formula of gates, one after the other.

ghost use Rattle.std.specs.Prelude.{◌≡◌, List, ◌≤◌, ◌<◌, true, false, [], ◌∷◌, ◌++◌, length, nat_eq, OnOk, OnErr, IfOk};
ghost use Rattle.std.specs.List.{AllByRecursion, IsDistinct};
ghost use Rattle.std.specs.Result.{IsErrOf};
ghost use Rattle.qbf_core.specs.Blocks.{AreBound, IsBound, IsPrefix, pairs, variables};
ghost use Rattle.qbf_core.specs.Literal.{Literal};
ghost use Rattle.qbf_core.specs.declared.quantifier.Quantifier.TheVariants.{Exists};
ghost use Rattle.qbf_gates.specs.Gates.{StandInOrder, gate_names};
ghost use Rattle.gate_clauses.specs.Begun.{greatest};
ghost use Rattle.gate_clauses.specs.Encoding.{gate_clauses, gate_pairs};

use crate::clauses::{put_gate_clauses, put_one};
use crate::fault::EncodingFault;
use lists::GrowingLists;
use qbf_core::{Formula, LAST_VARIABLE, Lit, Prefix, PrefixFault, Quantifier, Var};
use qbf_gates::Gates;
use std::alloc::{AllocError, Global};
use std::marker::Model;

/// The prefix and the clauses so far. Contracts see both.
#[derive(Drop)]
pub struct Encoder {
    prefix: Prefix,
    clauses: GrowingLists<Lit>,
}

impl Model for Encoder {
    ghost use Rattle.std.specs.List.{AllByRecursion};
    ghost use Rattle.qbf_core.specs.Blocks.{AreBound};
    ghost use Rattle.gate_clauses.specs.Begun.{Begun};

    ghost Value = { Begun };

    ghost view = { λ e. record { blocks = e.prefix; clauses = e.clauses.whole } };

    ghost invariant = { λ e. AllByRecursion (AreBound e.prefix) e.clauses.whole };
}

/// The greatest variable that is bound, or 0 if none is.
#[tactic(auto, using(crate::proofs::Greatest::next_greatest))]
fn greatest_variable(prefix: &Prefix) -> u32
    ensures greatest { result ≡ greatest (variables (pairs prefix.now)) }
    ensures number { result ≤ 2147483647 }
{
    let mut most = 0;
    for i in 0..prefix.len() {
        let (_, var) = prefix.pair(i);
        most = var.number().max(most);
    }
    most
}

/// Whether all of these literals are of bound variables.
fn are_known(prefix: &Prefix, lits: &[Lit]) -> bool
    ensures known { result ≡ true → AreBound prefix.now lits.now }
    ensures unknown { result ≡ false → AreBound prefix.now lits.now → ⊥ }
{
    for lit in lits {
        if !prefix.is_bound(lit.var()) {
            return false;
        }
    }
    true
}

/// Binds the variable of a gate, if its inputs are known.
fn bind_gate(prefix: &mut Prefix, var: Var, inputs: &[Lit]) -> Result<(), EncodingFault>
    ensures pushed { OnOk result (pairs prefix.new ≡ pairs prefix.old ++ (Exists, var) ∷ []) }
    ensures known { OnOk result (AreBound prefix.old inputs.now) }
    ensures err { OnErr result (prefix.new ≡ prefix.old) }
    ensures given { IsErrOf result EncodingFault.Given → IsBound prefix.old var }
    ensures unknown { IsErrOf result EncodingFault.Unknown → AreBound prefix.old inputs.now → ⊥ }
    ensures short { IsErrOf result EncodingFault.TooLong → ⊥ }
{
    if !are_known(prefix, inputs) {
        return Err(EncodingFault::Unknown);
    }
    match prefix.push(Quantifier::Exists, var) {
        Ok(()) => Ok(()),
        Err(PrefixFault::B1) => Err(EncodingFault::Given),
        Err(PrefixFault::B2) => Err(EncodingFault::NoMemory),
    }
}

/// Binds the variables of gates in their order.
fn bind_gates(prefix: &mut Prefix, gates: &Gates) -> Result<(), EncodingFault>
    ensures bound { OnOk result
        (pairs prefix.new ≡ pairs prefix.old ++ gate_pairs gates.now.gates) }
    ensures closed { OnOk result ((cs : List (List Literal)) → AllByRecursion (AreBound prefix.old) cs
        → AllByRecursion (AreBound prefix.new) (cs ++ gate_clauses gates.now.gates)) }
    ensures given { IsErrOf result EncodingFault.Given → IsDistinct nat_eq
        (variables (pairs prefix.old) ++ gate_names gates.now.gates) → ⊥ }
    ensures unknown { IsErrOf result EncodingFault.Unknown
        → StandInOrder (variables (pairs prefix.old)) gates.now.gates → ⊥ }
    ensures short { IsErrOf result EncodingFault.TooLong → ⊥ }
{
    for i in 0..gates.len() {
        let (var, _, inputs) = gates.gate(i);
        bind_gate(prefix, var, inputs)?;
    }
    Ok(())
}

/// Puts the clauses of gates in their order.
fn put_clauses(clauses: &mut GrowingLists<Lit>, gates: &Gates) -> Result<(), AllocError>
    ensures { OnOk result (clauses.new.whole
        ≡ clauses.old.whole ++ gate_clauses gates.now.gates) }
{
    for i in 0..gates.len() {
        let (var, kind, inputs) = gates.gate(i);
        put_gate_clauses(clauses, var, kind, inputs)?;
    }
    Ok(())
}

impl Encoder {
    /// No variables yet, and no gates. It takes no memory.
    pub fn new(alloc: Global) -> Encoder
        ensures { result ≡ record { blocks = []; clauses = [] } }
    {
        Encoder {
            prefix: Prefix::new(alloc),
            clauses: GrowingLists::new(alloc),
        }
    }

    /// Binds a variable innermost.
    ///
    /// # Errors
    /// `Given` if the name is given already, and `NoMemory` if an allocation fails.
    #[tactic(auto, using(crate::proofs::Encoded::bound_further))]
    pub fn bind(&mut self, quantifier: Quantifier, var: Var) -> Result<(), EncodingFault>
        ensures pushed { OnOk result (pairs self.new.blocks ≡ pairs self.old.blocks ++ (quantifier, var) ∷ []) }
        ensures clauses { self.new.clauses ≡ self.old.clauses }
        ensures given { IsErrOf result EncodingFault.Given → IsBound self.old.blocks var }
        ensures other { IsErrOf result EncodingFault.Unknown → ⊥ }
        ensures short { IsErrOf result EncodingFault.TooLong → ⊥ }
    {
        match self.prefix.push(quantifier, var) {
            Ok(()) => Ok(()),
            Err(PrefixFault::B1) => Err(EncodingFault::Given),
            Err(PrefixFault::B2) => Err(EncodingFault::NoMemory),
        }
    }

    /// Puts gates in their order.
    ///
    /// # Errors
    /// `Given` if a name is given already, `Unknown` if an input is of no name that is given before
    /// its gate, and `NoMemory` if an allocation fails.
    pub fn with_gates(mut self, gates: &Gates) -> Result<Encoder, EncodingFault>
        ensures bound { IfOk result (λ e. pairs e.blocks ≡ pairs self.blocks ++ gate_pairs gates.now.gates) }
        ensures put { IfOk result (λ e. e.clauses ≡ self.clauses ++ gate_clauses gates.now.gates) }
        ensures given { IsErrOf result EncodingFault.Given → IsDistinct nat_eq
            (variables (pairs self.blocks) ++ gate_names gates.now.gates) → ⊥ }
        ensures unknown { IsErrOf result EncodingFault.Unknown
            → StandInOrder (variables (pairs self.blocks)) gates.now.gates → ⊥ }
        ensures short { IsErrOf result EncodingFault.TooLong → ⊥ }
    {
        // One after the other, since lists that grow by turns leave more gaps in memory.
        put_clauses(&mut self.clauses, gates)?;
        bind_gates(&mut self.prefix, gates)?;
        Ok(self)
    }

    /// The formula, if the output is this literal. Its header names the greatest variable.
    ///
    /// # Errors
    /// `Unknown` if the output is of no name that is given, `TooLong` if there are more clauses
    /// than QDIMACS can count, and `NoMemory` if an allocation fails.
    pub fn finish(mut self, output: Lit) -> Result<Formula, EncodingFault>
        ensures known { IfOk result (λ _. IsBound self.blocks output.var) }
        ensures prefix { IfOk result (λ _. IsPrefix self.blocks) }
        ensures formula { IfOk result (λ f. f ≡ record {
          max_var = greatest (variables (pairs self.blocks));
          blocks = self.blocks;
          clauses = self.clauses ++ (output ∷ []) ∷ [];
        }) }
        ensures given { IsErrOf result EncodingFault.Given → ⊥ }
        ensures unknown { IsErrOf result EncodingFault.Unknown → IsBound self.blocks output.var → ⊥ }
        ensures long { IsErrOf result EncodingFault.TooLong
            → 2147483647 < length (self.clauses ++ (output ∷ []) ∷ []) }
    {
        if !self.prefix.is_bound(output.var()) {
            return Err(EncodingFault::Unknown);
        }
        put_one(&mut self.clauses, output)?;
        if self.clauses.whole_len() > LAST_VARIABLE as usize {
            return Err(EncodingFault::TooLong);
        }
        // The length of a prefix shows what holds of every prefix.
        let _ = self.prefix.len();
        let greatest = greatest_variable(&self.prefix);
        Ok(Formula::from_parts(greatest, self.prefix, self.clauses))
    }
}
