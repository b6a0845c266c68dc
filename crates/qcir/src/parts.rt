//! The parts of a formula of gates while it is read.

ghost use Rattle.std.specs.Prelude.{◌≡◌, ◌<◌, ◌≤◌, [], ◌∷◌, length};
ghost use Rattle.std.specs.Result.{IsErrOf};
ghost use Rattle.qcir.specs.Names.{literal_named, with_name};
ghost use Rattle.qcir.specs.Outcomes.{LeadsTo};
ghost use Rattle.qcir.specs.Reading.{bound, gate, inputs, with_output};

use crate::fault::QuestionFault;
use crate::literals::read_inputs;
use crate::names::Names;
use crate::question::Question;
use qbf_core::{PrefixFault, Quantifier, Var};
use qbf_gates::{GateFormula, GateKind, Gates};
use qcir_tokens::Line;
use std::alloc::Global;
use std::marker::Model;

/// The names so far, the variables and the gates.
///
/// Contracts see them as they are given, and not the inputs of the next gate.
#[derive(Drop)]
pub(crate) struct Parts<'a> {
    names: Names<'a>,
    gates: Gates,
}

impl<'a> Model for Parts<'a> {
    ghost use Rattle.std.specs.Prelude.{◌≤◌, length};
    ghost use Rattle.std.specs.List.{AllByRecursion};
    ghost use Rattle.qbf_core.specs.Blocks.{pairs, variables};
    ghost use Rattle.qcir.specs.Reading.{PartsSoFar};

    ghost Value = { PartsSoFar };

    ghost view = { λ p.
        record { names = p.names; pairs = pairs p.gates.blocks; gates = p.gates.gates } };

    ghost invariant = { λ p.
        AllByRecursion (λ v. v ≤ length p.names) (variables (pairs p.gates.blocks)) };
}

/// The variable of the last name.
fn last_variable(names: &Names) -> Var
    requires { 0 < length names.now }
    ensures { result ≡ length names.now }
{
    match Var::new(names.len() as u32) {
        Some(var) => var,
        None => unreachable!(),
    }
}

impl<'a> Parts<'a> {
    /// Nothing. It takes no memory yet.
    pub(crate) fn new(alloc: Global) -> Parts<'a>
        ensures { result ≡ record { names = []; pairs = []; gates = [] } }
    {
        Parts {
            names: Names::new(alloc),
            gates: Gates::new(alloc),
        }
    }

    /// The names so far.
    pub(crate) fn names(&self) -> &Names<'a>
        ensures { result.now ≡ self.now.names }
    {
        &self.names
    }

    /// Binds a variable of this name innermost.
    ///
    /// # Errors
    /// Q4 if the name is given already, Q10 if there are too many, and Q11 if an allocation failed.
    pub(crate) fn bind(
        &mut self,
        quantifier: Quantifier,
        name: &'a [u8],
    ) -> Result<(), QuestionFault>
        ensures { LeadsTo (bound quantifier self.old (with_name self.old.names name.now))
            self.new result }
    {
        self.names.give(name)?;
        let var = last_variable(&self.names);
        match self.gates.bind(quantifier, var) {
            Ok(()) => Ok(()),
            Err(PrefixFault::B1) => unreachable!(),
            Err(PrefixFault::B2) => Err(QuestionFault::Q11),
        }
    }

    /// Reads the inputs of a gate of this name and kind, up to the end of the line.
    ///
    /// # Errors
    /// Q3 and Q5 of its inputs, Q8 if it has more or fewer than its kind, Q4 if the name is given
    /// already, Q10 if there are too many, and Q11 if an allocation failed.
    pub(crate) fn read_gate(
        &mut self,
        line: &mut Line<'a>,
        name: &'a [u8],
        kind: GateKind,
    ) -> Result<(), QuestionFault>
        ensures read { LeadsTo (gate self.old name.now kind (inputs self.old.names line.old))
            self.new result }
        ensures kept { IsErrOf result QuestionFault.Q5 → self.new.names ≡ self.old.names }
    {
        read_inputs(line, &self.names, &mut self.gates)?;
        if !kind.fits(self.gates.inputs_len()) {
            return Err(QuestionFault::Q8);
        }
        self.names.give(name)?;
        let var = last_variable(&self.names);
        self.gates.close(var, kind)?;
        Ok(())
    }

    /// The formula with the output of this name, negated or not.
    ///
    /// # Errors
    /// Q12 if the name is not given.
    pub(crate) fn finish(self, negative: bool, output: &[u8]) -> Result<Question<'a>, QuestionFault>
        ensures { result ≡ with_output self.entry (literal_named self.entry.names negative output.now) }
    {
        // The length of a prefix shows what holds of every prefix.
        let _ = self.gates.prefix().len();
        match self.names.literal(negative, output) {
            None => Err(QuestionFault::Q12),
            Some(lit) => Ok(Question::new(self.names, GateFormula::new(self.gates, lit))),
        }
    }
}
