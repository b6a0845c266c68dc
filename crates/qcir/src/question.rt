//! A formula of gates with its names.

ghost use Rattle.std.specs.Prelude.{◌≡◌, length, count_by};
ghost use Rattle.std.specs.Option.{option_map};
ghost use Rattle.qbf_core.specs.Blocks.{pairs};
ghost use Rattle.qcir.specs.Names.{is_existential};
ghost use Rattle.qcir.specs.Texts.{name_at, name_of};

use crate::names::Names;
use qbf_core::{Prefix, Quantifier, Var};
use qbf_gates::GateFormula;
use std::marker::Model;

/// A formula of gates as a text names it: its variables and its gates are numbered from 1 in the
/// order in which the text gives their names.
///
/// Contracts see the names and the formula.
#[derive(Drop)]
pub struct Question<'a> {
    names: Names<'a>,
    formula: GateFormula,
}

impl<'a> Model for Question<'a> {
    ghost use Rattle.qcir.specs.Reading.{Question};

    ghost Value = { Question };

    ghost view = { λ q. record { names = q.names; formula = q.formula } };
}

/// The number of existential variables.
#[tactic(auto, using(crate::proofs::Counted::one_more, crate::proofs::Counted::none_more))]
fn existential(prefix: &Prefix) -> usize
    ensures { result ≡ count_by is_existential (pairs prefix.now) }
{
    let mut count = 0;
    for i in 0..prefix.len() {
        let (quantifier, _) = prefix.pair(i);
        match quantifier {
            Quantifier::Exists => count += 1,
            Quantifier::All => {}
        }
    }
    count
}

impl<'a> Question<'a> {
    /// The formula with these names.
    pub(crate) fn new(names: Names<'a>, formula: GateFormula) -> Question<'a>
        ensures { result ≡ record { names = names.entry; formula = formula } }
    {
        Question { names, formula }
    }

    /// The formula, without its names.
    pub fn into_formula(self) -> GateFormula
        ensures { result ≡ self.entry.formula }
    {
        self.formula
    }

    /// The formula.
    pub fn formula(&self) -> &GateFormula
        ensures { result.now ≡ self.now.formula }
    {
        &self.formula
    }

    /// Its names.
    pub(crate) fn all_names(&self) -> &Names<'a>
        ensures { result.now ≡ self.now.names }
    {
        &self.names
    }

    /// The name of a variable or a gate, or `None` if the formula has none of this number.
    pub fn name(&self, var: Var) -> Option<&[u8]>
        ensures { option_map (λ n. n.now) result ≡ name_at self.now.names var }
    {
        self.names.name(var)
    }

    /// The name of the variable or the gate with a number, counted from 1, or no bytes if the
    /// formula has none of this number.
    pub fn name_numbered(&self, number: u32) -> &[u8]
        ensures { result.now ≡ name_of self.now.names number }
    {
        self.names.name_numbered(number)
    }

    /// The number of variables.
    pub fn variables(&self) -> usize
        ensures { result ≡ length (pairs self.now.formula.blocks) }
    {
        self.formula.gates().prefix().len()
    }

    /// The number of existential variables.
    pub fn existential(&self) -> usize
        ensures { result ≡ count_by is_existential (pairs self.now.formula.blocks) }
    {
        existential(self.formula.gates().prefix())
    }

    /// The number of names: those of variables and of gates.
    pub fn names(&self) -> usize
        ensures { result ≡ length self.now.names }
    {
        self.names.len()
    }
}
