//! The clauses of a formula of gates, from the bytes of its text.

ghost use Rattle.std.specs.Prelude.{◌≡◌, Ok};
ghost use Rattle.qbf_gates.specs.Gates.{IsWellFormed};
ghost use Rattle.qcir.specs.Reading.{Question, read_gates};
ghost use Rattle.qrp_check.specs.Checked.{call_of};
ghost use Rattle.gate_verify.specs.Made.{AreMade, AreMadeOf};

use crate::fault::Unverified;
use gate_clauses::{EncodingFault, formula_in_clauses};
use qbf_core::Formula;
use qbf_gates::GateFormula;
use qbf_text::Source;
use qcir::{Question, QuestionFault, read_bytes, read_question};
use std::alloc::Global;

/// The clauses of a formula of gates without its names, as `clauses_of` makes them.
fn formula_clauses(alloc: Global, formula: &GateFormula) -> Result<Formula, Unverified>
    requires { IsWellFormed formula.now }
    ensures { (q : Question) → q.formula ≡ formula.now → AreMadeOf (Ok q) result }
{
    match formula_in_clauses(alloc, formula) {
        Ok(formula) => Ok(formula),
        Err(EncodingFault::NoMemory) => Err(Unverified::Question(QuestionFault::Q11, 0)),
        Err(EncodingFault::TooLong) => Err(Unverified::TooLong),
        Err(EncodingFault::Given | EncodingFault::Unknown) => unreachable!(),
    }
}

/// The clauses of a formula of gates, as `formula_in_clauses` makes them. The formula is well formed,
/// as one that was read is.
///
/// # Errors
/// `TooLong` if there are more clauses than QDIMACS can count, and Q11 on line 0 if an allocation
/// failed.
pub fn clauses_of(alloc: Global, question: &Question) -> Result<Formula, Unverified>
    requires { IsWellFormed question.now.formula }
    ensures { AreMadeOf (Ok question.now) result }
{
    formula_clauses(alloc, question.formula())
}

/// The clauses of the formula of gates that a text in QCIR-14 spells, as `formula_in_clauses` makes
/// them.
///
/// # Errors
/// `Question` with the first fault of the text and its line; `TooLong` if there are more clauses
/// than QDIMACS can count; and Q11 on line 0, in place of any of these, if an allocation failed.
pub fn clauses_of_text(alloc: Global, text: &[u8]) -> Result<Formula, Unverified>
    ensures { AreMadeOf (read_gates text.now) result }
{
    let question = read_question(alloc, text)?;
    clauses_of(alloc, &question)
}

/// The clauses of the formula of gates that a text spells, as `clauses_of_text` makes them. The text
/// and the names are let go before the clauses are made.
fn clauses_of_bytes(alloc: Global, text: Vec<u8>) -> Result<Formula, Unverified>
    ensures { AreMadeOf (read_gates text.items) result }
{
    let formula = read_question(alloc, &text)?.into_formula();
    drop(text);
    formula_clauses(alloc, &formula)
}

/// The clauses of the formula of gates that the bytes of a source spell, as `clauses_of_text` makes
/// them. The text and the names are let go once they are read.
///
/// # Errors
/// As of `clauses_of_text`, and Q1 on line 0 exactly if the source failed.
pub fn read_in_clauses<A: Source>(alloc: Global, question: &mut A) -> Result<Formula, Unverified>
    ensures { AreMade (call_of A.Source question.old question.new) result }
{
    match read_bytes(alloc, question) {
        Ok(text) => clauses_of_bytes(alloc, text),
        Err(fault) => Err(Unverified::Question(fault, 0)),
    }
}
