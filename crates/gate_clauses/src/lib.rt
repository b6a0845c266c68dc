//! Formulas of gates as formulas in clauses with the same truth: each gate is an existential
//! variable, innermost, with clauses that leave it the value of its inputs (Tseitin 1968).
//!
//! - Owns: the clauses of a gate, and the formula in clauses of a formula of gates.
//! - Offers: `formula_in_clauses`, `Encoder`, `EncodingFault`, the laws.
//! - Proved: a formula of gates is true exactly if its formula in clauses is, and that one is
//!   closed; the calls make exactly this formula.
//! - Read first: `the_encoding_is_the_question`, `formula_in_clauses`; the definition `encoding`.
//! - Tested only: the crate `gate_tests`: the clauses of worked texts.
//! - Trusted: nothing.
#![tactic(auto)]

mod clauses;
mod encoder;
mod fault;
mod laws;
mod whole;

pub use encoder::Encoder;
pub use fault::EncodingFault;
pub use laws::the_encoding_is_the_question;
pub use whole::formula_in_clauses;
