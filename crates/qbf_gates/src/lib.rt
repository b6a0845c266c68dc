//! Formulas of gates: closed prenex formulas whose matrix is the output of a circuit, as QCIR-14
//! writes them, with the value of a gate and the truth of a formula.
//!
//! - Owns: gates, formulas of gates, and their truth.
//! - Offers: `GateFormula`, `Gates`, `GateKind`.
//! - Proved: a formula keeps its prefix, its gates in their order and its output as they were given.
//! - Read first: the definitions `GateFormula`, `IsWellFormed` and `IsTrueGates`; `Gates::close`.
//! - Tested only: the crate `gate_tests`: formulas that are read from texts.
//! - Trusted: nothing.
#![tactic(auto)]

mod formula;
mod gates;
mod kind;

pub use formula::GateFormula;
pub use gates::Gates;
pub use kind::GateKind;
