//! The checker is complete: each proof by textbook Q-resolution and term resolution is accepted, and
//! a result holds of a formula exactly if some steps prove it. It stands on `qrp_check`, whose
//! definitions it holds from the other side, and on the derivations of `qbf_completeness`.
//!
//! - Owns: the rules as the literature states them, and what it means that a formula has a proof or
//!   a trace.
//! - Offers: `verify_texts`; nothing stands on it.
//! - Proved: textbook proofs are proofs; each result has a proof; each result of a small formula
//!   has a trace, which `verify` verifies.
//! - Read first: `textbook_proofs_are_proofs`, `each_result_has_a_proof`, `verify_texts`.
//! - Tested only: `tests/program/test-derivations`: the program verifies the traces of the proof,
//!   built for random formulas.
//! - Trusted: nothing.
#![tactic(auto)]

mod laws;
mod texts;

pub use laws::{
    each_result_has_a_proof, each_small_formula_has_a_trace, textbook_proofs_are_proofs,
};
pub use texts::verify_texts;
