//! The check of a trace against a formula of gates in QCIR-14, both from their bytes: the clauses
//! are made anew, and no text of them is read.
//!
//! - Owns: the verdict on a formula of gates.
//! - Offers: `verify_question`, `read_in_clauses`, `clauses_of_text`, `clauses_of`, `Unverified`, the
//!   law.
//! - Proved: `verify_question` as in the headline, with the first fault otherwise: for all bytes, it
//!   returns a truth exactly if they spell a formula of gates and a trace that proves its result of
//!   the clauses, and then the formula of gates has this truth.
//! - Read first: `verify_question`; the definitions `Headline` and `IsTrueGates`.
//! - Tested only: the crate `gate_tests`: worked texts with their proofs, sources and allocations
//!   that fail.
//! - Trusted: nothing.
#![tactic(auto)]

mod clauses;
mod fault;
mod laws;
mod verifying;

pub use clauses::{clauses_of, clauses_of_text, read_in_clauses};
pub use fault::Unverified;
pub use laws::a_proof_shows_the_gates;
pub use verifying::verify_question;
