//! Refusals of formulas of gates as data, with their lines, their statuses and their meanings.
//!
//! - Owns: refusals of a formula of gates as data: number and line, with their lines, statuses and
//!   meanings.
//! - Offers: `GateRefusal`, `put_gate_refusal`, `put_unverified`, `unverified_status`.
//! - Proved: the refusal of each fault, exactly its line, its status and its meaning, and which
//!   numbers are those of a fault.
//! - Read first: `GateRefusal::of_question`, `GateRefusal::status`, `put_unverified`,
//!   `unverified_status`.
//! - Tested only: the words of each meaning, through the library for C.
//! - Trusted: nothing.
//! - On the map: GateRefusal: a fault of gates as data, | its line, status and meaning.
#![tactic(auto)]

mod lines;
mod meaning;
mod refusal;

pub use lines::{put_gate_refusal, put_unverified, unverified_status};
pub use refusal::GateRefusal;
