//! Refusals as data, and the lines, the statuses and the meanings of verdicts and refusals.
//!
//! - Owns: refusals as data: letter, number, rule and position, with their lines, statuses and
//!   meanings.
//! - Offers: `Refusal`, `put_refusal`, `put_verdict`, `put_numbers_line`, `is_of_fault`.
//! - Proved: the refusal of each fault, exactly its line, its status and its meaning, and which
//!   numbers are those of a fault.
//! - Read first: `Refusal::of`, `Refusal::status`, `Refusal::meaning`, `put_refusal`,
//!   `put_verdict`, `is_of_fault`.
//! - Tested only: the words of each meaning, through the library for C.
//! - Trusted: nothing.
//! - On the map: Refusal: a fault as data, | its line, status and meaning.
#![tactic(auto)]

mod lines;
mod meaning;
mod of_fault;
mod refusal;

pub use lines::{put_numbers_line, put_refusal, put_verdict};
pub use of_fault::is_of_fault;
pub use refusal::Refusal;
