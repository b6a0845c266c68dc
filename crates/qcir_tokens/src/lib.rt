//! The tokens of QCIR-14, which writes a formula of gates line by line.
//!
//! - Owns: tokens of a line, and which bytes spell them.
//! - Offers: `Line::word`, `Line::take`, `Line::is_done`; `Mark`.
//! - Proved: exactly the tokens of the line, one after the other.
//! - Read first: the definition `tokens`; `Line::word`.
//! - Tested only: the crate `gate_tests`: lines of worked texts.
//! - Trusted: nothing.
#![tactic(auto)]

mod bytes;
mod line;
mod mark;

pub use line::Line;
pub use mark::Mark;
