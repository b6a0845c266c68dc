//! What the programs that write circuits have in common: their flags and their reports.
//!
//! - Owns: the line for a circuit that was not made.
//! - Offers: `send_circuit`, `send_no_circuit`, `are_both_flags`.
//! - Proved: the text of the circuit in the format that was asked for, or the line, goes out with
//!   its status.
//! - Read first: `send_circuit`.
//! - Tested only: by the tests of the programs.
//! - Trusted: nothing.
//! - On the map: reports of circuits.
#![tactic(auto)]

mod flags;
mod sending;

pub use flags::are_both_flags;
pub use sending::{send_circuit, send_no_circuit};
