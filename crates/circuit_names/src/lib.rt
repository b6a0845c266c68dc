//! The text of a circuit with the names that a formula of gates gives to its variables.
//!
//! - Owns: symbol tables with names of QCIR-14.
//! - Offers: `write_named_circuit`, the laws.
//! - Proved: the text of the circuit goes out with a symbol for each input and each output that has
//!   the name of its variable, or a beginning of the text; each line of the table carries that name;
//!   the text is read as the circuit again, with its names.
//! - Read first: `write_named_circuit`, `variables_are_named`, `named_circuits_read_back`.
//! - Tested only: by the tests of `qrp_gates`.
//! - Trusted: nothing.
//! - On the map: texts of circuits | with names.
#![tactic(auto)]

mod laws;
mod writing;

pub use laws::{named_circuits_read_back, variables_are_named};
pub use writing::write_named_circuit;
