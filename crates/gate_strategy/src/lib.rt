//! From a formula of gates in QCIR-14 and a trace, the strategy of the winner as a circuit.
//!
//! - Owns: circuits that win a formula of gates.
//! - Offers: `find_gate_strategy`, `winners_circuit`, `GateStrategyFault`, the laws.
//! - Proved: for all bytes, if `find_gate_strategy` returns a strategy, they spell a formula of
//!   gates and a trace, and its circuit wins: any values of its inputs have a run; in each run the
//!   output of the formula, computed gate by gate, is true if the trace says `r sat`, and false if
//!   it says `r unsat`; and no output depends on an input that is not in an earlier block. Inputs
//!   and outputs are bound variables alone. A refusal is that of `verify_question`.
//! - Read first: `find_gate_strategy`, `winners_win_the_gates`; the definition `IsWinningCircuit`.
//! - Tested only: the crate `gate_tests`: worked texts with their circuits.
//! - Trusted: nothing.
#![tactic(auto)]

mod fault;
mod laws;
mod strategy;
mod winning;

pub use fault::GateStrategyFault;
pub use laws::{inputs_of_gates_are_free, winners_win_the_gates};
pub use strategy::find_gate_strategy;
pub use winning::winners_circuit;
