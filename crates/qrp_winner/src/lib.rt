//! From a proof that is checked, the strategy of the winner as a circuit.
//!
//! - Owns: the decisions of a proof, one for each step of its core that sets something, and the
//!   circuit of them.
//! - Offers: `find_strategy`, `strategy_of`, `decisions_of`, the laws.
//! - Proved: for all bytes, if `find_strategy` returns a strategy, they spell a formula and a trace,
//!   and its circuit wins: in each run the matrix fails for `r unsat` and holds for `r sat`, and no
//!   output depends on an input that is not in an earlier block. A refusal is that of the check.
//!   A verified proof has a strategy, if memory and AIGER's numbers suffice.
//! - Read first: `find_strategy`.
//! - Tested only: the number of gates.
//! - Trusted: nothing.
//! - On the map: find_strategy: a circuit | by which the winner wins.
#![tactic(auto)]

mod fault;
mod strategy;

pub use fault::StrategyFault;
pub use proof_decisions::{
    CheckedProof, circuits_win, decisions_of, decisions_see_before, decisions_win,
};
pub use strategy::{Strategy, find_strategy, strategy_of};
