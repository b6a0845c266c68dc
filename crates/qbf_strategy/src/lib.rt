//! The strategy of a player of a formula, as a list of decisions, and the circuit of them.
//!
//! - Owns: decisions, the value that they give a variable, the play by them, and circuits that
//!   compute them.
//! - Offers: `Decisions`, `circuit_of`; `decisions_are_a_strategy`.
//! - Proved: decisions are a strategy: a value depends on the other player's values before it. An
//!   output of a circuit has in each run the value that is decided on its variable. There is a
//!   circuit of all decisions that see what stands before, if memory and AIGER's numbers suffice.
//! - Read first: `circuit_of`, `decisions_are_a_strategy`.
//! - Tested only: that gates are shared, which only the size of a circuit shows.
//! - Trusted: nothing.
//! - On the map: Decisions, circuit_of | decisions, and their circuit.
#![tactic(auto)]

mod assembling;
mod chosen;
mod combining;
mod conditions;
mod counts;
mod decisions;
mod entries;
mod laws;
mod ordered;
mod path;
mod placed;
mod places;

pub use assembling::circuit_of;
pub use decisions::Decisions;
pub use laws::decisions_are_a_strategy;
