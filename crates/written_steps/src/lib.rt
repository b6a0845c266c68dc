//! Steps as they are written: tests that accept those that follow, whatever the order of their
//! literals and however often one is repeated.
//!
//! - Owns: tests that accept a step as it is written, and what is kept from one step to the next.
//! - Offers: `accepts_reduct`, `accepts_resolvent`; `InitialSteps`, `InitialClauses`,
//!   `ordered_initial_fault`; `SeenLits`; `push_distinct`; `Parts`.
//! - Proved: what a test accepts follows by the rule, and is clean and bound as it is written.
//! - Read first: `accepts_reduct`, `accepts_resolvent`, `InitialSteps::accepts_initial`,
//!   `ordered_initial_fault`.
//! - Tested only: that each step that follows is accepted, which only the time of a check shows.
//! - Trusted: `indexmap`.
//! - On the map: steps as they are written | what is accepted follows.
#![tactic(auto)]

mod clause_index;
mod cube_fault;
mod distinct;
mod initial_cubes;
mod initial_steps;
mod parts;
mod seen;
mod two_lists;
mod written_reduct;
mod written_resolvent;

pub use clause_index::InitialClauses;
pub use distinct::push_distinct;
pub use initial_steps::{InitialSteps, ordered_initial_fault};
pub use parts::{Part, Parts, ShortResolvent, ShortStep};
pub use seen::SeenLits;
pub use written_reduct::accepts_reduct;
pub use written_resolvent::accepts_resolvent;
