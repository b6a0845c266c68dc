//! The numbers of steps, in their order, and the position of each.
//!
//! - Owns: the numbers of steps.
//! - Offers: `StepIndex`.
//! - Proved: the numbers are kept in their order, and each is found at its position alone.
//! - Read first: `StepIndex::number`, `position`, `contains`, `push`.
//! - Tested only: the crate `trace_tests`: numbers with gaps, far numbers, numbers that come twice.
//! - Trusted: `indexmap`.
//! - On the map: the numbers of steps.
#![tactic(auto)]

mod index;
mod number_set;
mod reach;
mod sparse;

pub use index::StepIndex;
