//! The check of a trace against a formula, however both came: the sets, the goal, the rules of the
//! steps that it needs, and the laws that a proof shows its result.
//!
//! - Owns: the calculus on a trace: sets, goal, laws.
//! - Offers: `check`, `check_kept`, `check_marked`, `CheckFault`, `Verified`, the laws.
//! - Proved: `check` finds exactly whether a trace proves its result, and else the first fault; what
//!   proves its result shows it.
//! - Read first: `check`; `core_steps_keep_the_truth`, `a_proof_shows_its_result`,
//!   `trimming_keeps_the_proof`.
//! - Tested only: the crate `program_tests`: worked proofs of both sides with their cores, chains
//!   of ten thousand steps.
//! - Trusted: nothing.
//! - On the map: check | the first fault, C1 to C6.
#![tactic(auto)]

mod agree;
mod checking;
mod fault;
mod laws;
mod marks;
mod verified;

pub use checking::{check, check_kept, check_marked, is_sat};
pub use core_walk::Context;
pub use fault::CheckFault;
pub use laws::{
    a_proof_shows_its_result, a_step_has_one_fault, a_trace_has_one_verdict,
    core_steps_keep_the_truth, trimming_keeps_the_proof, wider_rules_keep_the_proof,
};
pub use verified::Verified;
