//! The decisions of a proof, however it came: what each step of its core sets, and that a player who
//! keeps to them wins.
//!
//! - Owns: the decisions of a proof, one for each step of its core that sets something.
//! - Offers: `decisions_of`, `CheckedProof`, the laws.
//! - Proved: a player who keeps to the decisions of a proof wins every play, and a circuit that
//!   computes them is a strategy by which that player wins.
//! - Read first: `decisions_of`, `circuits_win`.
//! - Tested only: nothing.
//! - Trusted: nothing.
//! - On the map: decisions_of | decisions that win.
#![tactic(auto)]

mod checked_proof;
mod decisions;
mod laws;
mod literal_sets;
mod origins;
mod removing;

pub use checked_proof::CheckedProof;
pub use decisions::decisions_of;
pub use laws::{circuits_win, decisions_see_before, decisions_win};
