//! The rules of Q-resolution and of term resolution are complete, and truth is a winning strategy:
//! the definitions of `qbf_core`, on which it stands alone, are held from the other side.
//!
//! - Owns: derivations by the plain rules, and strategies of the two players of a formula.
//! - Offers: the derivations, to `qrp_completeness`; nothing that runs.
//! - Proved: a formula is true exactly if the existential player has a winning strategy, and false
//!   exactly if the universal player has one; of a false formula the rules derive the empty clause,
//!   and of a true one the empty cube.
//! - Read first: `truth_is_a_winning_strategy`, `the_rules_are_complete`.
//! - Tested only: nothing: no code derives or plays.
//! - Trusted: nothing.
#![tactic(auto)]

mod laws;

pub use laws::{a_formula_is_true_or_false, the_rules_are_complete, truth_is_a_winning_strategy};
