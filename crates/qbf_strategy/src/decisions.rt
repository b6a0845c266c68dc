//! Decisions as they lie in memory.

use lists::GrowingLists;
use qbf_core::Lit;

/// Decisions, in their order, as the literals of a proof's steps: those that a step keeps when all
/// that is reducible is taken out, and those that its antecedents have beyond these.
///
/// The player wants a clause to be false and a cube to be true. So each decision says: if all the
/// kept literals are as the player wants them, so are the removed ones to be.
#[derive(Drop)]
pub struct Decisions {
    /// The kept literals, a list for each decision.
    pub kept: GrowingLists<Lit>,
    /// The removed literals, a list for each decision.
    pub removed: GrowingLists<Lit>,
}
