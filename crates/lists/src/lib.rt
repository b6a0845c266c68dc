//! Lists that lie one after the other in one buffer, and laws of the items of a list.
//!
//! - Owns: lists of lists.
//! - Offers: `GrowingLists`; `InRange`, `see_all`; lemmas on the item at a place, and on distinct
//!   numbers.
//! - Proved: whole lists stay as they are while the unfinished one grows, and each is found at its
//!   place.
//! - Read first: `GrowingLists`.
//! - Tested only: the crate `formula_tests`: a list that is made whole; and by the tests of all that
//!   keep literals or antecedents.
//! - Trusted: nothing.
//! - On the map: lists in one buffer.
#![tactic(auto)]

mod growing_lists;
mod offsets;
mod ranges;

pub use growing_lists::GrowingLists;
pub use ranges::{InRange, see_all};
