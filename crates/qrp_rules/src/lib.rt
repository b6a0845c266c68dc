//! The rules of a step, on sets of literals: initial clauses and cubes, reducts and resolvents.
//!
//! - Owns: the rules of a step, on sets of literals and on ordered lists.
//! - Offers: `Side`, `Rules`, `RuleFault`; `reduct_fault`, `resolvent_fault` and the same on
//!   ordered lists; `initial_clause_fault`; `Resolution`, `Reducible`; `normalize`.
//! - Proved: each rule test decides its definition, and names the first fault.
//! - Read first: `reduct_fault`, `resolvent_fault`, `Side::initial_fault`.
//! - Tested only: over the built program, by rows of `tests/check.rows`: worked steps of both sides,
//!   each rule with each of its faults.
//! - Trusted: nothing.
//! - On the map: the rules of a step | each test decides its rule, S4 to S12.
#![tactic(auto)]

mod blocks;
mod fault;
mod initial;
mod normalizing;
mod reduct;
mod resolution;
mod resolvent;
mod rules;
mod side;
mod walks;
mod written;

pub use blocks::{Reducible, is_bound_by, reducible_in};
pub use fault::RuleFault;
pub use initial::{has_clash, has_common_literal, initial_clause_fault, reduced_clause};
pub use normalizing::{normal_form, normalize};
pub use reduct::{is_reduct, ordered_reduct_fault, reduct_fault};
pub use resolution::{Resolution, is_pivot, reducible_in_parents};
pub use resolvent::{ordered_resolvent_fault, resolvent_fault};
pub use rules::Rules;
pub use side::{Clauses, Cubes, Side};
pub use walks::may_omit;
pub use written::{is_among, is_ordered};
