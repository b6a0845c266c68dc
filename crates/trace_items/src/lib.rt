//! Traces: the header, the quantifier sets, the steps and the result of each, and the sets, the steps
//! and their antecedents of a whole one however they are kept.
//!
//! - Owns: header, sets, steps and result of a trace, and whole traces.
//! - Offers: `Item`, `Header`, `QuantSet`, `Step`, `Outcome`; `Trace`, `CompactTrace`; `Parts`;
//!   `Steps`, `KeptSteps`, `LentSteps`; `KeptSets`, `LentSets`, `FlatSets`; `Antecedents`,
//!   `AntecedentPair`; `StepLists`, `LentLists`, `CompactLists`; `AntecedentLists`,
//!   `AntecedentWords`.
//! - Proved: one contract for sets and one for steps, however they are kept; sets in one buffer are
//!   the sets that were added; the literals and the antecedents of each step are kept in the order of
//!   the steps, however they are packed; each trace is well formed.
//! - Read first: `Steps`, `KeptSteps`, `KeptSets`, `Trace::push_step`, `FlatSets::push`, `StepLists`.
//! - Tested only: by the tests of `qrp`, and by the crate `trace_tests`: antecedents that a word
//!   holds, and greater ones.
//! - Trusted: nothing.
//! - On the map: header, sets, steps, result | Trace, CompactTrace.
#![tactic(auto)]

mod antecedent_lists;
mod antecedents;
mod compact_trace;
mod flat_sets;
mod item;
mod kept_steps;
mod parts;
mod step_lists;
mod steps;
mod trace;

pub use antecedent_lists::{AntecedentLists, AntecedentWords};
pub use antecedents::{AntecedentPair, Antecedents};
pub use compact_trace::CompactTrace;
pub use flat_sets::{FlatSets, KeptSets, LentSets};
pub use item::{Header, Item, Outcome, QuantSet, Step};
pub use kept_steps::{KeptSteps, LentSteps};
pub use parts::{Lists, Part, Parts, close};
pub use step_lists::{CompactLists, LentLists, StepLists};
pub use steps::Steps;
pub use trace::{FlatTrace, Trace};
