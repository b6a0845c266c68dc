//! The walk over the core of a trace: from the goal down to mark it, and forwards to follow it.
//!
//! - Owns: the core of a trace, when a step of it follows, and the walk that sees whether each
//!   does.
//! - Offers: `walk_core`, `Context`, `CoreFault`.
//! - Proved: `walk_core` marks exactly the core if each of its steps follows from those before it,
//!   and else names the first that does not, with its first fault.
//! - Read first: `walk_core`.
//! - Tested only: that a short step of a long antecedent, and an antecedent with repetitions, take
//!   no longer than others, which only the time of a check shows.
//! - Trusted: nothing.
//! - On the map: walk_core | marks of the core, or its first fault.
#![tactic(auto)]

mod distinct_lits;
mod fault;
mod following;
mod hints;
mod marks;
mod premises;
mod step;
mod step_at;
mod uneven;
mod walking;

pub use fault::CoreFault;
pub use step::Context;
pub use walking::walk_core;
