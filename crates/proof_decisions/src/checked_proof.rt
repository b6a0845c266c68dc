//! A proof of a formula, however it came.

use qbf_core::Formula;

/// A formula, and a trace that proves its result of it.
#[derive_where(Clone, Copy)]
pub struct CheckedProof<'a, T> {
    /// The formula.
    pub formula: &'a Formula,
    /// The trace.
    pub trace: &'a T,
}
