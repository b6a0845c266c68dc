//! The two sources of a job.

/// The sources of a formula and a trace.
#[derive(Drop)]
pub struct Sources<F, T> {
    /// The one of the formula.
    pub formula: F,
    /// The one of the trace.
    pub trace: T,
}
