//! A step of a trace, by its position.

/// The step at a position of a trace.
#[derive_where(Clone, Copy)]
pub(crate) struct StepAt<'a, T> {
    pub(crate) trace: &'a T,
    pub(crate) position: usize,
}
