//! The two streams of a program.

/// A stream that a program reports on.
#[derive(Clone, Copy, Debug, PartialEq, Eq)]
pub enum Stream {
    /// The one for what was asked for.
    Out,
    /// The one for errors.
    Errors,
}

/// The two streams of a program.
#[derive(Drop)]
pub struct Streams<O, E> {
    /// The one for what was asked for.
    pub out: O,
    /// The one for errors.
    pub err: E,
}
