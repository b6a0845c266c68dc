//! What a check found.

/// The truth that a check found, and the steps that show it.
#[derive(Drop)]
pub struct Verified {
    /// The truth of the formula.
    pub truth: bool,
    /// The positions of the steps that show it, counted from 0 and strictly ascending.
    pub core: Vec<usize>,
}
