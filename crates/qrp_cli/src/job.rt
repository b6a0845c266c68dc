//! The jobs of the program.

use qrp_check::Rules;

/// A job that the program is to do.
#[derive(Clone, Copy, Debug, PartialEq, Eq)]
pub enum Job {
    /// Tells whether the trace proves its result of the formula.
    Check(Rules),
    /// Prints the trace with only the steps that its proof needs.
    Trim(Rules),
    /// Prints the canonical text of the formula.
    Format,
}
