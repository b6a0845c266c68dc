//! The jobs of the program.

use qrp_check::Rules;

/// A job that the program is to do.
#[derive(Clone, Copy, Debug, PartialEq, Eq)]
pub enum Job {
    /// Writes the clauses of the formula of gates.
    Clauses,
    /// Tells whether the trace proves its result of the clauses.
    Check(Rules),
    /// Writes the circuit of the winner by the trace, in AIGER's binary format if the second value is
    /// true, and else in its ASCII format.
    Strategy(Rules, bool),
}
