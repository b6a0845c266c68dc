//! What a caller wants of a strategy.

use qrp_check::Rules;

/// How a trace is checked, and how the circuit of its winner is written.
#[derive(Clone, Copy)]
pub struct Wanted {
    /// The rules by which the trace is checked.
    pub rules: Rules,
    /// Whether the circuit is written in AIGER's binary format, and not in its ASCII format.
    pub binary: bool,
}
