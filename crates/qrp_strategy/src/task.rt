//! What the program is asked for.

use qrp_check::Rules;

/// What the program is asked for, beside its files.
#[derive(Clone, Copy)]
pub struct Task {
    /// The rules by which the trace is checked.
    pub rules: Rules,
    /// Whether the circuit is to be written in AIGER's binary format.
    pub binary: bool,
}
