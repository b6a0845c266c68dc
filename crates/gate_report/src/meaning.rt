//! The meaning of each fault of a formula of gates, in one sentence.

ghost use Rattle.std.specs.Prelude.{◌≡◌, ◌≤◌, length};
ghost use Rattle.gate_report.specs.Meanings.{gate_meaning};

use crate::refusal::GateRefusal;

/// The meaning of each fault of a formula of gates, by its number; there is no Q0.
pub const GATES: [&str; 14] = [
    "",
    "The formula of gates could not be read.",
    "The first line of the formula of gates is not that of QCIR-14.",
    "The formula of gates has a line that is not allowed at its place.",
    "The formula of gates gives a name twice.",
    "The formula of gates uses a gate before its definition.",
    "The formula of gates has free variables.",
    "The formula of gates has a gate with a quantifier.",
    "The formula of gates has a gate with more or fewer inputs than its kind has.",
    "The formula of gates ends before its output.",
    "The formula of gates has more than 2147483647 names.",
    "Out of memory: nothing is known.",
    "The formula of gates uses a name that no line gives.",
    "The formula of gates has more clauses than the 2147483647 that QDIMACS can count.",
];

impl GateRefusal {
    /// The meaning of the fault, in one sentence of at most 127 bytes, or an empty text if there is
    /// no such fault.
    pub fn meaning(&self) -> &'static str
        ensures is { result.now ≡ gate_meaning self.now }
        ensures short { length result.now ≤ 127 }
    {
        match GATES.get(usize::from(self.number)) {
            Some(text) => text,
            None => "",
        }
    }
}
