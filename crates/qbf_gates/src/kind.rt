//! Kinds of gates.

ghost use Rattle.std.specs.Prelude.{◌≡◌, length};
ghost use Rattle.qbf_gates.specs.Kept.{fits};

/// What a gate computes of its inputs.
#[derive(Clone, Copy, Debug, PartialEq, Eq)]
pub enum GateKind {
    /// The conjunction of any number of inputs.
    Conjunction,
    /// The disjunction of any number of inputs.
    Disjunction,
    /// The exclusive disjunction of two inputs.
    Difference,
    /// The second input if the first is true, else the third.
    Choice,
}

impl GateKind {
    /// Whether a gate of this kind has so many inputs: any number for a conjunction or a
    /// disjunction, two for an exclusive disjunction, three for a choice.
    pub fn fits(self, inputs: usize) -> bool
        ensures { result ≡ fits self inputs }
    {
        match self {
            GateKind::Conjunction | GateKind::Disjunction => true,
            GateKind::Difference => inputs == 2,
            GateKind::Choice => inputs == 3,
        }
    }
}
