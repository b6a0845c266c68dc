//! Wires, by AIGER's numbers.

ghost use Rattle.std.specs.Prelude.{◌≡◌, ◌^◌, ◌<◌, ◌≤◌};
ghost use Rattle.aiger.specs.Wires.{constant, number_of, opposite, turned};

use std::marker::Model;

/// A variable of a circuit, or its negation. Variables are numbered below 2147483648: 0 is the
/// constant false, and after it come the inputs and the gates.
#[derive(Clone, Copy, Debug, PartialEq, Eq)]
pub struct Wire {
    /// Twice the number of the variable, and one more for its negation.
    number: u32,
}

impl Model for Wire {
    ghost use Rattle.aiger.specs.Wires.{Wire, number_of, wire_of};

    ghost Value = { Wire };

    ghost view = { λ w. wire_of w.number };

    ghost inverse = { λ w. record { number = number_of w } };
}

impl Wire {
    /// The variable of this number, which is below 2147483648, or its negation.
    pub fn new(var: u32, negated: bool) -> Wire
        requires { var < 2 ^ 31 }
        ensures { result ≡ record { var = var; negated = negated } }
    {
        Wire {
            number: if negated { 2 * var + 1 } else { 2 * var },
        }
    }

    /// The wire that always has this value.
    pub fn constant(value: bool) -> Wire
        ensures { result ≡ constant value }
    {
        Wire::new(0, value)
    }

    /// The number of its variable.
    pub fn var(self) -> u32
        ensures value { result ≡ self.var }
        ensures range { result < 2 ^ 31 }
    {
        self.number / 2
    }

    /// Whether it is the negation of its variable.
    pub fn is_negated(self) -> bool
        ensures { result ≡ self.negated }
    {
        self.number % 2 == 1
    }

    /// The wire with the other value.
    pub fn opposite(self) -> Wire
        ensures { result ≡ opposite self }
    {
        Wire::new(self.var(), !self.is_negated())
    }

    /// The number that AIGER writes for it: twice its variable, and one more if it is negated.
    pub fn number(self) -> u32
        ensures { result ≡ number_of self }
    {
        self.number
    }

    /// The wire, or the one with the other value.
    pub fn turned(self, negated: bool) -> Wire
        ensures { result ≡ turned self negated }
    {
        if negated { self.opposite() } else { self }
    }
}
