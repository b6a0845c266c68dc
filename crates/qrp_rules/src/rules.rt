//! Which rules a check applies.

ghost use Rattle.std.specs.Prelude.{◌≡◌, true, false};

/// Which rules a check applies to a step with two antecedents.
#[derive(Clone, Copy, Debug, PartialEq, Eq)]
pub struct Rules {
    /// Whether the pivot may have either quantifier.
    pub any_pivot: bool,
}

impl Rules {
    /// The pivot has the deciding quantifier: Q-resolution (Kleine Büning, Karpinski, Flögel 1995)
    /// and term resolution (Giunchiglia, Narizzano, Tacchella 2006).
    pub fn plain() -> Rules
        ensures { result ≡ record { any_pivot = false } }
    {
        Rules { any_pivot: false }
    }

    /// The pivot may have either quantifier: QU-resolution on clauses (Van Gelder, *Contributions
    /// to the theory of practical quantified Boolean formula solving*, 2012), and its dual on
    /// cubes. All else is as in `plain`.
    pub fn any_pivot() -> Rules
        ensures { result ≡ record { any_pivot = true } }
    {
        Rules { any_pivot: true }
    }
}
