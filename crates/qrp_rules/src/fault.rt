//! Why a step does not follow.

/// Why a step does not follow; the names in the order in which they are looked at.
#[derive(Clone, Copy, Debug, PartialEq, Eq)]
pub enum RuleFault {
    /// The step holds a clashing pair.
    S1 = 1,
    /// The step holds an unbound variable.
    S2,
    /// An antecedent is not the number of an earlier step.
    S3,
    /// Clauses: no clean clause has the step as a reduct.
    S4,
    /// Cubes: some clause is not met.
    S5,
    /// A literal of the step is not in its antecedent.
    S6,
    /// A removed literal is not reducible in the antecedent.
    S7,
    /// The antecedents clash in no variable.
    S8,
    /// They clash in more than one.
    S9,
    /// The pivot does not have the deciding quantifier.
    S10,
    /// A literal of the step is not in the resolvent.
    S11,
    /// A literal of the resolvent is missing, and reducible neither in it nor in each antecedent
    /// that holds it.
    S12,
}
