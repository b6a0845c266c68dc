//! Laws of the definitions, as contracts of functions that do nothing.

ghost use Rattle.qbf_strategy.specs.Laws.{DecisionsAreAStrategy};

/// Decisions are a strategy: the value of a variable depends on the values of the other player's
/// variables before it, and on no others. It does nothing when it runs.
pub fn decisions_are_a_strategy()
    ensures { DecisionsAreAStrategy }
{}
