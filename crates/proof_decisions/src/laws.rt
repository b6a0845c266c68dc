//! Laws of the definitions, as contracts of functions that do nothing.

ghost use Rattle.proof_decisions.specs.Laws.{CircuitsWin, DecisionsSeeBefore, DecisionsWin};

/// A player who keeps to the decisions of a proof wins every play: a refutation gives the universal
/// player decisions by which the matrix fails, and a proof of truth gives the existential player
/// decisions by which it holds, whatever the other player does. It does nothing when it runs.
pub fn decisions_win()
    ensures { DecisionsWin }
{}

/// Each decision of a proof sees only variables that stand in the prefix before those that it sets.
/// It does nothing when it runs.
pub fn decisions_see_before()
    ensures { DecisionsSeeBefore }
{}

/// A circuit that computes the decisions of a proof is a strategy by which the player wins: any
/// values of the other player's variables have a run, in each run the matrix fails for a refutation
/// and holds for a proof of truth, and no output depends on an input that is not in an earlier
/// block. It does nothing when it runs.
pub fn circuits_win()
    ensures { CircuitsWin }
{}
