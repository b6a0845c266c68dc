//! Laws of the definitions, as contracts of functions that do nothing.

ghost use Rattle.qbf_completeness.specs.Laws.{Completeness, IsDecided};
ghost use Rattle.qbf_completeness.specs.Strategies.{FalsityIsWon, TruthIsWon};

/// From every false formula the rules derive the empty clause (Kleine Büning, Karpinski, Flögel
/// 1995), and from every true one the empty cube (Giunchiglia, Narizzano, Tacchella 2006), in fewer
/// than (2 + p) 2 ^ d steps: for clauses p variables are universal and d existential, and for cubes
/// p are existential and d universal. It does nothing when it runs.
pub fn the_rules_are_complete()
    ensures { Completeness }
{}

/// A closed formula is true or false. It does nothing when it runs.
pub fn a_formula_is_true_or_false()
    ensures { IsDecided }
{}

/// A closed formula is true exactly if the existential player has a strategy by which the matrix
/// holds in the end, and false exactly if the universal player has one by which it does not. It
/// does nothing when it runs.
pub fn truth_is_a_winning_strategy()
    ensures won { TruthIsWon }
    ensures lost { FalsityIsWon }
{}
