//! Laws of the definitions, as contracts of functions that do nothing.

ghost use Rattle.qrp_completeness.specs.Laws.{EachResultHasAProof, FewVariablesAreSmall};
ghost use Rattle.qrp_completeness.specs.Laws.{ResultsAreProofs, SmallFormulasAreVerified};
ghost use Rattle.qrp_completeness.specs.Laws.{SmallResultsHaveTraces};
ghost use Rattle.qrp_completeness.specs.Textbook.{TextbookProofsAreProofs};

/// A proof by the rules as the literature states them is a proof to this checker, step by step.
/// They are Q-resolution (Kleine Büning, Karpinski, Flögel 1995) and term resolution (Giunchiglia,
/// Narizzano, Tacchella 2006): a step is an axiom, reduces one literal, or is a whole resolvent. It
/// does nothing when it runs.
pub fn textbook_proofs_are_proofs()
    ensures { TextbookProofsAreProofs }
{}

/// If a formula is false, steps refute it, and if it is true, steps prove it; so it is true exactly
/// if it has a proof of truth, and false exactly if it has a refutation. The numbers of the steps
/// are not bounded here. It does nothing when it runs.
pub fn each_result_has_a_proof()
    ensures proof { EachResultHasAProof }
    ensures exactly { ResultsAreProofs }
{}

/// A small formula has a well-formed trace that proves its result, and with each text of the
/// formula the bytes of that trace are verified, unless an allocation or a device fails. Small are
/// all formulas of at most 63 variables, all false ones of at most 32 existential variables, and
/// all true ones of at most 32 universal variables. It does nothing when it runs.
pub fn each_small_formula_has_a_trace()
    ensures trace { SmallResultsHaveTraces }
    ensures verified { SmallFormulasAreVerified }
    ensures small { FewVariablesAreSmall }
{}
