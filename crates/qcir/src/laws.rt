//! Laws that follow from the definitions of reading and of the grammar together.

ghost use Rattle.qcir.specs.Laws.{ReadsBack, ReadsQuestions, ReadsWellFormed};

/// Three laws. A formula of gates is read from bytes exactly if they spell it by the grammar, so
/// they spell at most one. What is read is well formed, and its variables and gates are numbered in
/// the order of their names. Its canonical text is read as it again. It does nothing when it runs.
pub fn reading_laws()
    ensures questions { ReadsQuestions }
    ensures well_formed { ReadsWellFormed }
    ensures back { ReadsBack }
{}
