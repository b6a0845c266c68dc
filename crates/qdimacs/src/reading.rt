//! Reading a formula.

ghost use Rattle.std.specs.Prelude.{IfSome, OnOk};
ghost use Rattle.qdimacs.specs.declared.fault.FormulaFault.TheVariants.{F1, F9};
ghost use Rattle.std.specs.Io.KnownBytes.{IsAtEnd};
ghost use Rattle.qbf_tokens.specs.Tokens.{tokens};
ghost use Rattle.qbf_text.specs.WholeTexts.{TellsFailures};
ghost use Rattle.qbf_tokens.specs.declared.token.Comments.TheVariants.{Qdimacs};
ghost use Rattle.qdimacs.specs.Faults.{IsReadAs};
ghost use Rattle.qdimacs.specs.Reading.{reads_bytes, Gives};

use crate::fault::FormulaFault;
use crate::grammar::FormulaGrammar;
use qbf_core::Formula;
use qbf_text::{Source, read_text};
use qbf_tokens::Comments;
use std::alloc::Global;

/// Reads a formula in QDIMACS 1.1 to the end of its source: the formula that the bytes spell, or
/// the first fault and its line.
///
/// Numbers are at most 2147483647. Clauses are kept as written. Beyond the standard, neighbouring
/// sets of one quantifier are joined, empty sets are dropped, the innermost block may be universal,
/// clauses may be empty, repeat literals or hold both literals of a variable, and comment lines may
/// stand anywhere. Against it, free variables are refused.
///
/// # Errors
/// F1 exactly if the source failed, F9 only if an allocation failed, else F2 to F8 as they are
/// listed.
pub fn read_formula<S: Source>(
    alloc: Global,
    source: &mut S,
) -> Result<Formula, (FormulaFault, u64)>
    // The formula if the bytes spell one, else the first fault.
    ensures reads { IfSome (S.remaining source.old)
        (λ bytes. IsReadAs (tokens Qdimacs bytes) result) }
    // The result is that of the function `reads_bytes`.
    ensures exact { Gives result (reads_bytes (S.remaining source.old)) }
    // No byte remains after a formula.
    ensures rest { OnOk result (IsAtEnd (S.remaining source.new)) }
    // F1 exactly if the source failed; F1 and F9 stand on line 0.
    ensures devices { TellsFailures F1 F9 (S.failures source.old) (S.failures source.new) result }
{
    let mut grammar = FormulaGrammar::new(alloc);
    match read_text(&mut grammar, Comments::Qdimacs, source) {
        Ok(()) => Ok(grammar.into_formula()),
        Err(error) => Err(error.fault(FormulaFault::F1, FormulaFault::F9)),
    }
}
