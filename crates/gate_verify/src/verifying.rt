//! The check of a trace against a formula of gates.

ghost use Rattle.std.specs.Prelude.{IfSome};
ghost use Rattle.qrp_check.specs.Checked.{call_of};
ghost use Rattle.gate_verify.specs.Checked.{IsChecked, StopsOnceRead};
ghost use Rattle.gate_verify.specs.Headline.{Headline};

use crate::clauses::read_in_clauses;
use crate::fault::Unverified;
use qbf_text::Source;
use qrp_check::{Rules, find_truth_of};
use std::alloc::Global;

/// The truth of a formula of gates (QCIR-14), as a trace (QRP) proves it of the clauses, both from
/// their bytes. The formula is read before the trace.
///
/// For all bytes of a formula of gates and of a trace, it returns a truth exactly if they spell a
/// formula of gates and a trace whose sets agree with the prefix of its clauses and whose last empty
/// step, with all steps below that one, follows from them by the rules; and whenever it does, the
/// formula of gates is false if the trace says `r unsat` and true if it says `r sat`. The clauses
/// are those that `formula_in_clauses` makes.
///
/// # Errors
/// The fault of the formula of gates with its line, or `TooLong`, and then the trace is not pulled;
/// else that of `find_truth_of`. Q1 exactly if the first source failed, and Q11 if an allocation
/// failed before the trace was read, both on line 0.
pub fn verify_question<A: Source, B: Source>(
    alloc: Global,
    question: &mut A,
    trace: &mut B,
    rules: Rules,
) -> Result<bool, Unverified>
    // The sentence above, if both sources tell their bytes.
    ensures headline { IfSome (A.remaining question.old)
        (λ a. IfSome (B.remaining trace.old) (λ b. Headline rules a b result)) }
    ensures checked { IsChecked rules (call_of A.Source question.old question.new)
        (call_of B.Source trace.old trace.new) result }
    // If the trace was read, nothing is read past the separator after its result word but at most
    // 4,096 bytes.
    ensures stops { StopsOnceRead (B.remaining trace.old) (B.remaining trace.new) result }
{
    let formula = read_in_clauses(alloc, question)?;
    match find_truth_of(alloc, &formula, trace, rules) {
        Ok(truth) => Ok(truth),
        Err(fault) => Err(Unverified::Proof(fault)),
    }
}
