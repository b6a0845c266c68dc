//! The check of texts in memory.

ghost use Rattle.std.specs.Prelude.{◌≡◌, ◌⊎◌, IsOk, Ok};
ghost use Rattle.qbf_core.specs.Qbf.{Qbf};
ghost use Rattle.qdimacs.specs.Reading.{read_formula};
ghost use Rattle.qrp.specs.Grammar.{text};
ghost use Rattle.trace_items.specs.declared.item.Outcome.{Outcome};
ghost use Rattle.qrp_check.specs.Headline.{Headline};
ghost use Rattle.qrp_check.specs.Verdict.{IsOutOfMemory};
ghost use Rattle.qrp_completeness.specs.Laws.{HasTrace};

use qbf_text::SliceSource;
use qrp_check::{Fault, Rules, Verified, verify};
use std::alloc::Global;

/// Whether a trace proves its result of a formula, both as texts in memory: as `verify`.
///
/// Each text of a formula is verified with the canonical text of each trace that the formula has,
/// unless an allocation fails. Each small formula has one (`each_small_formula_has_a_trace`).
///
/// # Errors
/// As of `verify`.
pub fn verify_texts(
    alloc: Global,
    formula: &[u8],
    trace: &[u8],
    rules: Rules,
) -> Result<Verified, Fault>
    ensures headline { Headline rules formula.now trace.now result }
    ensures complete { (f : Qbf) (states : Outcome) (has : HasTrace f states)
        → read_formula formula.now ≡ Ok f → trace.now ≡ text has.trace
        → IsOk result ⊎ IsOutOfMemory result }
{
    let mut formula_source = SliceSource::new(formula);
    let mut trace_source = SliceSource::new(trace);
    verify(alloc, &mut formula_source, &mut trace_source, rules)
}
