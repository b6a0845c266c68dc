//! The texts of a formula and of its proof that were handed over.

ghost use Rattle.std.specs.Prelude.{◌≡◌, ◌≤◌, ◌<◌, Ok, length};
ghost use Rattle.std.specs.List.{AllByRecursion};
ghost use Rattle.qbf_core.specs.Blocks.{pairs, variables};
ghost use Rattle.qbf_text.specs.Written.{IsPut};
ghost use Rattle.qdimacs.specs.Grammar as formulas;
ghost use Rattle.qdimacs.specs.Reading.{read_formula};
ghost use Rattle.qrp.specs.Grammar as traces;
ghost use Rattle.qrp.specs.Reading.{read_trace};
ghost use Rattle.trace_check.specs.Trim.{trimmed_trace};
ghost use Rattle.qrp_handle.specs.Texts.{greatest, formula_written, trace_written};

use crate::proof::Proof;
use qbf_core::Prefix;
use qbf_text::{Sink, SinkFault};
use qdimacs::write_formula_up_to;
use qrp::{Frame, write_framed, write_framed_at};
use trace_items::Outcome;

/// The greatest variable that is bound, or 0 if none is.
#[tactic(auto, using(crate::proofs::Greatest::next_greatest))]
fn greatest_variable(prefix: &Prefix) -> u32
    ensures greatest { result ≡ greatest (variables (pairs prefix.now)) }
    ensures number { result ≤ 2147483647 }
{
    let mut most = 0;
    for i in 0..prefix.len() {
        let (_, var) = prefix.pair(i);
        most = var.number().max(most);
    }
    most
}

impl Proof {
    /// Writes the formula in canonical form. Its header names the greatest variable that is bound.
    ///
    /// # Errors
    /// As of `write_formula`.
    #[tactic(auto, using(crate::proofs::Greatest::all_up_to))]
    pub fn write_formula<K: Sink>(&self, sink: &mut K) -> Result<(), SinkFault>
        ensures put { IsPut K.written K.failures K.failed_last sink.old sink.new
            (formulas.text (formula_written self.now.formula)) result }
        // The text is read as this formula.
        ensures reads_back { read_formula (formulas.text (formula_written self.now.formula))
            ≡ Ok (formula_written self.now.formula) }
    {
        let greatest = greatest_variable(self.formula.prefix());
        write_formula_up_to(&self.formula, greatest, sink)
    }

    /// What the text of a trace with this outcome has beside its steps.
    fn frame(&self, outcome: Outcome) -> Frame
        ensures { result ≡ record {
          vars = greatest (variables (pairs self.now.formula.blocks));
          result = outcome;
        } }
    {
        Frame {
            vars: u64::from(greatest_variable(self.formula.prefix())),
            result: outcome,
        }
    }

    /// Writes the steps as a trace with this outcome, in canonical form. It has no sets, and its
    /// header names the greatest variable that is bound and the number of steps.
    ///
    /// # Errors
    /// As of `write_trace`.
    pub fn write_trace<K: Sink>(&self, outcome: Outcome, sink: &mut K) -> Result<(), SinkFault>
        ensures put { IsPut K.written K.failures K.failed_last sink.old sink.new (traces.text
            (trace_written self.now.formula self.now.trace.steps outcome)) result }
        // The text is read as this trace.
        ensures reads_back { read_trace (traces.text (trace_written self.now.formula self.now.trace.steps outcome))
            ≡ Ok (trace_written self.now.formula self.now.trace.steps outcome) }
    {
        write_framed(&self.trace, self.frame(outcome), sink)
    }

    /// Writes the same trace with only the steps at these positions, each below the number of
    /// steps.
    ///
    /// # Errors
    /// As of `write_trace`.
    pub fn write_steps_at<K: Sink>(
        &self,
        outcome: Outcome,
        positions: &[usize],
        sink: &mut K,
    ) -> Result<(), SinkFault>
        requires { AllByRecursion (λ i. i < length self.now.trace.steps) positions.now }
        ensures { IsPut K.written K.failures K.failed_last sink.old sink.new
            (traces.text (trimmed_trace
            (trace_written self.now.formula self.now.trace.steps outcome) positions.now)) result }
    {
        write_framed_at(&self.trace, self.frame(outcome), positions, sink)
    }
}
