//! Reading a trace item by item.

ghost use Rattle.std.specs.Prelude.{◌≡◌, ℕ, ◌<◌, ◌+◌, true, false, Some, Ok};
ghost use Rattle.std.specs.Prelude.{List, [], length, IfOk, IfErr};
ghost use Rattle.qbf_tokens.specs.Tokens.{tokens};
ghost use Rattle.qbf_text.specs.WholeTexts.{TellsFailures};
ghost use Rattle.qbf_tokens.specs.declared.token.Comments.TheVariants.{Qrp};
ghost use Rattle.qrp.specs.declared.fault.TraceFault.TheVariants.{P1, P9};
ghost use Rattle.qbf_text.specs.Reading.{HasFailed};
ghost use Rattle.qrp.specs.NextItem.{items_left, is_last, stage_after, numbers_with};
ghost use Rattle.qrp.specs.NextItem.{GivesNextItem, IsDone, IsProper, StandsOnLine, StopsAfterItem};
ghost use Rattle.qrp.specs.Items.{ReadsItem, IsItem, IsDriven};
ghost use Rattle.qrp.specs.Reading.{items};

use crate::fault::{TraceFault, trace_fault};
use crate::items::ItemGrammar;
use qbf_text::{Scanner, Source, read_by};
use qbf_tokens::Comments;
use std::alloc::Global;
use std::marker::Model;
use step_index::StepIndex;
use trace_items::{Item, Outcome};

/// How far a reader is: before the header, between lists, or done for good.
#[derive(Clone, Copy)]
enum Stage {
    AtHeader,
    AtLists,
    HasResult(Outcome),
    HasFault(TraceFault, u64),
}

/// How far a reader is after a result.
fn stage_after(answer: &Result<Item, (TraceFault, u64)>) -> Stage
    ensures { result ≡ stage_after answer.now }
{
    match answer {
        Ok(Item::Result(outcome)) => Stage::HasResult(*outcome),
        Ok(_) => Stage::AtLists,
        Err((fault, line)) => Stage::HasFault(*fault, *line),
    }
}

/// The next item, of a reader that is not done.
#[inline(always)]
fn read_item<S: Source>(
    grammar: &mut ItemGrammar,
    alloc: Global,
    scanner: &mut Scanner,
    source: &mut S,
) -> Result<Item, (TraceFault, u64)>
    requires ready { ¬ HasFailed scanner.old }
    ensures reads { ReadsItem grammar.old.state grammar.new.kept.numbers scanner.old
        (S.remaining source.old) scanner.new (S.remaining source.new) result }
    ensures item { IsItem grammar.old grammar.new result }
    ensures devices { IsDriven scanner.new (length scanner.old.pending + S.bound source.old)
        (S.bound source.new) (S.failures source.old) (S.failures source.new) result }
{
    match read_by(grammar, scanner, source) {
        Ok(()) => match grammar.give(alloc) {
            Ok(item) => Ok(item),
            Err(_) => Err((TraceFault::P9, 0)),
        },
        Err(error) => Err(trace_fault(error)),
    }
}

/// Reads a trace (the text form of QRP) item by item, and keeps only the numbers of its steps.
///
/// Contracts see a `Position`: how far the reader is, and the numbers of the steps that it gave.
#[derive(Drop)]
pub struct TraceReader {
    alloc: Global,
    scanner: Scanner,
    grammar: ItemGrammar,
    stage: Stage,
}

impl Model for TraceReader {
    ghost use Rattle.qrp.specs.NextItem.{Position, IsInStage};
    ghost use Rattle.qrp.specs.Items.{Stands};

    ghost Value = { Position };

    ghost view = { λ r.
        record { scanner = r.scanner; numbers = r.grammar.kept.numbers; stage = r.stage } };

    ghost invariant = { λ r.
        Stands r.stage r.grammar × IsInStage r.stage r.scanner r.grammar.kept.numbers };
}

impl TraceReader {
    /// A reader at the beginning of a trace. It takes no memory.
    #[tactic(auto, unfolding(crate::specs::NextItem::items_left))]
    pub fn new(alloc: Global) -> TraceReader
        ensures left { (bytes : List ℕ)
            → items_left result (Some bytes) ≡ Some (items (tokens Qrp bytes)) }
        ensures numbers { result.numbers ≡ [] }
        ensures fresh { ¬ IsDone result }
    {
        TraceReader {
            alloc,
            scanner: Scanner::new(Comments::Qrp),
            grammar: ItemGrammar::new(alloc),
            stage: Stage::AtHeader,
        }
    }

    /// The next item: the header, then each set, each step and the result, each when it is
    /// complete. Each call is lent the same source.
    ///
    /// # Errors
    /// An error is the first fault and its line, counted from 1; P1 (the source failed) and P9 (out
    /// of memory) stand on line 0. After the result every call gives the result, and after a fault
    /// that fault. Nothing is pulled then.
    pub fn next_item<S: Source>(&mut self, source: &mut S) -> Result<Item, (TraceFault, u64)>
        // All that was left to give is the result, followed by all that is left now.
        ensures gives { GivesNextItem (items_left self.old (S.remaining source.old))
            (items_left self.new (S.remaining source.new)) result }
        // Nothing is read past an item but a separator and the buffered bytes, which are at most
        // 4,096.
        ensures stops { ¬ IsDone self.old → IfOk result (λ i.
            StopsAfterItem self.old (S.remaining source.old) self.new (S.remaining source.new) i) }
        // The result and a fault are given for good, and nothing is pulled then.
        ensures last { is_last result ≡ true → IsDone self.new }
        ensures more { is_last result ≡ false → ¬ IsDone self.new }
        ensures done { IsDone self.old → (self.new ≡ self.old) × (source.new ≡ source.old) }
        ensures stays { IsDone self.old → is_last result ≡ true }
        // The result says how far the reader is, even if the bytes of the source are not known.
        ensures stage { self.new.stage ≡ stage_after result }
        // After any other item less can still come.
        ensures less { is_last result ≡ false →
            length self.new.scanner.pending + S.bound source.new
            < length self.old.scanner.pending + S.bound source.old }
        ensures proper { IfOk result (λ i. IsProper self.old.numbers i) }
        ensures numbers { self.new.numbers ≡ numbers_with self.old.numbers result }
        // P1 is first given in a call in which the source failed; if it failed, the call says so.
        ensures devices { ¬ IsDone self.old → TellsFailures P1 P9 (S.failures source.old)
            (S.failures source.new) result }
        // P1 and P9 stand on line 0 each time.
        ensures lines { IfErr result (λ e. StandsOnLine e.0 e.1) }
    {
        match self.stage {
            Stage::HasResult(outcome) => Ok(Item::Result(outcome)),
            Stage::HasFault(fault, line) => Err((fault, line)),
            Stage::AtHeader | Stage::AtLists => {
                let answer = read_item(&mut self.grammar, self.alloc, &mut self.scanner, source);
                self.stage = stage_after(&answer);
                answer
            }
        }
    }

    /// The numbers of the steps that were given, in the order of the file. It takes no memory.
    pub fn into_index(self) -> StepIndex
        ensures { result ≡ self.numbers }
    {
        let parts = self.grammar.into_parts();
        let lists = parts.lists;
        lists.index
    }
}
