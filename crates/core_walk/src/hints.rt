//! The positions of the antecedents of the core.

ghost use Rattle.std.specs.Prelude.{◌≡◌, ◌↔◌, ℕ, ◌<◌, Some, length, IfOk, IfSome, IsTrue};
ghost use Rattle.trace_items.specs.Inferences.{Inference, IsAt, IsOnlyAt};
ghost use Rattle.core_walk.specs.Earlier.{FindsEarlier};

use std::alloc::{AllocError, Global};
use trace_items::KeptSteps;

/// The positions of antecedents, as the pass from the goal down finds them. The pass forwards takes
/// them back from the last one on. Contracts say nothing of them: each is compared with its
/// antecedent when it is taken.
#[derive(Drop)]
pub(crate) struct Hints {
    positions: Vec<u32>,
    /// Whether positions are kept: only if a look-up reads a table, and so may wait for memory.
    keeps: bool,
    /// The position at which the antecedent was found that was last looked for elsewhere than right
    /// before its step.
    last: usize,
}

/// Whether the step at a position has this number, if there is one.
#[inline(always)]
fn is_at<T: KeptSteps>(trace: &T, position: usize, number: u64) -> bool
    ensures found { IsTrue result ↔ (step : Inference) × IsAt (T.steps trace.now) position step
        × (step.number ≡ number) }
    ensures only { IsTrue result → IsOnlyAt (T.steps trace.now) position number }
{
    position < trace.len() && trace.number(position) == number
}

impl Hints {
    /// No positions. They are kept if the last of the steps has another number than it would have
    /// if the numbers went up one by one.
    pub(crate) fn new<T: KeptSteps>(alloc: Global, trace: &T) -> Hints {
        let count = trace.len();
        let keeps = count > 1
            && count < u32::MAX as usize
            && trace.number(count - 1).wrapping_sub(trace.number(0)) != count as u64 - 1;
        Hints {
            positions: Vec::new(alloc),
            keeps,
            last: 0,
        }
    }

    /// The position of the step with a number, if positions are kept and it is one of two: the one
    /// right before a position, or the one before the antecedent that was found last.
    #[inline(always)]
    fn guess<T: KeptSteps>(&mut self, trace: &T, position: usize, number: u64) -> Option<usize>
        ensures found { IfSome result (λ i.
            (step : Inference) × IsAt (T.steps trace.now) i step × (step.number ≡ number)) }
        ensures only { IfSome result (λ i. IsOnlyAt (T.steps trace.now) i number) }
    {
        if !self.keeps {
            return None;
        }
        let before = position.wrapping_sub(1);
        if is_at(trace, before, number) {
            return Some(before);
        }
        let next = self.last.wrapping_sub(1);
        if is_at(trace, next, number) {
            self.last = next;
            return Some(next);
        }
        None
    }

    /// The position of the step with a number, an antecedent of the step at a position. If a
    /// look-up would read a table, the position is guessed first.
    #[inline(always)]
    fn find<T: KeptSteps>(&mut self, trace: &T, position: usize, number: u64) -> Option<usize>
        ensures found { IfSome result (λ i.
            (step : Inference) × IsAt (T.steps trace.now) i step × (step.number ≡ number)) }
        ensures only { (i : ℕ) (step : Inference) → IsAt (T.steps trace.now) i step
            → step.number ≡ number → result ≡ Some i }
    {
        if let Some(guess) = self.guess(trace, position, number) {
            return Some(guess);
        }
        let found = trace.position(number)?;
        self.last = found;
        Some(found)
    }

    /// Keeps where an antecedent was found. If it was not found, any other position serves.
    ///
    /// # Errors
    /// If an allocation fails.
    fn push(&mut self, found: Option<usize>) -> Result<(), AllocError> {
        if self.keeps {
            let position = found.unwrap_or(0).min(u32::MAX as usize);
            self.positions.push(position as u32)?;
        }
        Ok(())
    }

    /// The position that was kept last, which is no longer kept.
    fn pop(&mut self) -> Option<usize> {
        let position = self.positions.pop()?;
        Some(position as usize)
    }

    /// The position of the step with a number, an antecedent of the step at a position, if it is
    /// before that. The position at which it was found is kept.
    ///
    /// # Errors
    /// If an allocation fails.
    #[inline(always)]
    pub(crate) fn find_earlier<T: KeptSteps>(
        &mut self,
        trace: &T,
        position: usize,
        number: u64,
    ) -> Result<Option<usize>, AllocError>
        ensures { IfOk result (FindsEarlier (T.steps trace.now) position number) }
    {
        let found = self.find(trace, position, number);
        self.push(found)?;
        match found {
            Some(earlier) if earlier < position => Ok(Some(earlier)),
            _ => Ok(None),
        }
    }

    /// The same position as `find_earlier`: the one that was kept last is taken back and tried
    /// first.
    #[inline(always)]
    pub(crate) fn find_again<T: KeptSteps>(
        &mut self,
        trace: &T,
        position: usize,
        number: u64,
    ) -> Option<usize>
        requires { position < length (T.steps trace.now) }
        ensures { FindsEarlier (T.steps trace.now) position number result }
    {
        if let Some(index) = self.pop() {
            if index < position && trace.number(index) == number {
                return Some(index);
            }
        }
        let index = trace.position(number)?;
        if index < position { Some(index) } else { None }
    }
}
