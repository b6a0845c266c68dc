//! Steps, however they are kept.

ghost use Rattle.std.specs.Prelude.{◌≡◌, ℕ, ◌<◌, ◌≤◌, List, Some, length, nat_eq, IfSome};
ghost use Rattle.std.specs.List.{AllByRecursion, IsDistinct};
ghost use Rattle.trace_items.specs.Inferences.{Inference, HasFewAntecedents, IsAt, IsOnlyAt, numbers};

use qbf_core::Lit;

/// Steps in the order of a file, however they are kept.
pub trait Steps {
    /// The steps in the order of the file.
    ghost steps: { Self → List Inference };

    /// How many steps there are.
    fn len(&self) -> usize
        ensures len { result ≡ length (steps self.now) }
        ensures few { AllByRecursion HasFewAntecedents (steps self.now) }
        ensures distinct { IsDistinct nat_eq (numbers (steps self.now)) };

    /// The number of the step at position `i`, counted from 0; `i` is below `len()`.
    fn number(&self, i: usize) -> u64
        requires { i < length (steps self.now) }
        ensures value { (step : Inference) → IsAt (steps self.now) i step → result ≡ step.number }
        ensures only { IsOnlyAt (steps self.now) i result };

    /// The literals of the step at position `i`, as written; `i` is below `len()`.
    fn lits(&self, i: usize) -> &[Lit]
        requires { i < length (steps self.now) }
        ensures { (step : Inference) → IsAt (steps self.now) i step → result.now ≡ step.lits };

    /// The numbers of the antecedents of the step at position `i`, as written; `i` is below
    /// `len()`.
    fn ants(&self, i: usize) -> &[u64]
        requires { i < length (steps self.now) }
        ensures value { (step : Inference) → IsAt (steps self.now) i step → result.now ≡ step.ants }
        ensures few { length result.now ≤ 2 };

    /// The position of the step with a number: `Some(i)` exactly if the step at i has it.
    fn position(&self, number: u64) -> Option<usize>
        ensures found { IfSome result (λ i.
            (step : Inference) × IsAt (steps self.now) i step × (step.number ≡ number)) }
        ensures only { (i : ℕ) (step : Inference) → IsAt (steps self.now) i step
            → step.number ≡ number → result ≡ Some i };
}
