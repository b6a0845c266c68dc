//! A trace without the steps that its goal does not need.

ghost use Rattle.std.specs.Prelude.{◌≡◌, ◌<◌, [], ◌++◌, length, OnOk, IfOk};
ghost use Rattle.std.specs.List.{AllByRecursion};
ghost use Rattle.std.specs.List.Sorted.{IsStrictlyIncreasing};
ghost use Rattle.trace_items.specs.Derivations.{IsWellFormed, steps_at};
ghost use Rattle.trace_items.specs.Inferences.{IsAt};
ghost use Rattle.trace_check.specs.Trim.{trimmed_trace};

use qbf_core::Lit;
use std::alloc::{AllocError, Global};
use std::marker::Model;
use trace_check::Verified;
use trace_items::{Header, QuantSet, Steps, Trace};

/// Another set with the same variables.
fn copy_set(alloc: Global, set: &QuantSet) -> Result<QuantSet, AllocError>
    ensures { IfOk result (λ copy. copy ≡ set.now) }
{
    Ok(QuantSet {
        quantifier: set.quantifier,
        vars: Vec::from_slice(alloc, &set.vars)?,
    })
}

/// A step, lent from the trace that keeps it. Contracts see an `Inference`.
#[derive(Drop)]
struct LentStep<'a> {
    number: u64,
    lits: &'a [Lit],
    ants: &'a [u64],
}

impl<'a> Model for LentStep<'a> {
    ghost use Rattle.trace_items.specs.Inferences.{Inference};

    ghost Value = { Inference };

    ghost view = { λ s. record { number = s.number; lits = s.lits.now; ants = s.ants.now } };
}

/// The step at a position.
fn step_at(trace: &Trace, position: usize) -> LentStep<'_>
    requires { position < length trace.now.steps }
    ensures { IsAt trace.now.steps position result }
{
    LentStep {
        number: trace.number(position),
        lits: trace.lits(position),
        ants: trace.ants(position),
    }
}

/// Adds copies of sets at the end of a trace.
fn push_sets(alloc: Global, trace: &mut Trace, sets: &[QuantSet]) -> Result<(), AllocError>
    ensures { OnOk result (trace.new ≡ record trace.old { sets = trace.old.sets ++ sets.now }) }
{
    for set in sets {
        let copy = copy_set(alloc, set)?;
        match trace.push_set(copy) {
            Ok(()) => {}
            Err(_) => return Err(AllocError),
        }
    }
    Ok(())
}

/// Adds copies of the steps at some positions of a trace to another that has none.
#[tactic(auto, using(trace_check::proofs::StepsAt::fresh_at, trace_check::proofs::StepsAt::next_at, trace_items::proofs::Positions::own_numbers, lists::proofs::DistinctNumbers::all_at))]
fn push_steps(shorter: &mut Trace, trace: &Trace, positions: &[usize]) -> Result<(), AllocError>
    requires sound { IsWellFormed trace.now }
    requires empty { shorter.old.steps ≡ [] }
    requires rises { IsStrictlyIncreasing positions.now }
    requires within { AllByRecursion (λ i. i < length trace.now.steps) positions.now }
    ensures { OnOk result
        (shorter.new ≡ record shorter.old { steps = steps_at trace.now.steps positions.now }) }
{
    for position in positions {
        let step = step_at(trace, *position);
        shorter.push_lists(step.number, step.lits, step.ants)?;
    }
    Ok(())
}

/// The header of the trace with only the steps at some positions, which it counts.
#[tactic(auto, using(qrp::proofs::WrittenParts::length_at))]
fn header_at(trace: &Trace, positions: &[usize]) -> Header
    requires { AllByRecursion (λ i. i < length trace.now.steps) positions.now }
    ensures { result ≡ (trimmed_trace trace.now positions.now).header }
{
    Header {
        vars: trace.header().vars,
        steps: positions.len() as u64,
    }
}

/// The trace without the steps outside the core.
///
/// Sets, result and the number of variables in the header stay as written. The steps at the
/// positions of the core stay in their order, with their numbers, literals and antecedents, and the
/// header counts them. The positions are strictly ascending and below the number of steps, as
/// `check` gives them.
///
/// # Errors
/// If an allocation fails.
pub fn trim(alloc: Global, trace: &Trace, verified: &Verified) -> Result<Trace, AllocError>
    requires rises { IsStrictlyIncreasing verified.now.core.items }
    requires within { AllByRecursion (λ i. i < length trace.now.steps) verified.now.core.items }
    ensures { IfOk result (λ t. t ≡ trimmed_trace trace.now verified.now.core.items) }
{
    let header = header_at(trace, &verified.core);
    let mut shorter = Trace::new(alloc, header, trace.result());
    push_sets(alloc, &mut shorter, trace.sets())?;
    push_steps(&mut shorter, trace, &verified.core)?;
    Ok(shorter)
}
