//! The circuit of decisions.

ghost use Rattle.std.specs.Prelude.{◌≡◌, ◌≤◌, ◌<◌, ◌+◌, ℕ, [], List, IfOk, OnOk, length, nat_eq};
ghost use Rattle.std.specs.Prelude.{Some, true, ◌⊎◌, slice_get, ◌++◌, ◌∷◌, if◌then◌else◌};
ghost use Rattle.std.specs.Result.{IsErrOf};
ghost use Rattle.qbf_core.specs.Blocks.{is_quantifier, pairs};
ghost use Rattle.aiger.specs.Building.{next_of};
ghost use Rattle.qbf_strategy.specs.Chains.{Chain, Sayings, with_lists};
ghost use Rattle.qbf_strategy.specs.Chosen.{AddsInput, AddsOutput, AreAssembled, AreEntriesOf};
ghost use Rattle.qbf_strategy.specs.Chosen.{HasChain, IsUnassembled};
ghost use Rattle.qbf_strategy.specs.Computing.{Computes, SeesBefore, size};
ghost use Rattle.qbf_strategy.specs.Conditions.{scene};
ghost use Rattle.qbf_strategy.specs.Costs.{cost_all, cost_among};
ghost use Rattle.qbf_strategy.specs.Decisions.{decisions_by};
ghost use Rattle.qbf_strategy.specs.Winning.{opponent, variables_of};

use crate::chosen::chosen;
use crate::conditions::Work;
use crate::counts::Counts;
use crate::decisions::Decisions;
use crate::entries::Entries;
use crate::placed::{Here, Task};
use crate::places::Places;
use aiger::{Circuit, GateFault, Output, Wire, trimmed};
use lists::GrowingLists;
use qbf_core::{Lit, Prefix, Quantifier, Var};
use std::alloc::{AllocError, Global};

/// The quantifier of the other player.
fn opponent(mine: Quantifier) -> Quantifier
    ensures { result ≡ opponent mine }
{
    match mine {
        Quantifier::All => Quantifier::Exists,
        Quantifier::Exists => Quantifier::All,
    }
}

/// Whether two quantifiers are the same.
fn is_quantifier(left: Quantifier, right: Quantifier) -> bool
    ensures { result ≡ is_quantifier left right }
{
    left == right
}

/// Puts the number of a variable at the end of others, if it is wanted.
fn push_if(numbers: &mut Vec<u32>, wanted: bool, var: Var) -> Result<(), AllocError>
    ensures { OnOk result (numbers.new.items ≡ numbers.old.items
        ++ (if wanted then var ∷ [] else [])) }
{
    if wanted {
        numbers.push(var.number())?;
    }
    Ok(())
}

/// The numbers of the variables of a quantifier.
fn variables_of(
    alloc: Global,
    prefix: &Prefix,
    quantifier: Quantifier,
) -> Result<Vec<u32>, AllocError>
    ensures { IfOk result (λ v. v.items ≡ variables_of quantifier (pairs prefix.now)) }
{
    let mut numbers = Vec::new(alloc);
    for place in 0..prefix.len() {
        let (found, var) = prefix.pair(place);
        push_if(&mut numbers, is_quantifier(found, quantifier), var)?;
    }
    Ok(numbers)
}

/// Gates and wires for the first variables of a prefix.
#[derive(Drop)]
struct Assembly {
    /// The gates, and the conditions that are built of them.
    work: Work,
    /// The wires of the variables, by place.
    known: Vec<Wire>,
    /// The outputs.
    outputs: Vec<Output>,
    /// The number of the first gate.
    first: u32,
    /// The number of the next input.
    input: u32,
}

impl Assembly {
    /// No wires yet, for so many inputs and decisions.
    fn new(alloc: Global, inputs: usize, decisions: usize) -> Result<Assembly, GateFault>
        ensures unassembled { IfOk result (IsUnassembled inputs) }
        ensures long { IsErrOf result GateFault.TooLong → 2147483647 ≤ inputs }
        ensures room { IsErrOf result GateFault.NoMemory → inputs < 2147483647 }
    {
        if inputs >= 2147483647 {
            return Err(GateFault::TooLong);
        }
        let first = inputs as u32 + 1;
        Ok(Assembly {
            work: Work::new(alloc, first, decisions)?,
            known: Vec::new(alloc),
            outputs: Vec::new(alloc),
            first,
            input: 1,
        })
    }

    /// Gives the next variable, one of the other player, its input.
    fn add_input(&mut self) -> Result<(), AllocError>
        requires number { self.old.input < self.old.first }
        requires room { self.old.first ≤ 2147483648 }
        ensures { OnOk result (AddsInput self.old self.new) }
    {
        self.known.push(Wire::new(self.input, false))?;
        self.input += 1;
        Ok(())
    }

    /// Gives the next variable, one of the player, its output.
    fn add_output(&mut self, task: &Task, entries: &Entries, name: Var) -> Result<(), GateFault>
        requires assembled { AreAssembled task.now.mine
            (pairs task.now.prefix.now) task.now.kept.now.whole
            task.now.removed.now.whole task.now.plain self.old }
        requires place { length self.old.known.items < length entries.now.heads.items }
        requires chain { (last : ℕ)
            → slice_get entries.now.heads.items (length self.old.known.items) ≡ Some last
            → HasChain (scene task.now.mine (pairs task.now.prefix.now) self.old.known.items
            task.now.kept.now.whole) entries.now.entries.items last }
        ensures adds { OnOk result (AddsOutput task.now.mine (pairs task.now.prefix.now)
            task.now.kept.now.whole task.now.plain entries.now name self.old self.new) }
        ensures long { IsErrOf result GateFault.TooLong → task.now.plain ≡ true
            → (last v : ℕ) (said : Sayings)
            → slice_get entries.now.heads.items (length self.old.known.items) ≡ Some last
            → Chain entries.now.entries.items v last said
            → 2147483648 ≤ next_of self.old.work.gates
            + cost_among task.now.kept.now.whole (v ∷ []) said }
    {
        let last = entries.last(self.known.len());
        let here = Here {
            task: *task,
            known: &self.known,
        };
        let wire = chosen(&here, &mut self.work, entries, last)?;
        self.outputs.push(Output {
            name: name.number(),
            wire,
        })?;
        self.known.push(wire)?;
        Ok(())
    }

    /// Gives the next variable its wire.
    fn add_variable(&mut self, task: &Task, entries: &Entries) -> Result<(), GateFault>
        requires assembled { AreAssembled task.now.mine
            (pairs task.now.prefix.now) task.now.kept.now.whole
            task.now.removed.now.whole task.now.plain self.old }
        requires entries { AreEntriesOf task.now.mine (pairs task.now.prefix.now)
            task.now.kept.now.whole task.now.removed.now.whole entries.now }
        requires inputs { self.old.first
            ≡ length (variables_of (opponent task.now.mine) (pairs task.now.prefix.now)) + 1 }
        requires place { length self.old.known.items < length (pairs task.now.prefix.now) }
        ensures assembled { OnOk result
            (AreAssembled task.now.mine
            (pairs task.now.prefix.now) task.now.kept.now.whole
            task.now.removed.now.whole task.now.plain self.new) }
        ensures count { OnOk result (length self.new.known.items
            ≡ length self.old.known.items + 1) }
        ensures first { OnOk result (self.new.first ≡ self.old.first) }
        ensures long { IsErrOf result GateFault.TooLong → task.now.plain ≡ true
            → 2147483648 ≤ self.old.first + cost_all task.now.kept.now.whole
            (with_lists task.now.mine 0 task.now.removed.now.whole []) }
    {
        let (quantifier, name) = task.prefix.pair(self.known.len());
        if is_quantifier(quantifier, task.mine) {
            self.add_output(task, entries, name)
        } else {
            self.add_input()?;
            Ok(())
        }
    }
}

/// Gates and wires for all variables of a prefix.
fn assemble(
    alloc: Global,
    task: &Task,
    entries: &Entries,
    inputs: usize,
) -> Result<Assembly, GateFault>
    requires entries { AreEntriesOf task.now.mine (pairs task.now.prefix.now)
        task.now.kept.now.whole task.now.removed.now.whole entries.now }
    requires inputs { inputs
        ≡ length (variables_of (opponent task.now.mine) (pairs task.now.prefix.now)) }
    ensures assembled { IfOk result
        (AreAssembled task.now.mine (pairs task.now.prefix.now) task.now.kept.now.whole
        task.now.removed.now.whole task.now.plain) }
    ensures count { IfOk result (λ a. length a.known.items ≡ length (pairs task.now.prefix.now)) }
    ensures first { IfOk result (λ a. a.first ≡ inputs + 1) }
    ensures long { IsErrOf result GateFault.TooLong → task.now.plain ≡ true → 2147483647 ≤ inputs
        + cost_all task.now.kept.now.whole
        (with_lists task.now.mine 0 task.now.removed.now.whole []) }
{
    let mut assembly = Assembly::new(alloc, inputs, task.kept.whole_len())?;
    for _place in 0..task.prefix.len() {
        assembly.add_variable(task, entries)?;
    }
    Ok(assembly)
}

/// The decisions of a player over a prefix.
#[derive(Clone, Copy)]
struct Plan<'a> {
    /// The prefix.
    prefix: &'a Prefix,
    /// The quantifier of the player.
    mine: Quantifier,
    /// The literals that each decision sees.
    kept: &'a GrowingLists<Lit>,
    /// The literals that each decision sets.
    removed: &'a GrowingLists<Lit>,
}

/// The circuit of decisions, with all gates that were put.
fn whole_circuit(alloc: Global, task: &Task) -> Result<Circuit, GateFault>
    requires few { length task.now.removed.now.whole ≤ length task.now.kept.now.whole }
    requires sees { SeesBefore (pairs task.now.prefix.now) (decisions_by task.now.mine
        task.now.kept.now.whole task.now.removed.now.whole) }
    ensures computes { IfOk result (λ c. Computes task.now.mine (pairs task.now.prefix.now)
        (decisions_by task.now.mine task.now.kept.now.whole task.now.removed.now.whole) c) }
    ensures long { IsErrOf result GateFault.TooLong → task.now.plain ≡ true → 2147483647
        ≤ length (variables_of (opponent task.now.mine) (pairs task.now.prefix.now))
        + size (decisions_by task.now.mine task.now.kept.now.whole task.now.removed.now.whole) }
{
    let inputs = variables_of(alloc, task.prefix, opponent(task.mine))?;
    let entries = Entries::new(alloc, task)?;
    let assembly = assemble(alloc, task, &entries, inputs.len())?;
    Ok(Circuit {
        inputs,
        outputs: assembly.outputs,
        gates: assembly.work.gates.into_gates(),
    })
}

/// The circuit of decisions, with all gates that were put, along paths or by plain chains.
fn planned_circuit(alloc: Global, plan: &Plan, plain: bool) -> Result<Circuit, GateFault>
    requires few { length plan.now.removed.now.whole ≤ length plan.now.kept.now.whole }
    requires sees { SeesBefore (pairs plan.now.prefix.now) (decisions_by plan.now.mine
        plan.now.kept.now.whole plan.now.removed.now.whole) }
    ensures computes { IfOk result (λ c. Computes plan.now.mine (pairs plan.now.prefix.now)
        (decisions_by plan.now.mine plan.now.kept.now.whole plan.now.removed.now.whole) c) }
    ensures long { IsErrOf result GateFault.TooLong → plain ≡ true → 2147483647
        ≤ length (variables_of (opponent plan.now.mine) (pairs plan.now.prefix.now))
        + size (decisions_by plan.now.mine plan.now.kept.now.whole plan.now.removed.now.whole) }
{
    let places = Places::new(alloc, plan.prefix)?;
    let counts = Counts::new(alloc, plan.prefix, &places, plan.kept)?;
    let task = Task {
        mine: plan.mine,
        prefix: plan.prefix,
        places: &places,
        kept: plan.kept,
        removed: plan.removed,
        counts: &counts,
        plain,
    };
    whole_circuit(alloc, &task)
}

/// The same, without the gates that no output needs.
fn trimmed_circuit(alloc: Global, plan: &Plan, plain: bool) -> Result<Circuit, GateFault>
    requires few { length plan.now.removed.now.whole
        ≤ length plan.now.kept.now.whole }
    requires sees { SeesBefore (pairs plan.now.prefix.now) (decisions_by plan.now.mine
        plan.now.kept.now.whole plan.now.removed.now.whole) }
    ensures computes { IfOk result (λ c. Computes plan.now.mine (pairs plan.now.prefix.now)
        (decisions_by plan.now.mine plan.now.kept.now.whole
        plan.now.removed.now.whole) c) }
    ensures long { IsErrOf result GateFault.TooLong → plain ≡ true → 2147483647
        ≤ length (variables_of (opponent plan.now.mine) (pairs plan.now.prefix.now))
        + size (decisions_by plan.now.mine plan.now.kept.now.whole
        plan.now.removed.now.whole) }
{
    let circuit = planned_circuit(alloc, plan, plain)?;
    Ok(trimmed(alloc, circuit)?)
}

/// The one of two circuits with fewer gates.
fn smaller(one: Circuit, other: Circuit) -> Circuit
    ensures { (result ≡ one) ⊎ (result ≡ other) }
{
    if other.gates.len() < one.gates.len() {
        other
    } else {
        one
    }
}

/// A circuit along paths, or that by plain chains if this is smaller. Chains are tried only if
/// decisions are few: of many, paths have much in common.
fn or_chains(alloc: Global, plan: &Plan, by_paths: Circuit) -> Result<Circuit, GateFault>
    requires few { length plan.now.removed.now.whole
        ≤ length plan.now.kept.now.whole }
    requires sees { SeesBefore (pairs plan.now.prefix.now) (decisions_by plan.now.mine
        plan.now.kept.now.whole plan.now.removed.now.whole) }
    requires computes { Computes plan.now.mine (pairs plan.now.prefix.now)
        (decisions_by plan.now.mine plan.now.kept.now.whole
        plan.now.removed.now.whole) by_paths }
    ensures computes { IfOk result (λ c. Computes plan.now.mine (pairs plan.now.prefix.now)
        (decisions_by plan.now.mine plan.now.kept.now.whole
        plan.now.removed.now.whole) c) }
    ensures long { IsErrOf result GateFault.TooLong → 2147483647
        ≤ length (variables_of (opponent plan.now.mine) (pairs plan.now.prefix.now))
        + size (decisions_by plan.now.mine plan.now.kept.now.whole
        plan.now.removed.now.whole) }
{
    if plan.kept.whole_len() > 1000 {
        return Ok(by_paths);
    }
    let by_chains = trimmed_circuit(alloc, plan, true)?;
    Ok(smaller(by_paths, by_chains))
}

/// The circuit by which the player of a quantifier keeps to decisions: its inputs are the variables
/// of the other player, and its outputs those of the player, in the order of the prefix. In each
/// run an output has the value that is decided on its variable; if nothing is decided on it, the
/// value is some constant of the output.
///
/// Each decision sees only variables that stand before those that it sets, and all of them are
/// bound.
///
/// # Errors
/// `NoMemory` if an allocation fails. `TooLong` if AIGER has no numbers for the gates. This cannot
/// be if the inputs and, for each decision, the literals that it sets, each counted once and once
/// for each literal that the decision sees, are few: with one more for each decision, fewer than
/// 2147483647.
pub fn circuit_of(
    alloc: Global,
    prefix: &Prefix,
    mine: Quantifier,
    decisions: &Decisions,
) -> Result<Circuit, GateFault>
    requires few { length decisions.now.removed.whole ≤ length decisions.now.kept.whole }
    requires sees { SeesBefore (pairs prefix.now)
        (decisions_by mine decisions.now.kept.whole decisions.now.removed.whole) }
    ensures computes { IfOk result (λ c. Computes mine (pairs prefix.now)
        (decisions_by mine decisions.now.kept.whole decisions.now.removed.whole) c) }
    ensures long { IsErrOf result GateFault.TooLong → 2147483647
        ≤ length (variables_of (opponent mine) (pairs prefix.now))
        + size (decisions_by mine decisions.now.kept.whole decisions.now.removed.whole) }
{
    let plan = Plan {
        prefix,
        mine,
        kept: &decisions.kept,
        removed: &decisions.removed,
    };
    match trimmed_circuit(alloc, &plan, false) {
        Ok(by_paths) => or_chains(alloc, &plan, by_paths),
        Err(GateFault::NoMemory) => Err(GateFault::NoMemory),
        // Paths may put three gates for a turn, and the bound is one of chains.
        Err(GateFault::TooLong) => trimmed_circuit(alloc, &plan, true),
    }
}
