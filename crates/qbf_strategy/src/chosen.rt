//! What is decided on a variable, as gates.

ghost use Rattle.std.specs.Prelude.{◌≡◌, ◌<◌, true, false, ◌≤◌, ◌+◌, ◌∷◌, [], ℕ, IfOk, OnOk, length};
ghost use Rattle.std.specs.Result.{IsErrOf};
ghost use Rattle.aiger.specs.Building.{next_of};
ghost use Rattle.qbf_strategy.specs.Assembling.{AllBelow};
ghost use Rattle.qbf_strategy.specs.Chains.{Chain, Sayings};
ghost use Rattle.qbf_strategy.specs.Chosen.{HasChain, IsChosen};
ghost use Rattle.qbf_strategy.specs.Conditions.{IsReady, Scene, scene_of};
ghost use Rattle.qbf_strategy.specs.Costs.{cost_among};
ghost use Rattle.qbf_strategy.specs.Ordering.{AreBuilt, AreOrdered, AreWiresOf};
ghost use Rattle.qbf_strategy.specs.Paths.{IsEntered, StandsBelow};

use crate::conditions::{Work, decided};
use crate::entries::{Entries, Entry};
use crate::ordered::OrderedWires;
use crate::placed::{Here, Task, put_wires};
use aiger::{GateFault, Wire};
use std::alloc::AllocError;

/// The value of the last entry. If no condition holds, any value will do, and with this one the
/// last entries of one value need no gates.
fn value_of_last(entries: &Entries, last: u32) -> bool
    requires { last ≤ length entries.now.entries.items }
{
    if last == 0 {
        return false;
    }
    entries.entry(last).value
}

/// What is decided by the entries from this one back to the first of its variable, as a chain: one
/// gate for each entry, and the gates of each condition once.
fn chained(here: &Here, work: &mut Work, entries: &Entries, last: u32) -> Result<Wire, GateFault>
    requires chain { HasChain (scene_of here.now) entries.now.entries.items last }
    requires built { AreBuilt (scene_of here.now) work.old }
    ensures value { IfOk result (IsChosen (scene_of here.now) entries.now.entries.items last
        true work.old.gates work.new.gates work.new.conditions.items) }
    ensures any { IfOk result (IsChosen (scene_of here.now) entries.now.entries.items last
        false work.old.gates work.new.gates work.new.conditions.items) }
    ensures long { IsErrOf result GateFault.TooLong → (v : ℕ) (said : Sayings)
        → Chain entries.now.entries.items v last said → 2147483648 ≤ next_of work.old.gates
        + cost_among here.now.task.kept.now.whole (v ∷ []) said }
    ensures ordered { IfOk result (λ _. AreOrdered (scene_of here.now) work.new.ordered) }
{
    let otherwise = value_of_last(entries, last);
    let mut wire = work.gates.constant(otherwise);
    let mut number = last;
    while number > 0 {
        let entry = entries.entry(number);
        wire = decided(here, work, &entry, wire)?;
        number = entry.before();
    }
    Ok(wire)
}

/// Whether a decision sets more than one literal, so that its condition is looked at for each.
fn sets_several(task: &Task, decision: usize) -> bool {
    decision < task.removed.whole_len() && task.removed.get(decision).len() > 1
}

/// Keeps the wires of a decision's condition, if it will be looked at again.
fn keep_wires(
    task: &Task,
    decision: usize,
    wires: &[Wire],
    ordered: &mut OrderedWires,
) -> Result<(), AllocError>
    ensures { OnOk result ((at : Scene) → AreOrdered at ordered.old
        → AreWiresOf at decision wires.now → AreOrdered at ordered.new) }
{
    if sets_several(task, decision) {
        return ordered.add(decision, wires);
    }
    Ok(())
}

/// Gives the beginning of the path the value of an entry, if its condition was not looked at before
/// or is not kept.
fn enter_anew(here: &Here, work: &mut Work, entry: &Entry) -> Result<(), GateFault>
    requires ready { IsReady (scene_of here.now) entry.now.decision }
    requires below { AllBelow (next_of work.old.gates) here.now.known.now }
    requires ordered { AreOrdered (scene_of here.now) work.old.ordered }
    requires path { StandsBelow (next_of work.old.gates) work.old.path }
    ensures entered { OnOk result (IsEntered (scene_of here.now) entry.now.decision entry.now.value
        work.old.gates work.new.gates work.old.path work.new.path) }
    ensures conditions { work.new.conditions.items ≡ work.old.conditions.items }
    ensures ordered { OnOk result (AreOrdered (scene_of here.now) work.new.ordered) }
{
    let decision = entry.decision as usize;
    put_wires(here, here.task.kept.get(decision), &mut work.room)?;
    keep_wires(&here.task, decision, &work.room.wires, &mut work.ordered)?;
    work.path
        .set(&mut work.gates, &work.room.wires, entry.value)
}

/// Gives the beginning of the path the value of an entry if its condition holds. It has the value
/// that it had if the condition fails.
fn enter(here: &Here, work: &mut Work, entry: &Entry) -> Result<(), GateFault>
    requires ready { IsReady (scene_of here.now) entry.now.decision }
    requires below { AllBelow (next_of work.old.gates) here.now.known.now }
    requires ordered { AreOrdered (scene_of here.now) work.old.ordered }
    requires path { StandsBelow (next_of work.old.gates) work.old.path }
    ensures entered { OnOk result (IsEntered (scene_of here.now) entry.now.decision entry.now.value
        work.old.gates work.new.gates work.old.path work.new.path) }
    ensures conditions { work.new.conditions.items ≡ work.old.conditions.items }
    ensures ordered { OnOk result (AreOrdered (scene_of here.now) work.new.ordered) }
{
    let decision = entry.decision as usize;
    let kept = here.task.kept.get(decision);
    work.looked_at = work.looked_at.saturating_add(kept.len());
    match work.ordered.find(decision) {
        Some(wires) => work.path.set(&mut work.gates, wires, entry.value),
        None => enter_anew(here, work, entry),
    }
}

/// The same, along a path: entries whose conditions have literals in common share the gates that
/// choose by these.
fn branched(here: &Here, work: &mut Work, entries: &Entries, last: u32) -> Result<Wire, GateFault>
    requires chain { HasChain (scene_of here.now) entries.now.entries.items last }
    requires built { AreBuilt (scene_of here.now) work.old }
    ensures value { IfOk result (IsChosen (scene_of here.now) entries.now.entries.items last
        false work.old.gates work.new.gates work.new.conditions.items) }
    ensures ordered { IfOk result (λ _. AreOrdered (scene_of here.now) work.new.ordered) }
{
    let otherwise = value_of_last(entries, last);
    work.path.begin(work.gates.constant(otherwise));
    let mut number = last;
    while number > 0 {
        let entry = entries.entry(number);
        enter(here, work, &entry)?;
        number = entry.before();
    }
    work.path.leave_all(&mut work.gates, 0)?;
    Ok(work.path.end)
}

/// Whether so many literals were looked at that paths are no longer worth it: 64 times those that
/// all decisions see. A chain builds each condition once, and a path looks at it for each literal
/// that its decision sets.
fn is_spent(here: &Here, work: &Work) -> bool {
    work.looked_at / 64 > here.task.kept.items_len()
}

/// The same, along a path as long as this is worth it.
fn shared(here: &Here, work: &mut Work, entries: &Entries, last: u32) -> Result<Wire, GateFault>
    requires chain { HasChain (scene_of here.now) entries.now.entries.items last }
    requires built { AreBuilt (scene_of here.now) work.old }
    ensures value { IfOk result (IsChosen (scene_of here.now) entries.now.entries.items last
        false work.old.gates work.new.gates work.new.conditions.items) }
    ensures ordered { IfOk result (λ _. AreOrdered (scene_of here.now) work.new.ordered) }
{
    if is_spent(here, work) {
        chained(here, work, entries, last)
    } else {
        branched(here, work, entries, last)
    }
}

/// The wire of what is decided by the entries from this one back to the first of its variable.
pub fn chosen(here: &Here, work: &mut Work, entries: &Entries, last: u32) -> Result<Wire, GateFault>
    requires chain { HasChain (scene_of here.now) entries.now.entries.items last }
    requires built { AreBuilt (scene_of here.now) work.old }
    ensures value { IfOk result (IsChosen (scene_of here.now) entries.now.entries.items last
        here.now.task.plain work.old.gates work.new.gates work.new.conditions.items) }
    ensures long { IsErrOf result GateFault.TooLong → here.now.task.plain ≡ true → (v : ℕ)
        (said : Sayings)
        → Chain entries.now.entries.items v last said → 2147483648 ≤ next_of work.old.gates
        + cost_among here.now.task.kept.now.whole (v ∷ []) said }
    ensures ordered { IfOk result (λ _. AreOrdered (scene_of here.now) work.new.ordered) }
{
    if here.task.plain {
        chained(here, work, entries, last)
    } else {
        shared(here, work, entries, last)
    }
}
