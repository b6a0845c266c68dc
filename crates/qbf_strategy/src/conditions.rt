//! Gates of conditions, each built once, and of what is decided under them.

ghost use Rattle.std.specs.Prelude.{◌≡◌, ◌≢◌, ◌≤◌, ◌<◌, ◌+◌, [], IfOk, IfSome, Some, false, get_or, replicate};
ghost use Rattle.std.specs.Prelude.{length, slice_get};
ghost use Rattle.std.specs.Result.{IsErrOf};
ghost use Rattle.aiger.specs.Building.{next_of};
ghost use Rattle.aiger.specs.Wires.{constant};
ghost use Rattle.qbf_strategy.specs.Conditions.{GivesCondition, IsDecided, IsReady};
ghost use Rattle.qbf_strategy.specs.Conditions.{IsUnused, KeptFrom, Scene, scene_of};
ghost use Rattle.qbf_strategy.specs.Costs.{cost};
ghost use Rattle.qbf_strategy.specs.Ordering.{AreBuilt, AreOrdered};

use crate::combining::{conjunction, either};
use crate::entries::Entry;
use crate::ordered::OrderedWires;
use crate::path::Path;
use crate::placed::{Here, Room, put_wires};
use aiger::{Builder, GateFault, Wire};
use std::alloc::{AllocError, Global};

/// Gates, and the conditions that are built of them.
#[derive(Drop)]
pub struct Work {
    /// The gates.
    pub gates: Builder,
    /// The wire of each decision's condition, or the constant false if it was not built.
    pub conditions: Vec<Wire>,
    /// The literals of the condition that is looked at.
    pub room: Room,
    /// The wires of the conditions that are looked at more than once.
    pub ordered: OrderedWires,
    /// The path at whose end the wire of a variable is changed.
    pub path: Path,
    /// How many literals of conditions were looked at for paths.
    pub looked_at: usize,
}

/// The constant false for each of so many decisions.
fn unbuilt(alloc: Global, decisions: usize) -> Result<Vec<Wire>, AllocError>
    ensures { IfOk result (λ v. v.items ≡ replicate decisions (constant false)) }
{
    vec![in alloc; Wire::constant(false); decisions]
}

impl Work {
    /// No gates, of which the first will have this number, and no conditions of so many decisions.
    pub fn new(alloc: Global, first: u32, decisions: usize) -> Result<Work, AllocError>
        requires some { 1 ≤ first }
        requires few { first ≤ 2147483648 }
        ensures unused { IfOk result (λ w. IsUnused first w.gates w.conditions.items) }
        ensures unordered { IfOk result (λ w. (at : Scene) → AreOrdered at w.ordered) }
    {
        Ok(Work {
            gates: Builder::new(alloc, first),
            conditions: unbuilt(alloc, decisions)?,
            room: Room {
                placed: Vec::new(alloc),
                wires: Vec::new(alloc),
            },
            ordered: OrderedWires::new(alloc, decisions)?,
            path: Path::new(alloc),
            looked_at: 0,
        })
    }

    /// The wire of a decision's condition, if it was built.
    fn built(&self, decision: usize) -> Option<Wire>
        ensures { IfSome result (λ w. (w ≢ constant false)
            × (slice_get self.now.conditions.items decision ≡ Some w)) }
    {
        match self.conditions.get(decision) {
            Some(wire) if *wire != Wire::constant(false) => Some(*wire),
            _ => None,
        }
    }
}

/// Keeps the wire of a decision's condition.
fn keep(conditions: &mut Vec<Wire>, decision: usize, wire: Wire)
    ensures { KeptFrom conditions.old.items conditions.new.items decision wire }
{
    if decision < conditions.len() {
        conditions[decision] = wire;
    }
}

/// Builds the condition of a decision.
fn build(here: &Here, work: &mut Work, decision: usize) -> Result<Wire, GateFault>
    requires ready { IsReady (scene_of here.now) decision }
    requires built { AreBuilt (scene_of here.now) work.old }
    ensures value { IfOk result (GivesCondition (scene_of here.now)
        decision work.old.gates work.new.gates work.new.conditions.items) }
    ensures long { IsErrOf result GateFault.TooLong → 2147483648 ≤ next_of work.old.gates
        + length (get_or here.now.task.kept.now.whole decision []) }
    ensures ordered { work.new.ordered ≡ work.old.ordered }
{
    let kept = here.task.kept.get(decision);
    put_wires(here, kept, &mut work.room)?;
    let wire = conjunction(&mut work.gates, &work.room.wires)?;
    keep(&mut work.conditions, decision, wire);
    Ok(wire)
}

/// The condition of a decision, which is built if it was not.
fn condition(here: &Here, work: &mut Work, decision: usize) -> Result<Wire, GateFault>
    requires ready { IsReady (scene_of here.now) decision }
    requires built { AreBuilt (scene_of here.now) work.old }
    ensures value { IfOk result (GivesCondition (scene_of here.now)
        decision work.old.gates work.new.gates work.new.conditions.items) }
    ensures long { IsErrOf result GateFault.TooLong → 2147483648 ≤ next_of work.old.gates
        + length (get_or here.now.task.kept.now.whole decision []) }
    ensures ordered { work.new.ordered ≡ work.old.ordered }
{
    match work.built(decision) {
        Some(wire) => Ok(wire),
        None => build(here, work, decision),
    }
}

/// What is decided by one entry: its value if its condition holds, and else that of another wire.
pub fn decided(here: &Here, work: &mut Work, entry: &Entry, after: Wire) -> Result<Wire, GateFault>
    requires ready { IsReady (scene_of here.now) entry.now.decision }
    requires built { AreBuilt (scene_of here.now) work.old }
    requires after { after.var < next_of work.old.gates }
    ensures value { IfOk result (IsDecided (scene_of here.now) entry.now.decision
        entry.now.value after
        work.old.gates work.new.gates work.new.conditions.items) }
    ensures long { IsErrOf result GateFault.TooLong → 2147483648 ≤ next_of work.old.gates
        + cost here.now.task.kept.now.whole entry.now.decision }
    ensures ordered { work.new.ordered ≡ work.old.ordered }
{
    if after == Wire::constant(entry.value) {
        return Ok(after);
    }
    let condition = condition(here, work, entry.decision as usize)?;
    either(&mut work.gates, condition, entry.value, after)
}
