//! Gates that are put one after the other, each once.

ghost use Rattle.std.specs.Prelude.{◌≡◌, ℕ, ◌+◌, ◌^◌, ◌<◌, ◌≤◌, ◌⊎◌, Bool, false, true, [], Some};
ghost use Rattle.std.specs.Prelude.{slice_get};
ghost use Rattle.std.specs.Prelude.{IfOk, IfSome, IsTrue, OnErr, length};
ghost use Rattle.std.specs.Result.{IsErrOf};
ghost use Rattle.aiger.specs.Building.{Grows, IsBoth, IsFolded, IsGate, StandsForBoth, next_of};
ghost use Rattle.aiger.specs.Choosing.{IsGateOf};
ghost use Rattle.aiger.specs.Circuits.{StandBelow};
ghost use Rattle.aiger.specs.Wires.{constant, plain};

use crate::circuit::Gate;
use crate::fault::GateFault;
use crate::slots::Slots;
use crate::wire::Wire;
use std::alloc::{AllocError, Global};
use std::marker::Model;

/// The number of variables that AIGER can number in 32 bits.
const VARIABLES: u32 = 2147483648;

/// Gates that are put one after the other. A gate that is there is not put again.
///
/// Contracts see the gates and the number of the first.
#[derive(Drop)]
pub struct Builder {
    first: u32,
    gates: Vec<Gate>,
    /// The places of gates, counted from 1, by a hash of their wires.
    slots: Slots,
}

impl Model for Builder {
    ghost use Rattle.aiger.specs.Building.{AreGates, Built};

    ghost Value = { Built };

    ghost view = { λ b. record { first = b.first; gates = b.gates.items } };

    ghost invariant = { λ b. AreGates b.first b.gates.items };
}

/// Whether the conjunction of two wires is false, since the first is or they are opposite.
#[tactic(auto, using(crate::proofs::Folds::false_folded, crate::proofs::Folds::opposite_folded))]
fn surely_false(left: Wire, right: Wire) -> bool
    ensures { IsTrue result → IsFolded left right (constant false) }
{
    if left == Wire::constant(false) {
        return true;
    }
    right == left.opposite()
}

/// Whether the conjunction of two wires is the second: the first is true, or they are the same.
#[tactic(auto, using(crate::proofs::Folds::true_folded, crate::proofs::Folds::same_folded))]
fn surely_second(left: Wire, right: Wire) -> bool
    ensures { IsTrue result → IsFolded left right right }
{
    if left == Wire::constant(true) {
        return true;
    }
    left == right
}

/// The conjunction of two wires, if it needs no gate: the first is constant, or they are the same
/// or opposite.
fn folded(left: Wire, right: Wire) -> Option<Wire>
    ensures value { IfSome result (IsFolded left right) }
    ensures one { IfSome result (λ w. (w ≡ constant false) ⊎ (w ≡ right)) }
{
    if surely_false(left, right) {
        return Some(Wire::constant(false));
    }
    if surely_second(left, right) {
        return Some(right);
    }
    None
}

/// The same, if the second wire is looked at too.
#[tactic(auto, using(crate::proofs::Folds::turned_folded))]
fn folded_by_either(left: Wire, right: Wire) -> Option<Wire>
    ensures value { IfSome result (IsFolded left right) }
    ensures one { IfSome result (λ w. (w ≡ constant false) ⊎ ((w ≡ left) ⊎ (w ≡ right))) }
{
    match folded(left, right) {
        Some(wire) => Some(wire),
        None => folded(right, left),
    }
}

/// Where to look first for a gate in a table.
fn hash(gate: &Gate) -> usize {
    let left = u64::from(gate.left.number()).wrapping_mul(0x9E3779B97F4A7C15);
    let right = u64::from(gate.right.number()).wrapping_mul(0xC2B2AE3D27D4EB4F);
    let mixed = left ^ right.rotate_left(32);
    (mixed ^ (mixed >> 29)) as usize
}

/// The gate with the greater wire in front, as AIGER's binary format has it.
#[tactic(auto, using(crate::proofs::Folds::turned_gate, crate::proofs::Folds::same_gate))]
fn in_order(left: Wire, right: Wire) -> Gate
    ensures value { StandsForBoth left right result }
    ensures one { (result ≡ record { left = left; right = right })
        ⊎ (result ≡ record { left = right; right = left }) }
{
    if left.number() < right.number() {
        return Gate {
            left: right,
            right: left,
        };
    }
    Gate { left, right }
}

/// Lets a table have room for one more gate.
fn make_room(slots: &mut Slots, gates: &[Gate]) -> Result<(), AllocError>
    requires { length gates.now ≤ 2147483648 }
{
    if slots.has_room(gates.len() + 1) {
        return Ok(());
    }
    slots.empty(2 * gates.len() + 1)?;
    for place in 0..gates.len() {
        slots.enter(hash(&gates[place]), place as u32 + 1);
    }
    Ok(())
}

impl Builder {
    /// No gates yet. The first will have this number, at least 1 and at most 2147483648.
    pub fn new(alloc: Global, first: u32) -> Builder
        requires some { 1 ≤ first }
        requires few { first ≤ 2147483648 }
        ensures { result ≡ record { first = first; gates = [] } }
    {
        Builder {
            first,
            gates: Vec::new(alloc),
            slots: Slots::new(alloc),
        }
    }

    /// The gates, which stand on variables before them.
    pub fn into_gates(self) -> Vec<Gate>
        ensures gates { result.items ≡ self.gates }
        ensures below { StandBelow self.first result.items }
        ensures few { self.first + length result.items ≤ 2147483648 }
    {
        self.gates
    }

    /// The gates.
    pub fn gates(&self) -> &[Gate]
        ensures { result.now ≡ self.now.gates }
    {
        &self.gates
    }

    /// The wire that always has this value.
    pub fn constant(&self, value: bool) -> Wire
        ensures value { result ≡ constant value }
        ensures below { 0 < next_of self.now }
    {
        let _first = self.first;
        Wire::constant(value)
    }

    /// The wire of the conjunction of two wires. No gate is put if one of them is constant, if they
    /// are the same or opposite, or if there is such a gate.
    ///
    /// # Errors
    /// `NoMemory` if an allocation fails, and `TooLong` if AIGER has no number for the gate. Both
    /// change nothing.
    pub fn and(&mut self, left: Wire, right: Wire) -> Result<Wire, GateFault>
        requires left { left.var < next_of self.old }
        requires right { right.var < next_of self.old }
        ensures grows { Grows self.old self.new }
        ensures one { next_of self.new ≤ next_of self.old + 1 }
        ensures below { IfOk result (λ w. w.var < next_of self.new) }
        ensures value { IfOk result (IsBoth self.new left right) }
        ensures err { OnErr result (self.new ≡ self.old) }
        ensures long { IsErrOf result GateFault.TooLong → next_of self.old ≡ 2147483648 }
        ensures room { IsErrOf result GateFault.NoMemory → next_of self.old < 2147483648 }
    {
        match folded_by_either(left, right) {
            Some(wire) => Ok(wire),
            None => self.gate(&in_order(left, right)),
        }
    }

    /// The wire of a gate, which is put if it is not there.
    #[tactic(auto, using(crate::proofs::KeptGates::found_value))]
    fn gate(&mut self, gate: &Gate) -> Result<Wire, GateFault>
        requires left { gate.now.left.var < next_of self.old }
        requires right { gate.now.right.var < next_of self.old }
        ensures grows { Grows self.old self.new }
        ensures one { next_of self.new ≤ next_of self.old + 1 }
        ensures below { IfOk result (λ w. w.var < next_of self.new) }
        ensures value { IfOk result (IsGate self.new gate.now) }
        ensures err { OnErr result (self.new ≡ self.old) }
        ensures long { IsErrOf result GateFault.TooLong → next_of self.old ≡ 2147483648 }
        ensures room { IsErrOf result GateFault.NoMemory → next_of self.old < 2147483648 }
    {
        match self.find(gate) {
            Some(place) => Ok(self.wire_at(place)),
            None => self.push(gate),
        }
    }

    /// The wire of the gate at a place.
    fn wire_at(&self, place: usize) -> Wire
        requires { place < length self.now.gates }
        ensures { result ≡ plain (self.now.first + place) }
    {
        Wire::new(self.first + place as u32, false)
    }

    /// The gate of a wire's variable, if it is that of a gate.
    pub fn gate_of(&self, wire: Wire) -> Option<Gate>
        ensures { IfSome result (IsGateOf self.now wire.var) }
    {
        if wire.var() < self.first {
            return None;
        }
        match self.gates.get((wire.var() - self.first) as usize) {
            Some(gate) => Some(*gate),
            None => None,
        }
    }

    /// Whether this gate is at a place.
    fn has_at(&self, place: usize, gate: &Gate) -> bool
        ensures { IsTrue result → slice_get self.now.gates place ≡ Some gate.now }
    {
        match self.gates.get(place) {
            Some(found) => found.left == gate.left && found.right == gate.right,
            None => false,
        }
    }

    /// The place of a gate, if it is found.
    fn find(&self, gate: &Gate) -> Option<usize>
        ensures { IfSome result (λ place. slice_get self.now.gates place ≡ Some gate.now) }
    {
        let hash = hash(gate);
        for step in 0..self.slots.steps() {
            let place = self.slots.entry(hash, step)? - 1;
            if self.has_at(place, gate) {
                return Some(place);
            }
        }
        None
    }

    /// Puts a gate.
    #[tactic(auto, using(crate::proofs::KeptGates::pushed_gates))]
    fn push(&mut self, gate: &Gate) -> Result<Wire, GateFault>
        requires left { gate.now.left.var < next_of self.old }
        requires right { gate.now.right.var < next_of self.old }
        ensures grows { Grows self.old self.new }
        ensures one { next_of self.new ≤ next_of self.old + 1 }
        ensures below { IfOk result (λ w. w.var < next_of self.new) }
        ensures value { IfOk result (IsGate self.new gate.now) }
        ensures err { OnErr result (self.new ≡ self.old) }
        ensures long { IsErrOf result GateFault.TooLong → next_of self.old ≡ 2147483648 }
        ensures room { IsErrOf result GateFault.NoMemory → next_of self.old < 2147483648 }
    {
        let place = self.gates.len();
        if self.first as usize + place >= VARIABLES as usize {
            return Err(GateFault::TooLong);
        }
        make_room(&mut self.slots, &self.gates)?;
        self.gates.push(*gate)?;
        self.slots.enter(hash(gate), place as u32 + 1);
        Ok(self.wire_at(place))
    }
}
