//! A path into the gates of a variable's wire, at whose end the wire is changed.

ghost use Rattle.std.specs.Prelude.{◌≡◌, ◌<◌, ◌≤◌, ◌-◌, [], IsTrue, OnOk, Some, length, slice_get, take};
ghost use Rattle.aiger.specs.Building.{next_of};
ghost use Rattle.aiger.specs.Choosing.{IsChoice};
ghost use Rattle.qbf_strategy.specs.Assembling.{AllBelow};
ghost use Rattle.qbf_strategy.specs.Paths.{HasTurned, IsMoved, IsSet, StandsBelow, TakesFirst};

use crate::combining::{conjunction, either};
use crate::placed::wire_at;
use aiger::{Branches, Builder, GateFault, Wire};
use std::alloc::{AllocError, Global};

/// A turn of a path: it is taken if its wire is true.
#[derive(Clone, Copy)]
pub struct Turn {
    /// The wire that is true along the path.
    pub wire: Wire,
    /// The wire that has the value if the turn is not taken.
    pub other: Wire,
}

/// A path into a diagram of gates that choose, each by the wire of a turn. The value at its
/// beginning is that of the wire at its end if all turns are taken, and else that of the other
/// wire of the first turn that is not taken.
///
/// It is at most as long as one condition. What is decided on a variable is the value at the
/// beginning; an entry changes the wire at the end, and leaves as many turns as its condition
/// shares with the entry before it. So what many entries have in common is put once.
#[derive(Drop)]
pub struct Path {
    /// The turns, from the beginning on.
    pub turns: Vec<Turn>,
    /// The wire at the end.
    pub end: Wire,
}

/// Whether this is the wire at a place.
fn is_at(wires: &[Wire], place: usize, wire: Wire) -> bool
    ensures { IsTrue result → slice_get wires.now place ≡ Some wire }
{
    match wires.get(place) {
        Some(found) => *found == wire,
        None => false,
    }
}

/// How many of the first turns are on the first wires.
fn agreeing(turns: &[Turn], wires: &[Wire]) -> usize
    ensures few { result ≤ length wires.now }
    ensures most { result ≤ length turns.now }
    ensures takes { TakesFirst wires.now result (take result turns.now) }
{
    for place in 0..turns.len() {
        if !is_at(wires, place, turns[place].wire) {
            return place;
        }
    }
    turns.len()
}

/// The branches of a wire by another: twice the wire itself, if its gates show none.
fn branches_of(gates: &Builder, wire: Wire, on: Wire) -> Branches
    requires { wire.var < next_of gates.now }
    ensures { IsChoice gates.now wire on result }
{
    match gates.branches(wire, on) {
        Some(branches) => branches,
        None => Branches {
            yes: wire,
            no: wire,
        },
    }
}

impl Path {
    /// A path without turns to a wire that is false.
    pub fn new(alloc: Global) -> Path {
        Path {
            turns: Vec::new(alloc),
            end: Wire::constant(false),
        }
    }

    /// Begins anew, without turns, at a wire.
    pub fn begin(&mut self, end: Wire)
        ensures none { self.new.turns.items ≡ [] }
        ensures end { self.new.end ≡ end }
    {
        self.turns.clear();
        self.end = end;
    }

    /// Leaves the last turn, if there is one: then the end is a wire that chooses between the end
    /// and what has the value if the turn is not taken.
    fn leave(&mut self, gates: &mut Builder) -> Result<(), GateFault>
        requires { StandsBelow (next_of gates.old) self.old }
        ensures moved { OnOk result (IsMoved gates.old gates.new self.old self.new) }
        ensures fewer { OnOk result (self.new.turns.items
            ≡ take (length self.old.turns.items - 1) self.old.turns.items) }
    {
        match self.turns.pop() {
            Some(turn) => {
                let branches = Branches {
                    yes: self.end,
                    no: turn.other,
                };
                self.end = gates.choose(turn.wire, branches)?;
                Ok(())
            }
            None => Ok(()),
        }
    }

    /// Leaves all turns but the first of this number, from the last on.
    pub fn leave_all(&mut self, gates: &mut Builder, keep: usize) -> Result<(), GateFault>
        requires { StandsBelow (next_of gates.old) self.old }
        ensures moved { OnOk result (IsMoved gates.old gates.new self.old self.new) }
        ensures kept { OnOk result (self.new.turns.items ≡ take keep self.old.turns.items) }
    {
        while self.turns.len() > keep {
            self.leave(gates)?;
        }
        Ok(())
    }

    /// Takes one turn more, on this wire: the end is then what it was if this wire is true.
    fn take_turn(&mut self, gates: &Builder, on: Wire) -> Result<(), AllocError>
        requires path { StandsBelow (next_of gates.now) self.old }
        requires on { on.var < next_of gates.now }
        ensures moved { OnOk result (IsMoved gates.now gates.now self.old self.new) }
        ensures turned { OnOk result (HasTurned on self.old.turns.items self.new.turns.items) }
    {
        let branches = branches_of(gates, self.end, on);
        let turn = Turn {
            wire: on,
            other: branches.no,
        };
        self.turns.push(turn)?;
        self.end = branches.yes;
        Ok(())
    }

    /// Takes the turns on the wires after those that have one, up to a place.
    fn take_turns(
        &mut self,
        gates: &Builder,
        wires: &[Wire],
        until: usize,
    ) -> Result<(), AllocError>
        requires path { StandsBelow (next_of gates.now) self.old }
        requires wires { AllBelow (next_of gates.now) wires.now }
        requires from { length self.old.turns.items ≤ until }
        requires until { until ≤ length wires.now }
        requires takes { TakesFirst wires.now (length self.old.turns.items)
            self.old.turns.items }
        ensures moved { OnOk result (IsMoved gates.now gates.now self.old self.new) }
        ensures takes { OnOk result (TakesFirst wires.now until self.new.turns.items) }
    {
        let from = self.turns.len();
        for place in from..until {
            self.take_turn(gates, wire_at(wires, place))?;
        }
        Ok(())
    }

    /// How many wires are worth a turn: all of them if the wire is constant at their end, and
    /// else up to the last by which it chooses.
    fn reach(&self, gates: &Builder, wires: &[Wire]) -> usize
        requires { length self.now.turns.items ≤ length wires.now }
        ensures from { length self.now.turns.items ≤ result }
        ensures few { result ≤ length wires.now }
    {
        let from = self.turns.len();
        let mut wire = self.end;
        let mut reached = from;
        for place in from..wires.len() {
            if let Some(branches) = gates.branches(wire, wires[place]) {
                wire = branches.yes;
                reached = place + 1;
            }
        }
        if wire.var() == 0 {
            return wires.len();
        }
        reached
    }

    /// Gives the beginning this value if these wires are all true. It has the value that
    /// it had if one is false.
    pub fn set(&mut self, gates: &mut Builder, wires: &[Wire], value: bool) -> Result<(), GateFault>
        requires path { StandsBelow (next_of gates.old) self.old }
        requires wires { AllBelow (next_of gates.old) wires.now }
        ensures { OnOk result (IsSet wires.now value gates.old gates.new self.old
            self.new) }
    {
        let keep = agreeing(&self.turns, wires);
        self.leave_all(gates, keep)?;
        let until = self.reach(gates, wires);
        self.take_turns(gates, wires, until)?;
        let rest = conjunction(gates, &wires[until..])?;
        self.end = either(gates, rest, value, self.end)?;
        Ok(())
    }
}
