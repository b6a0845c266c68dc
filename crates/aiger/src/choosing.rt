//! Choices: a wire that has the value of one of two others, by the value of a third. Gates make
//! such a wire (`Builder::choose`), and gates show that a wire is one (`Builder::branches`).

ghost use Rattle.std.specs.Prelude.{◌≡◌, ◌<◌, IfOk, IfSome};
ghost use Rattle.aiger.specs.Building.{next_of};
ghost use Rattle.aiger.specs.Choosing.{AreBelow, BothChoose, ChoosesAmong, GateChooses, IsBeside};
ghost use Rattle.aiger.specs.Choosing.{IsChoice, IsChosen};
ghost use Rattle.aiger.specs.Wires.{turned};

use crate::builder::Builder;
use crate::circuit::Gate;
use crate::fault::GateFault;
use crate::wire::Wire;

/// The two wires of a choice by a third.
#[derive(Clone, Copy)]
pub struct Branches {
    /// The wire that is chosen if the third is true.
    pub yes: Wire,
    /// The wire that is chosen if it is false.
    pub no: Wire,
}

/// The other wire of a gate, if one of the two is this one.
fn beside(gate: &Gate, wire: Wire) -> Option<Wire>
    ensures { IfSome result (IsBeside gate.now wire) }
{
    if gate.left == wire {
        return Some(gate.right);
    }
    if gate.right == wire {
        return Some(gate.left);
    }
    None
}

/// The branches of a gate by one of its own wires: the other wire, and false.
fn branches_of_one(gate: &Gate, on: Wire) -> Option<Branches>
    ensures { IfSome result (GateChooses gate.now on) }
{
    match beside(gate, on) {
        Some(other) => Some(Branches {
            yes: other,
            no: Wire::constant(false),
        }),
        None => None,
    }
}

/// The branches of the conjunction of the opposites of two gates, if the first has the wire to
/// choose by, and the second its opposite.
fn branches_of_two(left: &Gate, right: &Gate, on: Wire) -> Option<Branches>
    ensures { IfSome result (BothChoose left.now right.now on) }
{
    let yes = beside(left, on)?;
    let no = beside(right, on.opposite())?;
    Some(Branches {
        yes: yes.opposite(),
        no: no.opposite(),
    })
}

impl Branches {
    /// Both wires, or the opposites of both.
    fn turned(self, negated: bool) -> Branches
        ensures { result ≡ record {
          yes = turned self.yes negated;
          no = turned self.no negated;
        } }
    {
        Branches {
            yes: self.yes.turned(negated),
            no: self.no.turned(negated),
        }
    }

    /// The branches of the same choice by the opposite of the third wire.
    fn swapped(self) -> Branches
        ensures { result ≡ record { yes = self.no; no = self.yes } }
    {
        Branches {
            yes: self.no,
            no: self.yes,
        }
    }

    /// Whether one of the two is always true.
    fn has_true(self) -> bool {
        self.yes == Wire::constant(true) || self.no == Wire::constant(true)
    }
}

impl Builder {
    /// The branches of a gate whose wires are the opposites of two gates, if these show them.
    fn branches_of_gates(&self, gate: &Gate, on: Wire) -> Option<Branches>
        ensures { IfSome result (ChoosesAmong self.now gate.now on) }
    {
        if !gate.left.is_negated() || !gate.right.is_negated() {
            return None;
        }
        let left = self.gate_of(gate.left)?;
        let right = self.gate_of(gate.right)?;
        branches_of_two(&left, &right, on)
    }

    /// The branches of a gate, if it or the two gates below show them.
    fn branches_of(&self, gate: &Gate, on: Wire) -> Option<Branches>
        requires left { gate.now.left.var < next_of self.now }
        requires right { gate.now.right.var < next_of self.now }
        ensures { IfSome result (ChoosesAmong self.now gate.now on) }
    {
        match branches_of_one(gate, on) {
            Some(branches) => Some(branches),
            None => self.branches_of_gates(gate, on),
        }
    }

    /// The branches of a wire by another, if the other itself, and not its opposite, is seen in the
    /// first gate that is looked at.
    fn branches_where(&self, wire: Wire, on: Wire) -> Option<Branches>
        ensures { IfSome result (IsChoice self.now wire on) }
    {
        if wire == on {
            return Some(Branches {
                yes: self.constant(true),
                no: self.constant(false),
            });
        }
        let gate = self.gate_of(wire)?;
        let branches = self.branches_of(&gate, on)?;
        Some(branches.turned(wire.is_negated()))
    }

    /// The branches of a wire by another, if they are seen: in the gate of the wire, or in the two
    /// gates below. `None` says that they are not seen there.
    pub fn branches(&self, wire: Wire, on: Wire) -> Option<Branches>
        ensures { IfSome result (IsChoice self.now wire on) }
    {
        match self.branches_where(wire, on) {
            Some(branches) => Some(branches),
            None => {
                let branches = self.branches_where(wire, on.opposite())?;
                Some(branches.swapped())
            }
        }
    }

    /// The wire of a choice, by at most three gates.
    fn put_choice(&mut self, on: Wire, branches: Branches) -> Result<Wire, GateFault>
        requires on { on.var < next_of self.old }
        requires below { AreBelow (next_of self.old) branches }
        ensures { IfOk result (IsChosen self.old self.new on branches) }
    {
        let yes = self.and(on, branches.yes)?;
        let no = self.and(on.opposite(), branches.no)?;
        let neither = self.and(yes.opposite(), no.opposite())?;
        Ok(neither.opposite())
    }

    /// The wire of a choice between two wires by a third. No gate is put if the two are the same,
    /// at most one if one of them is constant, and else at most three.
    ///
    /// # Errors
    /// `NoMemory` if an allocation fails, and `TooLong` if AIGER has no number for a gate. Gates
    /// that were put before stay.
    pub fn choose(&mut self, on: Wire, branches: Branches) -> Result<Wire, GateFault>
        requires on { on.var < next_of self.old }
        requires below { AreBelow (next_of self.old) branches }
        ensures { IfOk result (IsChosen self.old self.new on branches) }
    {
        if branches.yes == branches.no {
            return Ok(branches.yes);
        }
        if branches.has_true() {
            let wire = self.put_choice(on, branches.turned(true))?;
            return Ok(wire.opposite());
        }
        self.put_choice(on, branches)
    }
}
