//! The wires of conditions, in the order in which gates take them.

ghost use Rattle.std.specs.Prelude.{IfOk, IfSome, OnOk};
ghost use Rattle.qbf_strategy.specs.Conditions.{KeptFrom, Scene};
ghost use Rattle.qbf_strategy.specs.Ordering.{AreOrdered, AreWiresOf, IsList};

use aiger::Wire;
use lists::GrowingLists;
use std::alloc::{AllocError, Global};

/// The wires of those conditions that are looked at more than once, in the order in which gates
/// take them, from when they are first looked at. A variable's wire does not change, so they stay.
#[derive(Drop)]
pub struct OrderedWires {
    /// The number of each decision's list, counted from 1, or 0 if there is none.
    pub numbers: Vec<u32>,
    /// The lists, in the order in which they were added.
    pub lists: GrowingLists<Wire>,
}

impl OrderedWires {
    /// No wires, of so many decisions.
    pub fn new(alloc: Global, decisions: usize) -> Result<OrderedWires, AllocError>
        ensures { IfOk result (λ o. (at : Scene) → AreOrdered at o) }
    {
        Ok(OrderedWires {
            numbers: vec![in alloc; 0u32; decisions]?,
            lists: GrowingLists::new(alloc),
        })
    }

    /// The wires of a decision's condition, if they were added.
    pub fn find(&self, decision: usize) -> Option<&[Wire]>
        ensures { IfSome result (λ wires. (at : Scene) → AreOrdered at self.now
            → AreWiresOf at decision wires.now) }
    {
        match self.numbers.get(decision) {
            Some(number) => self.list(*number),
            None => None,
        }
    }

    /// The list of a number, counted from 1, if there is one.
    fn list(&self, number: u32) -> Option<&[Wire]>
        ensures { IfSome result (λ wires. IsList self.now number wires.now) }
    {
        let place = (number as usize).checked_sub(1)?;
        if place < self.lists.whole_len() {
            return Some(self.lists.get(place));
        }
        None
    }

    /// Adds the wires of a decision's condition, unless there are 4294967295 lists.
    ///
    /// # Errors
    /// If an allocation fails.
    pub fn add(&mut self, decision: usize, wires: &[Wire]) -> Result<(), AllocError>
        ensures { OnOk result ((at : Scene) → AreOrdered at self.old
            → AreWiresOf at decision wires.now → AreOrdered at self.new) }
    {
        if self.lists.whole_len() >= 4294967295 {
            return Ok(());
        }
        self.lists.begin();
        self.lists.extend(wires)?;
        self.lists.close()?;
        let number = self.lists.whole_len() as u32;
        set_number(&mut self.numbers, decision, number);
        Ok(())
    }
}

/// Sets the number of a decision.
fn set_number(numbers: &mut Vec<u32>, decision: usize, number: u32)
    ensures { KeptFrom numbers.old.items numbers.new.items decision number }
{
    if decision < numbers.len() {
        numbers[decision] = number;
    }
}
