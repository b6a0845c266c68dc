//! The ends of lists that lie one after the other.

ghost use Rattle.std.specs.Prelude.{◌≡◌, ◌-◌, ◌<◌, [], ◌∷◌, ◌++◌, Some, length, take, slice_get};
ghost use Rattle.std.specs.Prelude.{OnOk, OnErr};
ghost use Rattle.lists.specs.Lists.{end_of};

use std::alloc::{AllocError, Global};
use std::marker::Model;

/// The ends of lists, in the order in which they were added. Contracts see the list of them.
///
/// As ends do not fall, those below 2 to the power of 32 come first, and take half the memory.
#[derive(Drop)]
pub struct Offsets {
    small: Vec<u32>,
    /// The first end that is not small, and all ends after it.
    large: Vec<usize>,
}

impl Model for Offsets {
    ghost use Rattle.std.specs.Prelude.{ℕ, List, ◌++◌};

    ghost Value = { List ℕ };

    ghost view = { λ e. e.small.items ++ e.large.items };
}

impl Offsets {
    /// No ends. It takes no memory yet.
    pub fn new(alloc: Global) -> Offsets
        ensures { result ≡ [] }
    {
        Offsets {
            small: Vec::new(alloc),
            large: Vec::new(alloc),
        }
    }

    /// How many there are.
    #[inline(always)]
    pub fn len(&self) -> usize
        ensures { result ≡ length self.now }
    {
        self.small.len() + self.large.len()
    }

    /// The end at place `i`, counted from 0; `i` is below `len()`.
    #[inline(always)]
    pub fn get(&self, i: usize) -> usize
        requires { i < length self.now }
        ensures { slice_get self.now i ≡ Some result }
    {
        let reached = self.small.len();
        if i < reached {
            self.small[i] as usize
        } else {
            self.large[i - reached]
        }
    }

    /// The last end, or 0 if there is none.
    #[tactic(auto, using(crate::proofs::Buffer::last_is))]
    pub fn last(&self) -> usize
        ensures { result ≡ end_of 0 self.now }
    {
        let len = self.len();
        if len == 0 {
            return 0;
        }
        self.get(len - 1)
    }

    /// Adds an end.
    ///
    /// # Errors
    /// Out of memory. Nothing is changed then.
    #[inline(always)]
    pub fn push(&mut self, end: usize) -> Result<(), AllocError>
        ensures pushed { OnOk result (self.new ≡ self.old ++ end ∷ []) }
        ensures err { OnErr result (self.new ≡ self.old) }
    {
        if self.large.is_empty() && end < 4294967296 {
            self.small.push(end as u32)?;
        } else {
            self.large.push(end)?;
        }
        Ok(())
    }

    /// Takes the last end away, if there is one.
    pub fn pop(&mut self)
        ensures { self.new ≡ take (length self.old - 1) self.old }
    {
        if self.large.pop().is_none() {
            self.small.pop();
        }
    }
}
