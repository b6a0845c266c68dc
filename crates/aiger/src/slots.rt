//! Where to look first: a hash table that promises nothing.

ghost use Rattle.std.specs.Prelude.{◌≤◌, IfSome};

use std::alloc::{AllocError, Global};

/// A hash table of entries from 1 on. It promises nothing of what it gives: whoever asks compares
/// an entry before it is taken, so any table is right, and a good one is fast.
#[derive(Drop)]
pub struct Slots {
    /// An entry, or 0 for none. The length is 0 or a power of two.
    entries: Vec<u32>,
}

impl Slots {
    /// An empty table with no room. It takes no memory yet.
    pub fn new(alloc: Global) -> Slots {
        Slots {
            entries: Vec::new(alloc),
        }
    }

    /// Whether there is room for so many entries.
    pub fn has_room(&self, count: usize) -> bool {
        count <= self.entries.len() / 2
    }

    /// Empties the table, and gives it room for so many entries.
    ///
    /// # Errors
    /// If an allocation fails.
    pub fn empty(&mut self, count: usize) -> Result<(), AllocError> {
        let mut width = 16usize;
        for _ in 0..32 {
            if width / 2 < count {
                width = width.saturating_mul(2);
            }
        }
        self.entries.clear();
        self.entries.resize(width, 0)
    }

    /// Enters an entry under a hash.
    pub fn enter(&mut self, hash: usize, entry: u32) {
        let len = self.entries.len();
        for step in 0..len {
            let index = hash.wrapping_add(step) & (len - 1);
            if self.entries.get(index) == Some(&0) {
                self.entries[index] = entry;
                return;
            }
        }
    }

    /// How many entries may have to be looked at.
    pub fn steps(&self) -> usize {
        self.entries.len()
    }

    /// The entry that is to be looked at in this step for a hash, or `None` if there are no more.
    #[inline(always)]
    pub fn entry(&self, hash: usize, step: usize) -> Option<usize>
        ensures { IfSome result (λ entry. 1 ≤ entry) }
    {
        let index = hash.wrapping_add(step) & self.entries.len().wrapping_sub(1);
        match self.entries.get(index) {
            Some(entry) if *entry > 0 => Some(*entry as usize),
            _ => None,
        }
    }
}
