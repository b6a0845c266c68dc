//! Lists that lie one after the other in one buffer.

ghost use Rattle.std.specs.Prelude.{◌≡◌, ◌≤◌, ◌<◌, ◌+◌, ◌-◌, ◌^◌, [], ◌∷◌, ◌++◌, Some, length, take};
ghost use Rattle.std.specs.Prelude.{slice_get, slice_range, OnOk, OnErr};
ghost use Rattle.lists.specs.Lists.{count_items, parts, start_of, LieWithin};

use crate::offsets::Offsets;
use std::alloc::{AllocError, Global};
use std::marker::Model;

/// Where the list at place `i` begins.
#[inline(always)]
#[tactic(auto, using(crate::proofs::Buffer::start_after))]
fn start(ends: &Offsets, i: usize) -> usize
    requires { i < length ends.now }
    ensures { result ≡ start_of 0 ends.now i }
{
    if i == 0 {
        return 0;
    }
    ends.get(i - 1)
}

/// A part of a buffer.
fn part<T>(buffer: &[T], from: usize, to: usize) -> &[T]
    requires order { from ≤ to }
    requires within { to ≤ length buffer.now }
    ensures { result.now ≡ slice_range buffer.now from to }
{
    &buffer[from..to]
}

/// The list at place `i` of those that lie in a buffer and end at these places.
#[inline(always)]
#[tactic(auto, using(crate::proofs::Buffer::within_at, crate::proofs::Buffer::part_at))]
fn list_at<'a, T>(buffer: &'a [T], ends: &Offsets, i: usize) -> &'a [T]
    requires place { i < length ends.now }
    requires within { LieWithin ends.now (length buffer.now) }
    ensures { slice_get (parts buffer.now 0 ends.now) i ≡ Some result.now }
{
    part(buffer, start(ends, i), ends.get(i))
}

/// Lists in one buffer, and after them one more that is unfinished. Contracts see both.
///
/// The unfinished list grows where it lies, and is made one of the lists without a copy.
#[derive(Drop)]
pub struct GrowingLists<T> {
    items: Vec<T>,
    /// Where each whole list ends.
    ends: Offsets,
    /// Where the last whole list ends, and the unfinished list begins.
    start: usize,
}

impl<T> Model for GrowingLists<T> {
    ghost use Rattle.std.specs.Prelude.{◌≤◌, length, drop};
    ghost use Rattle.lists.specs.Lists.{Growing, parts, Reaches};

    ghost Value = { Growing T };

    ghost view = { λ s.
        record { whole = parts s.items.items 0 s.ends; unfinished = drop s.start s.items.items } };

    ghost invariant = { λ s. Reaches 0 s.ends s.start × (s.start ≤ length s.items.items) };
}

impl<T: Copy + Drop> GrowingLists<T> {
    /// No lists, and an empty one that is unfinished. It takes no memory yet.
    pub fn new(alloc: Global) -> GrowingLists<T>
        ensures { result ≡ record { whole = []; unfinished = [] } }
    {
        GrowingLists {
            items: Vec::new(alloc),
            ends: Offsets::new(alloc),
            start: 0,
        }
    }

    /// How many whole lists there are.
    #[inline(always)]
    #[tactic(auto, using(crate::proofs::Buffer::same_count))]
    pub fn whole_len(&self) -> usize
        ensures { result ≡ length self.now.whole }
    {
        let ends = &self.ends;
        ends.len()
    }

    /// The whole list at place `i`, counted from 0; `i` is below `whole_len()`.
    #[inline(always)]
    #[tactic(auto, using(crate::proofs::Buffer::part_place))]
    pub fn get(&self, i: usize) -> &[T]
        requires { i < length self.now.whole }
        ensures { slice_get self.now.whole i ≡ Some result.now }
    {
        let items = &self.items;
        list_at(items, &self.ends, i)
    }

    /// How many items the unfinished list has.
    #[inline(always)]
    pub fn unfinished_len(&self) -> usize
        ensures { result ≡ length self.now.unfinished }
    {
        self.items.len() - self.start
    }

    /// The unfinished list.
    pub fn unfinished(&self) -> &[T]
        ensures { result.now ≡ self.now.unfinished }
    {
        part(&self.items, self.start, self.items.len())
    }

    /// Begins an empty list in place of the unfinished one.
    #[inline(always)]
    #[tactic(auto, using(crate::proofs::Buffer::kept_parts, crate::proofs::Buffer::drop_kept))]
    pub fn begin(&mut self)
        ensures { self.new ≡ record self.old { unfinished = [] } }
    {
        self.items.truncate(self.start);
    }

    /// How many items the lists have together, with those of the unfinished one.
    #[inline(always)]
    #[tactic(auto, using(crate::proofs::Buffer::counted, crate::proofs::Buffer::drop_counted))]
    pub fn items_len(&self) -> usize
        ensures value { result ≡ count_items self.now.whole + length self.now.unfinished }
        ensures few { result < 2 ^ 63 }
    {
        let all = &self.items;
        all.len()
    }

    /// Keeps the first `len` items of all lists, or all of them if there are no more: the others
    /// are taken from the unfinished list. `len` is at least the number of items of whole lists.
    #[inline(always)]
    #[tactic(auto, using(crate::proofs::Buffer::shorter))]
    pub fn shorten(&mut self, len: usize)
        requires { count_items self.old.whole ≤ len }
        ensures { self.new ≡ record self.old {
          unfinished = take (len - count_items self.old.whole) self.old.unfinished;
        } }
    {
        self.items.truncate(len);
    }

    /// Adds an item at the end of the unfinished list.
    ///
    /// # Errors
    /// Out of memory. Nothing is changed then.
    #[inline(always)]
    #[tactic(auto, using(crate::proofs::Buffer::grown_parts, crate::proofs::Buffer::drop_grown))]
    pub fn push(&mut self, item: T) -> Result<(), AllocError>
        ensures pushed { OnOk result
            (self.new ≡ record self.old { unfinished = self.old.unfinished ++ item ∷ [] }) }
        ensures err { OnErr result (self.new ≡ self.old) }
    {
        self.items.push(item)?;
        Ok(())
    }

    /// Adds these items at the end of the unfinished list.
    ///
    /// # Errors
    /// Out of memory. Nothing is changed then.
    #[inline(always)]
    #[tactic(auto, using(crate::proofs::Buffer::grown_parts, crate::proofs::Buffer::drop_grown))]
    pub fn extend(&mut self, more: &[T]) -> Result<(), AllocError>
        ensures extended { OnOk result
            (self.new ≡ record self.old { unfinished = self.old.unfinished ++ more.now }) }
        ensures err { OnErr result (self.new ≡ self.old) }
    {
        self.items.extend_from_slice(more)?;
        Ok(())
    }

    /// Makes the unfinished list whole, and begins an empty one after it.
    ///
    /// # Errors
    /// Out of memory. Nothing is changed then.
    #[inline(always)]
    #[tactic(auto, using(crate::proofs::Buffer::closed))]
    pub fn close(&mut self) -> Result<(), AllocError>
        ensures closed { OnOk result (self.new ≡ record {
          whole = self.old.whole ++ self.old.unfinished ∷ [];
          unfinished = [];
        }) }
        ensures err { OnErr result (self.new ≡ self.old) }
    {
        let end = self.items.len();
        self.ends.push(end)?;
        self.start = end;
        Ok(())
    }

    /// Takes the last whole list away, if there is one. The unfinished list is empty then.
    #[tactic(auto, using(crate::proofs::Buffer::fewer))]
    pub fn pop(&mut self)
        ensures { self.new ≡ record {
          whole = take (length self.old.whole - 1) self.old.whole;
          unfinished = [];
        } }
    {
        self.ends.pop();
        let start = self.ends.last();
        self.start = start;
        self.begin();
    }
}
