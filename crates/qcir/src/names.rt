//! Names, numbered in the order in which they are given.

ghost use Rattle.std.specs.Prelude.{◌≡◌, [], ◌∷◌, ◌++◌, true, false, length, IfOk, IfSome, IfNone, OnErr, Ok, Err, position};
ghost use Rattle.std.specs.Prelude.{bytes_eq, ◌+◌, ◌<◌, ◌≤◌};
ghost use Rattle.std.specs.List.{list_any};
ghost use Rattle.std.specs.Option.{option_map};
ghost use Rattle.qcir.specs.Names.{literal_named, with_name};
ghost use Rattle.qcir.specs.Outcomes.{LeadsTo};
ghost use Rattle.qcir.specs.Texts.{name_at, name_of};

use crate::fault::QuestionFault;
use crate::key::Key;
use indexmap::IndexSet;
use qbf_core::{LAST_VARIABLE, Lit, Var};
use std::alloc::{AllocError, Global};
use std::marker::Model;

/// Names, each given once, in the order in which they were given. There are at most 2147483647.
///
/// Contracts see the list of them.
#[derive(Drop)]
pub(crate) struct Names<'a> {
    set: IndexSet<Key<'a>>,
}

impl<'a> Model for Names<'a> {
    ghost use Rattle.std.specs.Prelude.{ℕ, ◌≤◌, List, length, map};

    ghost Value = { List (List ℕ) };

    ghost view = { λ n. map (λ k. k.name.now) n.set.keys };

    ghost invariant = { λ n. length n.set.keys ≤ 2147483647 };
}

/// Adds a name to a set, and says whether it is new. One that is there stays.
fn insert<'a>(set: &mut IndexSet<Key<'a>>, name: &'a [u8]) -> Result<bool, AllocError>
    ensures new { IfOk result (λ b. b ≡ true
        → (set.new.keys ≡ set.old.keys ++ (record { name = name.entry }) ∷ [])
        × (list_any (λ k. bytes_eq name.now k.name.now) set.old.keys ≡ false)) }
    ensures given { IfOk result (λ b. b ≡ false
        → (set.new.keys ≡ set.old.keys)
        × (list_any (λ k. bytes_eq name.now k.name.now) set.old.keys ≡ true)) }
    ensures err { OnErr result (set.new.keys ≡ set.old.keys) }
{
    match set.insert(Key { name }) {
        Ok(is_new) => Ok(is_new),
        Err(_) => Err(AllocError),
    }
}

impl<'a> Names<'a> {
    /// No names. It takes no memory yet.
    pub(crate) fn new(alloc: Global) -> Names<'a>
        ensures { result ≡ [] }
    {
        Names {
            set: IndexSet::new(alloc),
        }
    }

    /// The number of names.
    pub(crate) fn len(&self) -> usize
        ensures count { result ≡ length self.now }
        ensures few { result ≤ 2147483647 }
    {
        self.set.len()
    }

    /// The place of a name, counted from 0, or `None` if it is not given.
    pub(crate) fn place(&self, name: &[u8]) -> Option<usize>
        ensures place { result ≡ position (bytes_eq name.now) self.now }
        ensures few { IfSome result (λ i. i < 2147483647) }
    {
        self.set.get_index_of(&Key { name })
    }

    /// Whether a name is given.
    pub(crate) fn has(&self, name: &[u8]) -> bool
        ensures { result ≡ list_any (bytes_eq name.now) self.now }
    {
        self.set.contains(&Key { name })
    }

    /// The name of a variable or a gate, if it is given.
    pub(crate) fn name(&self, var: Var) -> Option<&'a [u8]>
        ensures { option_map (λ n. n.now) result ≡ name_at self.now var }
    {
        match self.set.get_index(var.number() as usize - 1) {
            Some(key) => Some(key.name),
            None => None,
        }
    }

    /// The name of the variable or the gate with a number, or no bytes if it is not given.
    pub(crate) fn name_numbered(&self, number: u32) -> &'a [u8]
        ensures { result.now ≡ name_of self.now number }
    {
        match self.set.get_index((number as usize).saturating_sub(1)) {
            Some(key) => key.name,
            None => b"",
        }
    }

    /// The name of a variable or a gate, or no bytes if it is not given.
    pub(crate) fn name_or_empty(&self, var: Var) -> &'a [u8]
        ensures { result.now ≡ name_of self.now var }
    {
        self.name_numbered(var.number())
    }

    /// Gives a name, which is numbered after the others.
    ///
    /// # Errors
    /// Q10 if there are 2147483647 already, Q4 if this one is given already, and Q11 if an
    /// allocation failed.
    pub(crate) fn give(&mut self, name: &'a [u8]) -> Result<(), QuestionFault>
        ensures given { LeadsTo (with_name self.old name.now) self.new result }
        ensures kept { length self.old ≤ length self.new }
        ensures refused { OnErr result (self.new ≡ self.old) }
    {
        if self.set.len() >= LAST_VARIABLE as usize {
            return Err(QuestionFault::Q10);
        }
        match insert(&mut self.set, name) {
            Ok(true) => Ok(()),
            Ok(false) => Err(QuestionFault::Q4),
            Err(_) => Err(QuestionFault::Q11),
        }
    }

    /// The literal of a name, or `None` if it is not given.
    pub(crate) fn literal(&self, negative: bool, name: &[u8]) -> Option<Lit>
        ensures given { IfSome result (λ l. literal_named self.now negative name.now ≡ Ok l) }
        ensures missing { IfNone result
            (literal_named self.now negative name.now ≡ Err QuestionFault.Q5) }
    {
        match self.place(name) {
            None => None,
            Some(place) => match Var::new(place as u32 + 1) {
                None => unreachable!(),
                Some(var) => Some(Lit::new(var, negative)),
            },
        }
    }
}
