//! Literals that were met since the last time that all were forgotten.

ghost use Rattle.std.specs.Prelude.{◌≡◌, ◌≢◌, ◌↔◌, ◌+◌, ◌*◌, ◌≤◌, ℕ, ◌⊎◌};
ghost use Rattle.std.specs.Prelude.{[], false, IsTrue, IsOk, IfOk, IfSome, get_or, length, take};
ghost use Rattle.qbf_core.specs.Blocks.{pairs};
ghost use Rattle.qbf_core.specs.Literal.{Literal, negated};
ghost use Rattle.qbf_core.specs.Members.{◌∈◌};
ghost use Rattle.qbf_core.specs.Rules.{IsClean};
ghost use Rattle.written_steps.specs.TwoLists.{IsApart};
ghost use Rattle.written_steps.specs.Seen.{AreUpTo, Has, IsFar, code};

use indexmap::IndexSet;
use qbf_core::{Lit, Prefix, Var};
use qrp_rules::is_ordered;
use std::alloc::{AllocError, Global};
use std::marker::Model;

/// The number of a literal: those of a variable are neighbours.
pub(crate) fn code(lit: Lit) -> usize
    ensures { result ≡ code lit }
{
    let sign = if lit.is_negative() { 1 } else { 0 };
    2 * lit.var().number() as usize + sign
}

/// The numbers of a literal and of its negation.
#[inline(always)]
fn codes(lit: Lit) -> (usize, usize)
    ensures { (result.0 ≡ code lit) × (result.1 ≡ code (negated lit)) }
{
    let positive = 2 * lit.var().number() as usize;
    if lit.is_negative() {
        (positive + 1, positive)
    } else {
        (positive, positive + 1)
    }
}

/// A set of literals that is emptied in one step. Contracts see which literals it has.
#[derive(Drop)]
pub struct SeenLits {
    alloc: Global,
    /// The stamp with which each literal was met, by its number.
    stamps: Vec<u32>,
    /// The stamp of the literals that are in the set. It is never 0.
    stamp: u32,
    /// The numbers of those that are in the set and have no stamp, since there is no room for one.
    far: IndexSet<usize>,
    /// Whether a literal was put in again by `set_if_clean`. Contracts say nothing of it.
    repeated: bool,
}

impl Model for SeenLits {
    ghost use Rattle.std.specs.Prelude.{◌≤◌};
    ghost use Rattle.written_steps.specs.Seen.{AreBeyond, AreUpTo, Members, members_by_stamp};

    ghost Value = { Members };

    ghost view = { λ s.
        record { near = members_by_stamp s.stamps.items s.stamp; far = s.far.keys } };

    ghost invariant = { λ s. (1 ≤ s.stamp) × AreUpTo s.stamps.items s.stamp
        × AreBeyond s.far.keys s.stamps.items };
}

impl SeenLits {
    /// An empty set. It takes no memory yet, and has no room.
    pub fn new(alloc: Global) -> SeenLits {
        SeenLits {
            alloc,
            stamps: Vec::new(alloc),
            stamp: 1,
            far: IndexSet::new(alloc),
            repeated: false,
        }
    }

    /// Makes room for the literals of a prefix, if there is none yet: for variables with numbers up
    /// to twice the count of the bound ones. Nothing is known then of what the set holds.
    ///
    /// # Errors
    /// If an allocation fails.
    pub fn make_room(&mut self, prefix: &Prefix) -> Result<(), AllocError>
        ensures few { (length self.new.near ≡ length self.old.near)
            ⊎ (length self.new.near ≤ 4 * length (pairs prefix.now) + 4) }
    {
        if self.stamps.is_empty() {
            clear_far(self.alloc, &mut self.far);
            let width = prefix.len().saturating_mul(4).saturating_add(4);
            self.stamps = vec![in self.alloc; 0; width]?;
        }
        Ok(())
    }

    /// Whether a literal of the list that replaced the set by `set_if_clean` is there twice.
    #[inline(always)]
    pub(crate) fn has_repeated(&self) -> bool {
        self.repeated
    }

    /// Notes if a literal is put in again.
    fn note_repeated(&mut self, again: bool)
        ensures { self.new ≡ self.old }
    {
        if again {
            self.repeated = true;
        }
    }

    /// How many numbers of literals there is room for.
    pub(crate) fn room(&self) -> usize {
        self.stamps.len()
    }

    /// Takes all literals out. Once in 2^32 times it takes time for each one that there is room
    /// for.
    #[inline(always)]
    pub fn clear(&mut self)
        ensures { (l : Literal) → Has self.new l → ⊥ }
    {
        self.repeated = false;
        clear_far(self.alloc, &mut self.far);
        match self.stamp.checked_add(1) {
            Some(next) => self.stamp = next,
            None => {
                self.stamps.fill(0);
                self.stamp = 1;
            }
        }
    }

    /// Whether the literal is in the set.
    pub fn contains(&self, lit: Lit) -> bool
        ensures { IsTrue result ↔ Has self.now lit }
    {
        let number = code(lit);
        match self.stamps.get(number) {
            Some(stamp) => *stamp == self.stamp,
            None => is_far(&self.far, number),
        }
    }

    /// Puts the literal in.
    ///
    /// # Errors
    /// If an allocation fails. The literal is not put in then.
    #[tactic(auto, using(crate::proofs::Stamps::stamp_more, crate::proofs::Stamps::code_one, crate::proofs::Stamps::more_stamp))]
    pub fn put(&mut self, lit: Lit) -> Result<(), AllocError>
        ensures { (l : Literal) → Has self.new l ↔ (Has self.old l ⊎ ((l ≡ lit) × IsOk result)) }
    {
        let number = code(lit);
        if number >= self.stamps.len() {
            return put_far(&mut self.far, number);
        }
        self.stamps[number] = self.stamp;
        Ok(())
    }

    /// Puts the literal in, and says whether it was not there.
    ///
    /// # Errors
    /// If an allocation fails. The literal is not put in then.
    pub(crate) fn is_new(&mut self, lit: Lit) -> Result<bool, AllocError>
        ensures there { IfOk result (λ new. new ≡ false → Has self.old lit) }
        ensures only { (l : Literal) → Has self.new l → Has self.old l ⊎ (l ≡ lit) }
    {
        if self.contains(lit) {
            return Ok(false);
        }
        self.put(lit)?;
        Ok(true)
    }

    /// Replaces the set by the literals of a list.
    ///
    /// # Errors
    /// If an allocation fails. The set has only some of the literals then.
    pub(crate) fn set_each(&mut self, lits: &[Lit]) -> Result<(), AllocError>
        ensures { (l : Literal) → Has self.new l → l ∈ lits.now }
    {
        self.clear();
        put_each(self, lits)
    }

    /// Whether the variables are seen to be pairwise distinct and none to be `other`. Nothing is
    /// known then of what the set holds.
    #[inline(never)]
    pub(crate) fn surely_distinct(&mut self, lits: &[Lit], other: Var) -> bool
        ensures clean { IsTrue result → IsClean lits.now }
        ensures apart { IsTrue result → IsApart lits.now other }
    {
        self.clear();
        stamp_vars(&mut self.stamps, self.stamp, lits, other)
    }
}

/// Whether a number is among those that are far.
#[cold]
#[inline(never)]
fn is_far(far: &IndexSet<usize>, number: usize) -> bool
    ensures { IsTrue result ↔ IsFar far.now.keys number }
{
    far.contains(&number)
}

/// Takes all numbers out of a set, and gives its memory back: clearing it would take time for each
/// one that it ever had.
#[inline(always)]
fn clear_far(alloc: Global, far: &mut IndexSet<usize>)
    ensures { far.new.keys ≡ [] }
{
    if !far.is_empty() {
        *far = IndexSet::new(alloc);
    }
}

/// Puts a number among those that are far.
#[cold]
#[inline(never)]
fn put_far(far: &mut IndexSet<usize>, number: usize) -> Result<(), AllocError>
    ensures { (n : ℕ) → IsFar far.new.keys n
        ↔ (IsFar far.old.keys n ⊎ ((n ≡ number) × IsOk result)) }
{
    match far.insert(number) {
        Ok(_) => Ok(()),
        Err(_) => Err(AllocError),
    }
}

/// Gives a variable a stamp. `false` if it has that one, or there is no room for it.
#[inline(always)]
fn stamp_var(stamps: &mut [u32], stamp: u32, var: Var) -> bool
    ensures new { IsTrue result → get_or stamps.old var 0 ≢ stamp }
    ensures stamped { IsTrue result → get_or stamps.new var 0 ≡ stamp }
    ensures kept { (n : ℕ) → get_or stamps.old n 0 ≡ stamp → get_or stamps.new n 0 ≡ stamp }
    ensures upto { AreUpTo stamps.old stamp → AreUpTo stamps.new stamp }
{
    let position = var.number() as usize;
    if position >= stamps.len() || stamps[position] == stamp {
        return false;
    }
    stamps[position] = stamp;
    true
}

/// Stamps `other`, then each variable; `false` at the first repetition.
fn stamp_vars(stamps: &mut [u32], stamp: u32, lits: &[Lit], other: Var) -> bool
    ensures clean { IsTrue result → IsClean lits.now }
    ensures apart { IsTrue result → IsApart lits.now other }
    ensures upto { AreUpTo stamps.old stamp → AreUpTo stamps.new stamp }
{
    if !stamp_var(stamps, stamp, other) {
        return false;
    }
    for lit in lits {
        if !stamp_var(stamps, stamp, lit.var()) {
            return false;
        }
    }
    true
}

/// Gives a literal a stamp. `false` if its negation has that one, or there is no room for both.
/// Notes if the literal has it already.
#[inline(always)]
fn stamp_lit(stamps: &mut [u32], stamp: u32, lit: Lit, repeated: &mut bool) -> bool
    ensures clean { IsTrue result → get_or stamps.old (code (negated lit)) 0 ≢ stamp }
    ensures stamped { (n : ℕ) → get_or stamps.new n 0 ≡ stamp
        ↔ ((get_or stamps.old n 0 ≡ stamp) ⊎ ((n ≡ code lit) × IsTrue result)) }
    ensures upto { AreUpTo stamps.old stamp → AreUpTo stamps.new stamp }
{
    let (number, opposite) = codes(lit);
    if number.max(opposite) >= stamps.len() || stamps[opposite] == stamp {
        return false;
    }
    if stamps[number] == stamp {
        *repeated = true;
    }
    stamps[number] = stamp;
    true
}

/// Gives the first literals of a list a stamp, and returns how many: all of them, or those before
/// one whose negation has it, or for which there is no room. Notes if one has it already.
#[inline(never)]
fn stamp_clean(stamps: &mut [u32], stamp: u32, lits: &[Lit], repeated: &mut bool) -> usize
    ensures within { result ≤ length lits.now }
    ensures clean { IsClean (take result lits.now) }
    ensures stamped { (l : Literal) → get_or stamps.new (code l) 0 ≡ stamp
        ↔ ((get_or stamps.old (code l) 0 ≡ stamp) ⊎ l ∈ take result lits.now) }
    ensures upto { AreUpTo stamps.old stamp → AreUpTo stamps.new stamp }
{
    for position in 0..lits.len() {
        if !stamp_lit(stamps, stamp, lits[position], repeated) {
            return position;
        }
    }
    lits.len()
}

/// Puts in the literals from a position on, and says whether all are clean. Those before the
/// position are all that the set has.
///
/// # Errors
/// If an allocation fails.
#[cold]
#[inline(never)]
fn put_if_clean(seen: &mut SeenLits, lits: &[Lit], begin: usize) -> Result<bool, AllocError>
    requires clean { IsClean (take begin lits.now) }
    requires members { (l : Literal) → Has seen.old l ↔ l ∈ take begin lits.now }
    ensures clean { IfOk result (λ t. IsTrue t → IsClean lits.now) }
    ensures members { IfOk result
        (λ t. IsTrue t → (l : Literal) → Has seen.new l ↔ l ∈ lits.now) }
{
    for position in begin..lits.len() {
        let lit = lits[position];
        if seen.contains(lit.negated()) {
            return Ok(false);
        }
        let again = seen.contains(lit);
        seen.note_repeated(again);
        seen.put(lit)?;
    }
    Ok(true)
}

/// Replaces the set by these literals if they are clean, and says whether it did. Notes if one is
/// there twice.
///
/// # Errors
/// If an allocation fails.
pub(crate) fn set_if_clean(seen: &mut SeenLits, lits: &[Lit]) -> Result<bool, AllocError>
    ensures clean { IfOk result (λ t. IsTrue t → IsClean lits.now) }
    ensures members { IfOk result
        (λ t. IsTrue t → (l : Literal) → Has seen.new l ↔ l ∈ lits.now) }
{
    seen.clear();
    let begin = stamp_clean(&mut seen.stamps, seen.stamp, lits, &mut seen.repeated);
    if begin == lits.len() {
        return Ok(true);
    }
    put_if_clean(seen, lits, begin)
}

/// Puts in each literal of a list.
///
/// # Errors
/// If an allocation fails. The literals from that one on are not put in then.
#[tactic(auto, using(qbf_core::proofs::Members::take_within))]
pub(crate) fn put_each(seen: &mut SeenLits, lits: &[Lit]) -> Result<(), AllocError>
    ensures { (l : Literal) → Has seen.new l → Has seen.old l ⊎ (l ∈ lits.now) }
{
    for lit in lits {
        seen.put(*lit)?;
    }
    Ok(())
}

/// A literal of a list whose negation is in a set.
#[tactic(auto, using(qbf_core::proofs::Members::in_at))]
pub(crate) fn find_negated(seen: &SeenLits, lits: &[Lit]) -> Option<Lit>
    ensures { IfSome result (λ x. (x ∈ lits.now) × Has seen.now (negated x)) }
{
    for other in lits {
        if seen.contains(other.negated()) {
            return Some(*other);
        }
    }
    None
}

/// Whether literals are seen to be clean.
pub(crate) fn surely_clean(
    seen: &mut SeenLits,
    prefix: &Prefix,
    lits: &[Lit],
) -> Result<bool, AllocError>
    ensures { IfOk result (λ t. IsTrue t → IsClean lits.now) }
{
    if is_ordered(lits) {
        return Ok(true);
    }
    seen.make_room(prefix)?;
    set_if_clean(seen, lits)
}
