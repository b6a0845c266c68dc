//! Initial cubes: each clause of the formula is watched by one of its literals, and looked at again
//! only if a cube lacks that literal.

ghost use Rattle.std.specs.Prelude.{◌≡◌, ℕ, ◌+◌, ◌<◌, ◌≤◌, [], ◌∷◌, ◌++◌, length, Contains};
ghost use Rattle.std.specs.Prelude.{Some, IsTrue, IfOk, IfSome, OnErr, OnOk, slice_get};
ghost use Rattle.qbf_core.specs.Literal.{Literal};
ghost use Rattle.qbf_core.specs.Members.{◌∈◌};
ghost use Rattle.qbf_core.specs.Qbf.{Qbf};
ghost use Rattle.qbf_core.specs.Rules.{Cubes};
ghost use Rattle.written_steps.specs.Accepted.{IsAcceptedBy};
ghost use Rattle.qrp_rules.specs.Conditions.{initial_condition};
ghost use Rattle.written_steps.specs.Seen.{Has};
ghost use Rattle.written_steps.specs.declared.initial_cubes.Watch.{Watch};
ghost use Rattle.written_steps.specs.Watches.{IsMet, IsTakenOut, IsWatched, IsWatchedBy, IsWatching};
ghost use Rattle.written_steps.specs.Watches.{KeepsWatches};

use crate::cube_fault::is_tautology;
use crate::seen::{SeenLits, code, set_if_clean};
use qbf_core::{Formula, Lit, are_bound};
use std::alloc::{AllocError, Global};

/// Clauses that hold a literal.
#[derive(Drop)]
struct Watch {
    lit: Lit,
    /// The places of the clauses.
    clauses: Vec<usize>,
}

/// A cube: its literals as they are written, and as a set.
#[derive(Clone, Copy)]
struct Cube<'a> {
    lits: &'a [Lit],
    seen: &'a SeenLits,
}

/// Whether a clause is seen to have a literal, if it is in order.
fn surely_among(clause: &[Lit], lit: Lit) -> bool
    ensures { IsTrue result → lit ∈ clause.now }
{
    let number = lit.var().number();
    let place = clause.partition_point(|other| other.var().number() < number);
    match clause.get(place) {
        Some(other) => *other == lit,
        None => false,
    }
}

/// A clause is long for a cube if it has more than so many times its literals.
const TIMES: usize = 32;

/// A literal of the cube that a clause has: of one that is long for it and in order.
fn find_in_long(clause: &[Lit], cube: Cube) -> Option<Lit>
    ensures { IfSome result (λ lit. (lit ∈ clause.now) × Has cube.entry.seen.now lit) }
{
    if clause.len() / TIMES <= cube.lits.len() {
        return None;
    }
    for lit in cube.lits {
        if cube.seen.contains(*lit) && surely_among(clause, *lit) {
            return Some(*lit);
        }
    }
    None
}

/// Adds a clause to those of a literal.
fn add(watch: &mut Watch, clause: usize) -> Result<(), AllocError>
    ensures lit { watch.new.lit ≡ watch.old.lit }
    ensures kept { (i : ℕ) → Contains watch.old.clauses.items i
        → Contains watch.new.clauses.items i }
    ensures added { OnOk result (Contains watch.new.clauses.items clause) }
{
    watch.clauses.push(clause)?;
    Ok(())
}

/// Compares the initial cubes of a trace with the formula: each clause is watched by one of its
/// literals that the last cube held.
#[derive(Drop)]
pub(crate) struct InitialCubes {
    alloc: Global,
    /// Whether each clause is watched.
    is_watching: bool,
    /// The literals that watch clauses, each with its clauses.
    lists: Vec<Watch>,
    /// For each literal, by its number, where its list may be. The literal of that list is
    /// compared.
    positions: Vec<u32>,
    /// Emptied lists, which are used again.
    spare: Vec<Vec<usize>>,
    /// The literals of a clause that has none of the cube.
    unmet: SeenLits,
}

impl InitialCubes {
    /// Nothing is watched. It takes no memory.
    pub(crate) fn new(alloc: Global) -> InitialCubes
        ensures { (f : Qbf) → IsWatching f result }
    {
        InitialCubes {
            alloc,
            is_watching: false,
            lists: Vec::new(alloc),
            positions: Vec::new(alloc),
            spare: Vec::new(alloc),
            unmet: SeenLits::new(alloc),
        }
    }

    /// Where the list of a literal is, or `None` if it has none.
    fn position(&self, lit: Lit) -> Option<usize>
        ensures { IfSome result (λ position. (w : Watch)
            × (slice_get self.now.lists.items position ≡ Some w) × (w.lit ≡ lit)) }
    {
        let position = *self.positions.get(code(lit))? as usize;
        if self.lists.get(position)?.lit == lit {
            Some(position)
        } else {
            None
        }
    }

    /// The literal of the list at a position.
    fn literal(&self, position: usize) -> Lit
        requires { position < length self.now.lists.items }
        ensures { (w : Watch) × (slice_get self.now.lists.items position ≡ Some w)
            × (w.lit ≡ result) }
    {
        self.lists[position].lit
    }

    /// Records where the list of a literal is.
    fn set_position(&mut self, lit: Lit, position: usize)
        ensures { self.new.lists ≡ self.old.lists }
    {
        let index = code(lit);
        if index < self.positions.len() {
            self.positions[index] = position.min(u32::MAX as usize) as u32;
        }
    }

    /// Adds the list of a literal that has none.
    fn push_list(&mut self, list: Watch) -> Result<(), AllocError>
        ensures lists { OnOk result (self.new.lists.items ≡ self.old.lists.items ++ list ∷ []) }
        ensures err { OnErr result (self.new.lists.items ≡ self.old.lists.items) }
    {
        let position = self.lists.len();
        self.set_position(list.lit, position);
        self.lists.push(list)?;
        Ok(())
    }

    /// Takes out the list at a position. The last one takes its place.
    fn take_list(&mut self, position: usize) -> Vec<usize>
        requires { position < length self.old.lists.items }
        ensures taken { IsTakenOut self.old.lists.items position result.items
            self.new.lists.items }
        ensures len { length self.new.lists.items + 1 ≡ length self.old.lists.items }
    {
        let list = self.lists.swap_remove(position);
        if position < self.lists.len() {
            let moved = self.literal(position);
            self.set_position(moved, position);
        }
        list.clauses
    }

    /// A list of no clauses: a spare one, if there is one.
    fn spare_list(&mut self) -> Vec<usize>
        ensures { self.new.lists ≡ self.old.lists }
    {
        match self.spare.pop() {
            Some(list) => list,
            None => Vec::new(self.alloc),
        }
    }

    /// Watches a clause by a literal.
    fn watch_by(&mut self, lit: Lit, clause: usize) -> Result<(), AllocError>
        ensures kept { KeepsWatches self.old.lists.items self.new.lists.items }
        ensures added { OnOk result ((k : ℕ) × IsWatchedBy self.new.lists.items k lit clause) }
    {
        match self.position(lit) {
            Some(position) => add(&mut self.lists[position], clause),
            None => {
                let mut clauses = self.spare_list();
                clauses.push(clause)?;
                self.push_list(Watch { lit, clauses })
            }
        }
    }

    /// Watches a clause by a literal that was seen. `false` if it needs one and has none.
    fn watch_clause(
        &mut self,
        formula: &Formula,
        cube: Cube,
        clause: usize,
    ) -> Result<bool, AllocError>
        ensures kept { KeepsWatches self.old.lists.items self.new.lists.items }
        ensures met { IfOk result
            (λ is. IsTrue is → IsMet 0 formula.now cube.entry.seen.now self.new.lists.items clause) }
    {
        if clause >= formula.clauses() {
            return Ok(false);
        }
        let lits = formula.clause(clause);
        if let Some(lit) = find_in_long(lits, cube) {
            self.watch_by(lit, clause)?;
            return Ok(true);
        }
        for lit in lits {
            if cube.seen.contains(*lit) {
                self.watch_by(*lit, clause)?;
                return Ok(true);
            }
        }
        is_tautology(&mut self.unmet, formula.prefix(), lits)
    }

    /// Watches each clause of the formula.
    fn watch_all(&mut self, formula: &Formula, cube: Cube) -> Result<bool, AllocError>
        ensures { IfOk result (λ is. IsTrue is
            → (i : ℕ) → IsMet 0 formula.now cube.entry.seen.now self.new.lists.items i) }
    {
        for position in 0..formula.clauses() {
            if !self.watch_clause(formula, cube, position)? {
                return Ok(false);
            }
        }
        Ok(true)
    }

    /// Takes out the list at a position, and watches its clauses by literals that were seen.
    fn move_clauses(
        &mut self,
        formula: &Formula,
        cube: Cube,
        position: usize,
    ) -> Result<bool, AllocError>
        requires { position < length self.old.lists.items }
        ensures met { IfOk result (λ is. IsTrue is → (i : ℕ)
            → IsMet (position + 1) formula.now cube.entry.seen.now self.old.lists.items i
            → IsMet position formula.now cube.entry.seen.now self.new.lists.items i) }
        ensures len { IfOk result (λ _. position ≤ length self.new.lists.items) }
    {
        let mut clauses = self.take_list(position);
        while let Some(clause) = clauses.pop() {
            if !self.watch_clause(formula, cube, clause)? {
                return Ok(false);
            }
        }
        self.spare.push(clauses)?;
        Ok(true)
    }

    /// Watches each clause by a literal that was seen. Before this, each is watched by any of its
    /// literals.
    fn renew(&mut self, formula: &Formula, cube: Cube) -> Result<bool, AllocError>
        requires { (i : ℕ) → IsWatched formula.now self.old.lists.items i }
        ensures { IfOk result (λ is. IsTrue is
            → (i : ℕ) → IsMet 0 formula.now cube.entry.seen.now self.new.lists.items i) }
    {
        for position in (0..self.lists.len()).rev() {
            if cube.seen.contains(self.literal(position)) {
                continue;
            }
            if !self.move_clauses(formula, cube, position)? {
                return Ok(false);
            }
        }
        Ok(true)
    }

    /// Watches each clause by a literal that was seen. `false` says that one has none.
    fn watch(&mut self, formula: &Formula, cube: Cube) -> Result<bool, AllocError>
        requires { IsWatching formula.now self.old }
        ensures { IfOk result (λ is. IsTrue is
            → (i : ℕ) → IsMet 0 formula.now cube.entry.seen.now self.new.lists.items i) }
    {
        if self.is_watching {
            return self.renew(formula, cube);
        }
        if self.positions.is_empty() {
            self.positions = vec![in self.alloc; 0; cube.seen.room()]?;
        }
        self.watch_all(formula, cube)
    }

    /// Accepts literals that are an initial cube, clean and bound.
    pub(crate) fn accepts_initial(
        &mut self,
        formula: &Formula,
        seen: &mut SeenLits,
        lits: &[Lit],
    ) -> Result<bool, AllocError>
        requires { IsWatching formula.now self.old }
        ensures accepted { IfOk result (IsAcceptedBy
            (initial_condition Cubes formula.now lits.now ∷ []) formula.now.blocks lits.now) }
        ensures kept { OnOk result (IsWatching formula.now self.new) }
    {
        seen.make_room(formula.prefix())?;
        if !are_bound(formula.prefix(), lits) {
            return Ok(false);
        }
        if !set_if_clean(seen, lits)? {
            return Ok(false);
        }
        self.is_watching = self.watch(formula, Cube { lits, seen })?;
        Ok(self.is_watching)
    }
}
