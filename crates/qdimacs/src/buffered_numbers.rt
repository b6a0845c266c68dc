//! The numbers of a formula that are buffered: clauses that stand whole, and what a window cuts.

ghost use Rattle.std.specs.Prelude.{◌≡◌, ◌≤◌, ◌<◌, ◌+◌, true, false, length, IfOk, IsTrue};
ghost use Rattle.std.specs.Prelude.{pos, slice_index_or};
ghost use Rattle.qbf_text.specs.TakenNumbers.{LeadsOver};
ghost use Rattle.qdimacs.specs.declared.states.State.TheVariants as at;
ghost use Rattle.qdimacs.specs.States.{state_at, IsSound};
ghost use Rattle.qdimacs.specs.Reading.{row};
ghost use Rattle.window_numbers.specs.Values.{numbers_of};

use crate::states::{Parts, State, take_at, take_literal, take_member};
use dimacs_syntax::extend_literals;
use qbf_core::Quantifier;
use qbf_text::Stop;
use std::alloc::AllocError;
use window_numbers::{Values, Zeros};

/// Where the next token stands, and the place of the next number.
pub type Reached = (State, Result<usize, AllocError>);

/// Puts the numbers between two places at the end of an unfinished clause, if all of them are
/// literals and each variable that the header allows is bound. Returns the place of the next
/// number.
///
/// # Errors
/// Out of memory. Nothing is changed then.
#[inline(always)]
fn put_literals(
    parts: &mut Parts,
    values: Values,
    from: usize,
    end: usize,
) -> Result<usize, AllocError>
    requires here { (from ≤ length (numbers_of values)) × IsSound at.InClause parts.old }
    ensures leads { IfOk result (λ to. LeadsOver row (state_at parts.old at.InClause)
        (state_at parts.new at.InClause) (numbers_of values.entry) from to) }
    ensures within { IfOk result (λ to. to ≤ length (numbers_of values.entry)) }
    ensures sound { IsSound at.InClause parts.new }
{
    let to = end.min(values.len());
    if !parts.full || from >= to {
        return Ok(from);
    }
    if !extend_literals(&mut parts.clauses, values, (from, to), parts.max_var)? {
        return Ok(from);
    }
    Ok(to)
}

/// Takes numbers of a clause from the place `from` on, as far as they are not a fault, and its
/// zero.
///
/// # Errors
/// Out of memory.
#[inline(always)]
#[tactic(auto, using(crate::proofs::FormulaParts::numbers_lead_on))]
fn take_literals(parts: &mut Parts, values: Values, from: usize) -> Reached
    requires here { (from ≤ length (numbers_of values)) × IsSound at.InClause parts.old }
    ensures leads { IfOk result.1 (λ to. LeadsOver row (state_at parts.old at.InClause)
        (state_at parts.new result.0) (numbers_of values.entry) from to) }
    ensures within { IfOk result.1 (λ to. to ≤ length (numbers_of values.entry)) }
    ensures sound { IsSound result.0 parts.new }
{
    let mut i = from;
    'literals: while i < values.len() {
        match take_literal(parts, values.token(i)) {
            Ok(State::InClause) => i += 1,
            Ok(next) => return (next, Ok(i + 1)),
            Err(Stop::Memory) => return (State::InClause, Err(AllocError)),
            Err(Stop::Text(_)) => return (State::InClause, Ok(i)),
        }
    }
    (State::InClause, Ok(i))
}

/// Takes numbers of a clause from the place `from` on, as far as they are not a fault, and its
/// zero, which seems to stand at the place `zero`.
///
/// # Errors
/// Out of memory.
#[inline(always)]
fn take_clause(parts: &mut Parts, values: Values, from: usize, zero: usize) -> Reached
    requires here { (from ≤ length (numbers_of values)) × IsSound at.InClause parts.old }
    ensures leads { IfOk result.1 (λ to. LeadsOver row (state_at parts.old at.InClause)
        (state_at parts.new result.0) (numbers_of values.entry) from to) }
    ensures within { IfOk result.1 (λ to. to ≤ length (numbers_of values.entry)) }
    ensures sound { IsSound result.0 parts.new }
{
    match put_literals(parts, values, from, zero) {
        Ok(to) => take_literals(parts, values, to),
        Err(refused) => (State::InClause, Err(refused)),
    }
}

/// Takes numbers of a set from the place `from` on, as far as they are not a fault, and its zero.
///
/// # Errors
/// Out of memory.
#[inline(always)]
#[tactic(auto, using(crate::proofs::FormulaParts::numbers_lead_on))]
fn take_members(parts: &mut Parts, quantifier: Quantifier, values: Values, from: usize) -> Reached
    requires here { (from ≤ length (numbers_of values))
        × IsSound (at.InSet quantifier) parts.old }
    ensures leads { IfOk result.1 (λ to. LeadsOver row (state_at parts.old (at.InSet quantifier))
        (state_at parts.new result.0) (numbers_of values.entry) from to) }
    ensures within { IfOk result.1 (λ to. to ≤ length (numbers_of values.entry)) }
    ensures sound { IsSound result.0 parts.new }
{
    let mut open = quantifier;
    let mut i = from;
    'members: while i < values.len() {
        match take_member(parts, open, values.token(i)) {
            Ok(State::InSet(next)) => {
                open = next;
                i += 1;
            }
            Ok(next) => return (next, Ok(i + 1)),
            Err(Stop::Memory) => return (State::InSet(open), Err(AllocError)),
            Err(Stop::Text(_)) => break,
        }
    }
    (State::InSet(open), Ok(i))
}

/// Takes the rest of an unfinished set or clause, if there is one.
///
/// # Errors
/// Out of memory.
#[inline(always)]
#[tactic(auto, using(crate::proofs::FormulaParts::numbers_lead_on))]
fn take_unfinished(here: State, parts: &mut Parts, values: Values, zeros: Zeros) -> Reached
    requires sound { IsSound here parts.old }
    ensures leads { IfOk result.1 (λ to. LeadsOver row (state_at parts.old here)
        (state_at parts.new result.0) (numbers_of values.entry) 0 to) }
    ensures within { IfOk result.1 (λ to. to ≤ length (numbers_of values.entry)) }
    ensures sound { IsSound result.0 parts.new }
{
    match here {
        State::InClause => take_clause(parts, values, 0, zeros.place(0)),
        State::InSet(quantifier) => take_members(parts, quantifier, values, 0),
        _ => (here, Ok(0)),
    }
}

/// Takes numbers from the place `from` on, one by one, as far as they are not a fault.
///
/// # Errors
/// Out of memory.
#[inline(always)]
#[tactic(auto, using(crate::proofs::FormulaParts::numbers_lead_on))]
fn take_rest(here: State, parts: &mut Parts, values: Values, from: usize) -> Reached
    requires here { (from ≤ length (numbers_of values)) × IsSound here parts.old }
    ensures leads { IfOk result.1 (λ to. LeadsOver row (state_at parts.old here)
        (state_at parts.new result.0) (numbers_of values.entry) from to) }
    ensures within { IfOk result.1 (λ to. to ≤ length (numbers_of values.entry)) }
    ensures sound { IsSound result.0 parts.new }
{
    let mut state = here;
    let mut i = from;
    'numbers: while i < values.len() {
        match take_at(state, parts, values.token(i)) {
            Ok(next) => state = next,
            Err(Stop::Memory) => return (state, Err(AllocError)),
            Err(Stop::Text(_)) => break,
        }
        i += 1;
        if let State::InClause = state {
            let (next, reached) = take_clause(parts, values, i, values.len());
            state = next;
            match reached {
                Ok(to) => i = to,
                Err(refused) => return (state, Err(refused)),
            }
        }
    }
    (state, Ok(i))
}

/// Whether another clause may come, and each variable that the header allows is bound.
#[inline(always)]
fn takes_any(parts: &Parts) -> bool
    ensures full { IsTrue result → parts.now.full ≡ true }
    ensures more { IsTrue result → length parts.now.clauses.whole < parts.now.count }
{
    parts.full && parts.clauses.whole_len() < parts.count as usize
}

/// Whether the zero of a list that begins at `from` and is not empty stands at `zero`.
#[inline(always)]
fn ends_at(values: Values, from: usize, zero: usize) -> bool
    ensures order { IsTrue result → from < zero }
    ensures within { IsTrue result → zero < length (numbers_of values.entry) }
    ensures zero { IsTrue result
        → slice_index_or (numbers_of values.entry) zero (pos 0) ≡ pos 0 }
{
    from < zero && values.surely_zero(zero)
}

/// Takes a clause between the places `from` and `zero`, if all of it stands there. Returns whether
/// it was taken.
///
/// # Errors
/// Out of memory.
#[inline(always)]
fn take_whole(
    parts: &mut Parts,
    values: Values,
    from: usize,
    zero: usize,
) -> Result<bool, AllocError>
    requires sound { IsSound at.Between parts.old }
    ensures leads { IfOk result (λ b. IsTrue b
        → (from ≤ zero) × (zero < length (numbers_of values.entry))
        × LeadsOver row (state_at parts.old at.Between) (state_at parts.new at.Between)
        (numbers_of values.entry) from (zero + 1)) }
    ensures none { IfOk result (λ b. b ≡ false → parts.new ≡ parts.old) }
    ensures sound { IsSound at.Between parts.new }
{
    if !takes_any(parts) || !ends_at(values, from, zero) {
        return Ok(false);
    }
    if !extend_literals(&mut parts.clauses, values, (from, zero), parts.max_var)? {
        return Ok(false);
    }
    match parts.clauses.close() {
        Ok(()) => Ok(true),
        Err(refused) => {
            parts.clauses.begin();
            Err(refused)
        }
    }
}

/// Takes clauses from the place `start.0` on, as long as all of the next one stands there: the zero
/// with the number `start.1` seems to end the first. Returns the place of the next number.
///
/// # Errors
/// Out of memory.
#[inline(always)]
#[tactic(auto, using(crate::proofs::FormulaParts::numbers_lead_on))]
fn take_clauses(
    parts: &mut Parts,
    values: Values,
    zeros: Zeros,
    start: (usize, usize),
) -> Result<usize, AllocError>
    requires here { (start.0 ≤ length (numbers_of values)) × IsSound at.Between parts.old }
    ensures leads { IfOk result (λ to. LeadsOver row (state_at parts.old at.Between)
        (state_at parts.new at.Between) (numbers_of values.entry) start.0 to) }
    ensures within { IfOk result (λ to. to ≤ length (numbers_of values.entry)) }
    ensures sound { IsSound at.Between parts.new }
{
    let (mut i, mut zero) = start;
    'clauses: while i < values.len() {
        let end = zeros.place(zero);
        if !take_whole(parts, values, i, end)? {
            break;
        }
        i = end + 1;
        zero = zero.wrapping_add(1);
    }
    Ok(i)
}

/// Takes numbers as far as they are not a fault.
///
/// # Errors
/// Out of memory.
#[inline(always)]
#[tactic(auto, using(crate::proofs::FormulaParts::numbers_lead_on))]
pub fn take_numbers(here: State, parts: &mut Parts, values: Values, zeros: Zeros) -> Reached
    requires sound { IsSound here parts.old }
    ensures leads { IfOk result.1 (λ to. LeadsOver row (state_at parts.old here)
        (state_at parts.new result.0) (numbers_of values.entry) 0 to) }
    ensures within { IfOk result.1 (λ to. to ≤ length (numbers_of values.entry)) }
    ensures sound { IsSound result.0 parts.new }
{
    match take_unfinished(here, parts, values, zeros) {
        (State::Between, Ok(from)) => {
            let zero = usize::from(from > 0);
            match take_clauses(parts, values, zeros, (from, zero)) {
                Ok(to) => take_rest(State::Between, parts, values, to),
                Err(refused) => (State::Between, Err(refused)),
            }
        }
        (state, Ok(from)) => take_rest(state, parts, values, from),
        (state, Err(refused)) => (state, Err(refused)),
    }
}
