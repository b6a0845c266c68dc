//! The numbers of a trace that are buffered: steps that stand whole, and what a window cuts.

ghost use Rattle.std.specs.Prelude.{◌≡◌, ◌≤◌, ◌<◌, ◌+◌, length, pos};
ghost use Rattle.std.specs.Prelude.{slice_index_or, IfSome, IfNone, IfOk, IsTrue};
ghost use Rattle.qbf_text.specs.TakenNumbers.{LeadsOver};
ghost use Rattle.qrp.specs.declared.states.State.TheVariants as at;
ghost use Rattle.trace_items.specs.Flat.{kept_of, IsFlat};
ghost use Rattle.qrp.specs.Reading.{row};
ghost use Rattle.qrp.specs.States.{completed, state_at, Arrives, IsSound};
ghost use Rattle.trace_items.specs.Parts.{Stays};
ghost use Rattle.qrp.specs.WholeTrace.{trace_at, trace_row, AreSound};
ghost use Rattle.window_numbers.specs.Values.{numbers_of};

use crate::states::{State, take_at, take_item_start};
use crate::tokens::{FAULTS, decode_antecedent};
use dimacs_syntax::{decode_member, extend_literals};
use qbf_core::{LAST_VARIABLE, Quantifier};
use qbf_text::Stop;
use std::alloc::AllocError;
use trace_items::{AntecedentPair, Lists, Part, Parts, StepLists, close};
use window_numbers::{Values, Zeros};

/// Two places among the buffered numbers.
#[derive(Clone, Copy)]
pub struct NextPlaces {
    /// The place of the next number.
    pub from: usize,
    /// The place where the next zero seems to stand.
    pub zero: usize,
}

impl NextPlaces {
    /// The place of the next number, and the place where the zero with this number seems to stand.
    #[inline(always)]
    pub fn new(from: usize, zeros: Zeros, zero: usize) -> NextPlaces
        ensures { result.from ≡ from }
    {
        NextPlaces {
            from,
            zero: zeros.place(zero),
        }
    }
}

/// Where the next token stands, the place of the next number, and the part that is complete.
pub type Arrived = (State, Result<(usize, Option<Part>), AllocError>);

/// Puts literals of an unfinished step, as many as there seem to be up to the next zero. Returns the
/// place of the next number.
///
/// # Errors
/// Out of memory. Nothing is changed then.
#[inline(always)]
fn put_literals(
    lists: &mut Lists,
    number: u64,
    values: Values,
    next: NextPlaces,
) -> Result<usize, AllocError>
    requires here { (next.from ≤ length (numbers_of values))
        × IsSound (at.InLits number) lists.old }
    ensures leads { IfOk result (λ to. LeadsOver row (state_at lists.old (at.InLits number))
        (state_at lists.new (at.InLits number)) (numbers_of values.entry) next.from to) }
    ensures within { IfOk result (λ to. to ≤ length (numbers_of values.entry)) }
    ensures sound { Stays lists.old lists.new × IsSound (at.InLits number) lists.new }
{
    let to = next.zero.min(values.len());
    if next.from >= to {
        return Ok(next.from);
    }
    if !extend_literals(&mut lists.lits, values, (next.from, to), LAST_VARIABLE)? {
        return Ok(next.from);
    }
    Ok(to)
}

/// Puts variables of an unfinished set from the place `from` on, as far as they are not a fault.
/// Returns the place of the next number.
///
/// # Errors
/// Out of memory.
#[inline(always)]
#[tactic(auto, using(crate::proofs::BufferedNumbers::numbers_lead_on))]
fn put_members(
    lists: &mut Lists,
    quantifier: Quantifier,
    values: Values,
    from: usize,
) -> Result<usize, AllocError>
    requires here { (from ≤ length (numbers_of values))
        × IsSound (at.InSet quantifier) lists.old }
    ensures leads { IfOk result (λ to. LeadsOver row (state_at lists.old (at.InSet quantifier))
        (state_at lists.new (at.InSet quantifier)) (numbers_of values.entry) from to) }
    ensures within { IfOk result (λ to. to ≤ length (numbers_of values.entry)) }
    ensures sound { Stays lists.old lists.new × IsSound (at.InSet quantifier) lists.new }
{
    let mut i = from;
    'members: while i < values.len() {
        match decode_member(FAULTS, LAST_VARIABLE, values.token(i)) {
            Ok(Some(var)) => match lists.vars.push(var) {
                Ok(()) => i += 1,
                Err(_) => return Err(AllocError),
            },
            _ => break,
        }
    }
    Ok(i)
}

/// Puts what an unfinished list has next, but not its zero. Returns the place of the next number.
///
/// # Errors
/// Out of memory.
#[inline(always)]
#[tactic(auto, using(crate::proofs::BufferedNumbers::numbers_lead_on))]
fn put_list(
    here: State,
    lists: &mut Lists,
    values: Values,
    next: NextPlaces,
) -> Result<usize, AllocError>
    requires here { (next.from ≤ length (numbers_of values)) × IsSound here lists.old }
    ensures leads { IfOk result (λ to. LeadsOver row (state_at lists.old here)
        (state_at lists.new here) (numbers_of values.entry) next.from to) }
    ensures within { IfOk result (λ to. to ≤ length (numbers_of values.entry)) }
    ensures sound { Stays lists.old lists.new × IsSound here lists.new }
{
    match here {
        State::InLits(number) => put_literals(lists, number, values, next),
        State::InSet(quantifier) => put_members(lists, quantifier, values, next.from),
        _ => Ok(next.from),
    }
}

/// Takes an antecedent, if one stands at the place `from`. Returns the place of the next number.
#[inline(always)]
fn put_antecedent(lists: &mut Lists, number: u64, values: Values, from: usize) -> usize
    requires here { (from ≤ length (numbers_of values)) × IsSound (at.InAnts number) lists.old }
    ensures leads { LeadsOver row (state_at lists.old (at.InAnts number))
        (state_at lists.new (at.InAnts number)) (numbers_of values.entry) from result }
    ensures within { result ≤ length (numbers_of values.entry) }
    ensures sound { Stays lists.old lists.new × IsSound (at.InAnts number) lists.new }
{
    if from >= values.len() {
        return from;
    }
    let ants = lists.ants.antecedents();
    match decode_antecedent(ants.has_room(), values.token(from)) {
        Ok(Some(ant)) => {
            lists.ants = ants.with(ant).pair();
            from + 1
        }
        _ => from,
    }
}

/// Takes antecedents from the place `from` on, of which there are at most two, but not the zero
/// after them. Returns the place of the next number.
#[inline(always)]
#[tactic(auto, using(crate::proofs::BufferedNumbers::numbers_lead_on))]
fn take_antecedents(lists: &mut Lists, number: u64, values: Values, from: usize) -> usize
    requires here { (from ≤ length (numbers_of values)) × IsSound (at.InAnts number) lists.old }
    ensures leads { LeadsOver row (state_at lists.old (at.InAnts number))
        (state_at lists.new (at.InAnts number)) (numbers_of values.entry) from result }
    ensures within { result ≤ length (numbers_of values.entry) }
    ensures sound { Stays lists.old lists.new × IsSound (at.InAnts number) lists.new }
{
    let second = put_antecedent(lists, number, values, from);
    put_antecedent(lists, number, values, second)
}

/// Takes the number of a step, if one begins here.
#[inline(always)]
#[tactic(auto, using(crate::proofs::BufferedNumbers::numbers_lead_on))]
fn begin_step(lists: &mut Lists, values: Values, from: usize) -> Option<u64>
    requires within { from < length (numbers_of values) }
    ensures leads { IfSome result (λ n. LeadsOver row (state_at lists.old at.Between)
        (state_at lists.new (at.InLits n)) (numbers_of values.entry) from (from + 1)) }
    ensures sound { IfSome result (λ n. IsSound (at.InLits n) lists.new) }
    ensures stays { Stays lists.old lists.new }
{
    match take_item_start(lists, values.token(from)) {
        Ok(State::InLits(number)) => Some(number),
        _ => None,
    }
}

/// Takes the number of a step, if one begins here. Returns where the next token stands, and the
/// place of the next number.
#[inline(always)]
#[tactic(auto, using(crate::proofs::BufferedNumbers::numbers_lead_on))]
fn take_number(here: State, lists: &mut Lists, values: Values, from: usize) -> (State, usize)
    requires here { (from ≤ length (numbers_of values)) × IsSound here lists.old }
    ensures leads { LeadsOver row (state_at lists.old here) (state_at lists.new result.0)
        (numbers_of values.entry) from result.1 }
    ensures within { result.1 ≤ length (numbers_of values.entry) }
    ensures sound { Stays lists.old lists.new × IsSound result.0 lists.new }
{
    let State::Between = here else {
        return (here, from);
    };
    if from >= values.len() {
        return (here, from);
    }
    match begin_step(lists, values, from) {
        Some(number) => (State::InLits(number), from + 1),
        None => (here, from),
    }
}

/// The part that is complete, if one is.
#[inline(always)]
fn completed(here: State) -> Option<Part>
    ensures { result ≡ completed here }
{
    match here {
        State::After(part) => Some(part),
        _ => None,
    }
}

/// Takes numbers from the place `from` on, one by one, as far as they are not a fault and until a
/// part is complete.
///
/// # Errors
/// Out of memory.
#[inline(always)]
fn take_one_by_one(here: State, lists: &mut Lists, values: Values, from: usize) -> Arrived
    requires here { (from ≤ length (numbers_of values)) × IsSound here lists.old }
    ensures takes { IfOk result.1 (λ r. Arrives (state_at lists.old here) lists.new result.0
        (numbers_of values.entry) from r.0 r.1) }
    ensures within { IfOk result.1 (λ r. r.0 ≤ length (numbers_of values.entry)) }
    ensures sound { Stays lists.old lists.new × IsSound result.0 lists.new }
{
    let mut state = here;
    let mut i = from;
    'numbers: while i < values.len() {
        match take_at(state, lists, values.token(i)) {
            Ok(next) => state = next,
            Err(Stop::Memory) => return (state, Err(AllocError)),
            Err(Stop::Text(_)) => break,
        }
        i += 1;
        match completed(state) {
            Some(part) => return (state, Ok((i, Some(part)))),
            None => {}
        }
    }
    (state, Ok((i, None)))
}

/// Takes a part that begins here or has begun, as far as its numbers are buffered.
///
/// # Errors
/// Out of memory.
#[inline(always)]
pub fn take_part(here: State, lists: &mut Lists, values: Values, next: NextPlaces) -> Arrived
    requires here { (next.from ≤ length (numbers_of values)) × IsSound here lists.old }
    ensures takes { IfOk result.1 (λ r. Arrives (state_at lists.old here) lists.new result.0
        (numbers_of values.entry) next.from r.0 r.1) }
    ensures within { IfOk result.1 (λ r. r.0 ≤ length (numbers_of values.entry)) }
    ensures sound { Stays lists.old lists.new × IsSound result.0 lists.new }
{
    let (state, from) = take_number(here, lists, values, next.from);
    match put_list(state, lists, values, NextPlaces { from, ..next }) {
        Ok(to) => take_one_by_one(state, lists, values, to),
        Err(refused) => (state, Err(refused)),
    }
}

/// Whether a zero stands where it seems to stand, and this is not before the next number.
#[inline(always)]
fn surely_zero(values: Values, next: NextPlaces) -> bool
    ensures order { IsTrue result → next.from ≤ next.zero }
    ensures within { IsTrue result → next.zero < length (numbers_of values.entry) }
    ensures zero { IsTrue result
        → slice_index_or (numbers_of values.entry) next.zero (pos 0) ≡ pos 0 }
{
    next.from <= next.zero && values.surely_zero(next.zero)
}

/// Takes the literals of the step with this number, and the zero after them, if all of them stand
/// there. Returns whether they do.
///
/// # Errors
/// Out of memory.
#[inline(always)]
fn take_all_literals(
    lists: &mut Lists,
    number: u64,
    values: Values,
    next: NextPlaces,
) -> Result<bool, AllocError>
    requires sound { IsSound (at.InLits number) lists.old }
    ensures leads { IfOk result (λ b. IsTrue b → (next.zero < length (numbers_of values.entry))
        × LeadsOver row (state_at lists.old (at.InLits number))
        (state_at lists.new (at.InAnts number)) (numbers_of values.entry)
        next.from (next.zero + 1)) }
    ensures sound { IfOk result (λ b. IsTrue b → IsSound (at.InAnts number) lists.new) }
    ensures stays { Stays lists.old lists.new }
{
    if !surely_zero(values, next) {
        return Ok(false);
    }
    let places = (next.from, next.zero);
    if !extend_literals(&mut lists.lits, values, places, LAST_VARIABLE)? {
        return Ok(false);
    }
    lists.ants = AntecedentPair::none();
    Ok(true)
}

/// Takes a step that begins here, but not its last zero, if all of its literals stand there.
/// Returns the number of the step, and the place of the next number.
///
/// # Errors
/// Out of memory.
#[inline(always)]
fn take_whole(
    lists: &mut Lists,
    values: Values,
    next: NextPlaces,
) -> Result<Option<(u64, usize)>, AllocError>
    requires within { next.from < length (numbers_of values) }
    ensures leads { IfOk result (λ o. IfSome o (λ s. (s.1 ≤ length (numbers_of values.entry))
        × LeadsOver row (state_at lists.old at.Between) (state_at lists.new (at.InAnts s.0))
        (numbers_of values.entry) next.from s.1)) }
    ensures sound { IfOk result (λ o. IfSome o (λ s. IsSound (at.InAnts s.0) lists.new)) }
    ensures stays { Stays lists.old lists.new }
{
    let Some(number) = begin_step(lists, values, next.from) else {
        return Ok(None);
    };
    let list = NextPlaces {
        from: next.from + 1,
        ..next
    };
    if !take_all_literals(lists, number, values, list)? {
        return Ok(None);
    }
    let to = take_antecedents(lists, number, values, next.zero + 1);
    Ok(Some((number, to)))
}

/// Where the next token stands, and the place of the next number.
pub type Reached = (State, Result<usize, AllocError>);

/// Takes a part that begins here or has begun, as far as its numbers are buffered, and keeps it if it
/// is complete.
///
/// # Errors
/// Out of memory.
#[inline(always)]
pub fn keep_part<A: StepLists>(
    here: State,
    parts: &mut Parts<A>,
    values: Values,
    next: NextPlaces,
) -> Reached
    requires here { (next.from ≤ length (numbers_of values)) × AreSound A.lists here parts.old }
    ensures leads { IfOk result.1 (λ to. LeadsOver trace_row (trace_at A.lists parts.old here)
        (trace_at A.lists parts.new result.0) (numbers_of values.entry) next.from to) }
    ensures within { IfOk result.1 (λ to. to ≤ length (numbers_of values.entry)) }
    ensures sound { AreSound A.lists result.0 parts.new }
{
    let (state, reached) = take_part(here, &mut parts.lists, values, next);
    let (to, complete) = match reached {
        Ok(taken) => taken,
        Err(refused) => return (state, Err(refused)),
    };
    let Some(part) = complete else {
        return (state, Ok(to));
    };
    match close(parts, part) {
        Ok(()) => (State::Between, Ok(to)),
        Err(refused) => (State::Between, Err(refused)),
    }
}

/// Takes a step that begins here and keeps it, if all of it stands there. Returns the place of the
/// next number.
///
/// # Errors
/// Out of memory.
#[inline(always)]
fn keep_whole<A: StepLists>(
    parts: &mut Parts<A>,
    values: Values,
    next: NextPlaces,
) -> Result<Option<usize>, AllocError>
    requires here { (next.from < length (numbers_of values)) × IsFlat (kept_of A.lists parts.old) }
    ensures leads { IfOk result (λ o. IfSome o
        (λ to. (next.from < to) × (to ≤ length (numbers_of values.entry)) × LeadsOver trace_row
        (trace_at A.lists parts.old at.Between) (trace_at A.lists parts.new at.Between)
        (numbers_of values.entry) next.from to)) }
    ensures none { IfOk result (λ o. IfNone o
        (trace_at A.lists parts.new at.Between ≡ trace_at A.lists parts.old at.Between)) }
    ensures flat { IsFlat (kept_of A.lists parts.new) }
{
    let Some((number, to)) = take_whole(&mut parts.lists, values, next)? else {
        return Ok(None);
    };
    if !values.surely_zero(to) {
        return Ok(None);
    }
    close(parts, Part::Step(number))?;
    Ok(Some(to + 1))
}

/// Whether a number stands at the place, so that a step may be taken whole. One that is not is taken
/// number by number.
#[inline(always)]
fn surely_more(values: Values, from: usize) -> bool
    ensures { IsTrue result → from < length (numbers_of values.entry) }
{
    from < values.len()
}

/// Keeps steps as long as all of the next one stands there. The place of the next number and the
/// number of the next zero go in and out.
///
/// # Errors
/// Out of memory.
#[inline(never)]
pub fn keep_steps<A: StepLists>(
    parts: &mut Parts<A>,
    values: Values,
    zeros: Zeros,
    start: (usize, usize),
) -> Result<(usize, usize), AllocError>
    requires here { (start.0 ≤ length (numbers_of values)) × IsFlat (kept_of A.lists parts.old) }
    ensures leads { IfOk result (λ r. LeadsOver trace_row (trace_at A.lists parts.old at.Between)
        (trace_at A.lists parts.new at.Between) (numbers_of values.entry) start.0 r.0) }
    ensures within { IfOk result (λ r. r.0 ≤ length (numbers_of values.entry)) }
    ensures flat { IsFlat (kept_of A.lists parts.new) }
{
    let (mut from, mut zero) = start;
    'steps: while surely_more(values, from) {
        let next = NextPlaces::new(from, zeros, zero);
        let Some(to) = keep_whole(parts, values, next)? else {
            break;
        };
        from = to;
        zero = zero.wrapping_add(2);
    }
    Ok((from, zero))
}

/// How many zeros are left of an unfinished part.
#[inline(always)]
pub fn zeros_left(here: State) -> usize {
    match here {
        State::InLits(_) => 2,
        State::InAnts(_) | State::InSet(_) => 1,
        _ => 0,
    }
}
