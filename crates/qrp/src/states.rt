//! The states of reading a trace, and what each makes of a token.

ghost use Rattle.std.specs.Prelude.{◌≡◌};
ghost use Rattle.qrp.specs.declared.states.State.TheVariants as at;
ghost use Rattle.trace_items.specs.declared.parts.Lists.{Lists};
ghost use Rattle.qrp.specs.States.{state_at, Moves, Leads, IsSound};
ghost use Rattle.qrp.specs.Reading.{row};

use crate::fault::TraceFault;
use crate::tokens::{
    FAULTS, FORM, ItemStart, decode_antecedent, decode_item_start, decode_outcome,
};
use dimacs_syntax::{HeaderAt, HeaderMove, decode_literal, decode_member, header_move};
use qbf_core::{LAST_VARIABLE, Quantifier};
use qbf_text::Stop;
use qbf_tokens::Token;
use trace_items::{AntecedentPair, Header, Lists, Part};

/// The place of the next token. The lists so far are in `Lists`.
#[derive(Clone, Copy)]
pub enum State {
    /// In the header, at this place.
    InHeader(HeaderAt),
    /// Between lists.
    Between,
    /// In a set with this quantifier.
    InSet(Quantifier),
    /// In the literals of the step with this number.
    InLits(u64),
    /// In its antecedents.
    InAnts(u64),
    /// After `r`.
    AtResult,
    /// After a part that is complete. No token is accepted until it is handed out, and none after
    /// the result.
    After(Part),
}

/// The state that a token leads to, or why it is not taken.
type Transition = Result<State, Stop<TraceFault>>;

/// Takes a token between lists.
///
/// # Errors
/// The fault of the token at its place.
#[inline(always)]
pub fn take_item_start(lists: &mut Lists, token: Token) -> Transition
    ensures row { Moves (row (state_at lists.old at.Between) token) lists.new result }
    ensures sound { Leads at.Between lists.old lists.new result }
{
    match decode_item_start(lists.index.len() != 0, token)? {
        ItemStart::Set(quantifier) => {
            lists.vars.clear();
            Ok(State::InSet(quantifier))
        }
        ItemStart::Step(number) if lists.index.contains(number) => Err(Stop::Text(TraceFault::P5)),
        ItemStart::Step(number) => {
            lists.lits.begin();
            Ok(State::InLits(number))
        }
        ItemStart::Result => Ok(State::AtResult),
    }
}

/// Takes a token in the literals of a step.
#[inline(always)]
fn take_literal(lists: &mut Lists, number: u64, token: Token) -> Transition
    requires sound { IsSound (at.InLits number) lists.old }
    ensures row { Moves (row (state_at lists.old (at.InLits number)) token) lists.new result }
    ensures sound { Leads (at.InLits number) lists.old lists.new result }
{
    match decode_literal(FAULTS, LAST_VARIABLE, token)? {
        Some(lit) => match lists.lits.push(lit) {
            Ok(()) => Ok(State::InLits(number)),
            Err(_) => Err(Stop::Memory),
        },
        None => {
            lists.ants = AntecedentPair::none();
            Ok(State::InAnts(number))
        }
    }
}

/// Takes a token in the antecedents of a step.
#[inline(always)]
fn take_antecedent(lists: &mut Lists, number: u64, token: Token) -> Transition
    requires sound { IsSound (at.InAnts number) lists.old }
    ensures row { Moves (row (state_at lists.old (at.InAnts number)) token) lists.new result }
    ensures sound { Leads (at.InAnts number) lists.old lists.new result }
{
    let ants = lists.ants.antecedents();
    let Some(ant) = decode_antecedent(ants.has_room(), token)? else {
        return Ok(State::After(Part::Step(number)));
    };
    lists.ants = ants.with(ant).pair();
    Ok(State::InAnts(number))
}

/// Takes a token in a set.
#[inline(always)]
fn take_member(lists: &mut Lists, quantifier: Quantifier, token: Token) -> Transition
    requires sound { IsSound (at.InSet quantifier) lists.old }
    ensures row { Moves (row (state_at lists.old (at.InSet quantifier)) token) lists.new result }
    ensures sound { Leads (at.InSet quantifier) lists.old lists.new result }
{
    match decode_member(FAULTS, LAST_VARIABLE, token)? {
        Some(var) => match lists.vars.push(var) {
            Ok(()) => Ok(State::InSet(quantifier)),
            Err(_) => Err(Stop::Memory),
        },
        None => Ok(State::After(Part::Set(quantifier))),
    }
}

/// The state that a token leads to. Whole lists and the numbers of whole steps stay as they are.
///
/// # Errors
/// Out of memory, or the fault of the token at its place.
#[inline(always)]
pub fn take_at(here: State, lists: &mut Lists, token: Token) -> Transition
    requires sound { IsSound here lists.old }
    ensures row { Moves (row (state_at lists.old here) token) lists.new result }
    ensures sound { Leads here lists.old lists.new result }
{
    match here {
        State::InLits(number) => take_literal(lists, number, token),
        State::InAnts(number) => take_antecedent(lists, number, token),
        State::Between => take_item_start(lists, token),
        State::InSet(quantifier) => take_member(lists, quantifier, token),
        State::AtResult => Ok(State::After(Part::Result(decode_outcome(token)?))),
        State::InHeader(place) => match header_move(FORM, place, token)? {
            HeaderMove::Next(next) => Ok(State::InHeader(next)),
            HeaderMove::Done(vars, steps) => Ok(State::After(Part::Header(Header { vars, steps }))),
        },
        State::After(_) => Err(Stop::Text(TraceFault::P7)),
    }
}
