//! The states of reading a formula, and what each makes of a token.

ghost use Rattle.std.specs.Prelude.{◌≡◌, ◌≤◌, true};
ghost use Rattle.std.specs.List.{AllByRecursion};
ghost use Rattle.qbf_core.specs.Blocks.{pairs, variables, IsPrefix};
ghost use Rattle.qdimacs.specs.declared.states.State.TheVariants as at;
ghost use Rattle.qdimacs.specs.declared.states.Parts.{Parts};
ghost use Rattle.qdimacs.specs.States.{state_at, Moves, Leads, IsSound};
ghost use Rattle.qdimacs.specs.Reading.{IsFull, row};

use crate::fault::FormulaFault;
use crate::tokens::{FAULTS, FORM, decode_bound_literal, decode_clause_or_end};
use dimacs_syntax::{HeaderAt, HeaderMove, decode_member, decode_quantifier, header_move};
use lists::GrowingLists;
use qbf_core::{Lit, Prefix, PrefixFault, Quantifier};
use qbf_text::Stop;
use qbf_tokens::Token;

/// Where the next token stands.
#[derive(Clone, Copy)]
pub enum State {
    /// In the header, at this place.
    InHeader(HeaderAt),
    /// Between lists.
    Between,
    /// In a set with this quantifier.
    InSet(Quantifier),
    /// In a clause.
    InClause,
    /// After the end.
    Whole,
}

/// The state that a token leads to, or why it is not taken.
type Transition = Result<State, Stop<FormulaFault>>;

/// The parts of a formula that were read.
#[derive(Drop)]
pub struct Parts {
    /// The number of variables that the header says.
    pub max_var: u32,
    /// The number of clauses that the header says.
    pub count: u32,
    pub prefix: Prefix,
    /// Whether each variable that the header allows is bound, after the last whole set.
    pub full: bool,
    /// The literals of the clauses, and of the unfinished one.
    pub clauses: GrowingLists<Lit>,
}

/// Whether a prefix binds each variable up to this one.
fn surely_full(prefix: &Prefix, max_var: u32) -> bool
    requires top { AllByRecursion (λ v. v ≤ max_var) (variables (pairs prefix.now)) }
    ensures full { result ≡ true → IsFull max_var (pairs prefix.now) }
    ensures sound { IsPrefix prefix.now }
{
    prefix.len() == max_var as usize
}

/// Takes a token in the header.
fn take_header(parts: &mut Parts, place: HeaderAt, token: Token) -> Transition
    requires sound { IsSound (at.InHeader place) parts.old }
    ensures row { Moves (row (state_at parts.old (at.InHeader place)) token) parts.new result }
    ensures sound { Leads parts.old parts.new result }
{
    match header_move(FORM, place, token)? {
        HeaderMove::Next(next) => Ok(State::InHeader(next)),
        HeaderMove::Done(max_var, count) => {
            parts.max_var = max_var as u32;
            parts.count = count as u32;
            parts.full = surely_full(&parts.prefix, parts.max_var);
            Ok(State::Between)
        }
    }
}

/// Takes a token in a set.
#[inline(always)]
pub fn take_member(parts: &mut Parts, quantifier: Quantifier, token: Token) -> Transition
    requires sound { IsSound (at.InSet quantifier) parts.old }
    ensures row { Moves (row (state_at parts.old (at.InSet quantifier)) token) parts.new result }
    ensures sound { Leads parts.old parts.new result }
{
    match decode_member(FAULTS, parts.max_var, token)? {
        Some(var) => match parts.prefix.push(quantifier, var) {
            Ok(()) => Ok(State::InSet(quantifier)),
            Err(PrefixFault::B1) => Err(Stop::Text(FormulaFault::F5)),
            Err(PrefixFault::B2) => Err(Stop::Memory),
        },
        None => {
            if parts.prefix.widen().is_err() {
                return Err(Stop::Memory);
            }
            parts.full = surely_full(&parts.prefix, parts.max_var);
            Ok(State::Between)
        }
    }
}

/// Takes a token in a clause.
#[inline(always)]
pub fn take_literal(parts: &mut Parts, token: Token) -> Transition
    requires sound { IsSound at.InClause parts.old }
    ensures row { Moves (row (state_at parts.old at.InClause) token) parts.new result }
    ensures sound { Leads parts.old parts.new result }
{
    let said = decode_bound_literal(&parts.prefix, parts.max_var, parts.full, token);
    match said? {
        Some(lit) => match parts.clauses.push(lit) {
            Ok(()) => Ok(State::InClause),
            Err(_) => Err(Stop::Memory),
        },
        None => match parts.clauses.close() {
            Ok(()) => Ok(State::Between),
            Err(_) => Err(Stop::Memory),
        },
    }
}

/// Takes a token between lists.
#[inline(always)]
#[tactic(auto, using(crate::proofs::FormulaParts::made_whole))]
fn take_list_start(parts: &mut Parts, token: Token) -> Transition
    requires sound { IsSound at.Between parts.old }
    ensures row { Moves (row (state_at parts.old at.Between) token) parts.new result }
    ensures sound { Leads parts.old parts.new result }
{
    if parts.clauses.whole_len() == 0 {
        if let Some(quantifier) = decode_quantifier(token) {
            return Ok(State::InSet(quantifier));
        }
    }
    let has_more = parts.clauses.whole_len() < parts.count as usize;
    match decode_clause_or_end(has_more, token)? {
        true => take_literal(parts, token),
        false => Ok(State::Whole),
    }
}

/// The state that a token leads to.
#[inline(always)]
pub fn take_at(here: State, parts: &mut Parts, token: Token) -> Transition
    requires sound { IsSound here parts.old }
    ensures row { Moves (row (state_at parts.old here) token) parts.new result }
    ensures sound { Leads parts.old parts.new result }
{
    match here {
        State::InClause => take_literal(parts, token),
        State::Between => take_list_start(parts, token),
        State::InSet(quantifier) => take_member(parts, quantifier, token),
        State::InHeader(place) => take_header(parts, place, token),
        State::Whole => Err(Stop::Text(FormulaFault::F3)),
    }
}
