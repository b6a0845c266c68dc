//! The parts of a trace, given one after the other.

ghost use Rattle.std.specs.Prelude.{◌≡◌, IfOk, OnErr};
ghost use Rattle.trace_items.specs.Flat.{kept_of, nothing_kept, IsFlat};
ghost use Rattle.qrp.specs.Items.{HasItem, GivesItem};
ghost use Rattle.qrp.specs.Reading.{AtP};

use crate::buffered_numbers::{NextPlaces, take_part};
use crate::fault::TraceFault;
use crate::states::{State, take_at};
use dimacs_syntax::HeaderAt;
use qbf_text::{Grammar, Progress, Stop, Taken};
use qbf_tokens::Token;
use std::alloc::{AllocError, Global};
use std::marker::Model;
use std::mem;
use trace_items::{Item, LentLists, Part, Parts, QuantSet, Step};
use window_numbers::{Values, Zeros};

/// A trace whose parts are given one after the other.
///
/// Contracts see what is kept of the parts that were given, and the state.
#[derive(Drop)]
pub struct ItemGrammar {
    state: State,
    parts: Parts<LentLists>,
}

impl Model for ItemGrammar {
    ghost use Rattle.trace_items.specs.Flat.{kept_of};
    ghost use Rattle.qrp.specs.Items.{ItemsRead};
    ghost use Rattle.qrp.specs.States.{state_at, IsSound};

    ghost Value = { ItemsRead };

    ghost view = { λ g.
        record { kept = kept_of (λ lists. lists) g.parts; state = state_at g.parts.lists g.state } };

    ghost invariant = { λ g. IsSound g.state g.parts.lists };
}

impl ItemGrammar {
    /// At the beginning of a trace. It takes no memory.
    pub fn new(alloc: Global) -> ItemGrammar
        ensures begins { result ≡ record { kept = nothing_kept; state = AtP } }
        ensures flat { IsFlat result.kept }
    {
        ItemGrammar {
            state: State::InHeader(HeaderAt::P),
            parts: Parts::new(alloc),
        }
    }

    /// The item that is complete. If it is a step, only its number is kept. Its lists are allocated
    /// in exactly their size.
    ///
    /// # Errors
    /// Out of memory. Nothing is changed then.
    pub fn give(&mut self, alloc: Global) -> Result<Item, AllocError>
        requires { HasItem self.old.state }
        ensures gives { IfOk result (λ i. GivesItem i self.old self.new) }
        ensures err { OnErr result (self.new ≡ self.old) }
    {
        let item = match self.state {
            State::After(Part::Header(header)) => Item::Header(header),
            State::After(Part::Set(quantifier)) => {
                let vars = mem::replace(&mut self.parts.lists.vars, Vec::new(alloc));
                Item::Set(QuantSet { quantifier, vars })
            }
            State::After(Part::Step(number)) => {
                let lists = &mut self.parts.lists;
                let lits = Vec::from_slice(alloc, lists.lits.unfinished())?;
                let ants = lists.ants.to_vec(alloc)?;
                lists.index.push(number)?;
                Item::Step(Step { number, lits, ants })
            }
            State::After(Part::Result(outcome)) => return Ok(Item::Result(outcome)),
            _ => unreachable!(),
        };
        self.state = State::Between;
        Ok(item)
    }

    /// The parts that were kept. It takes no memory.
    pub fn into_parts(self) -> Parts<LentLists>
        ensures { kept_of (λ lists. lists) result ≡ self.kept }
    {
        let mut parts = self.parts;
        parts.lists.index.place_all();
        parts
    }
}

impl Grammar for ItemGrammar {
    ghost use Rattle.trace_items.specs.Flat.{Kept};
    ghost use Rattle.qrp.specs.Reading.{State, row};

    type Output = ();

    type Fault = TraceFault;

    ghost State = { State };

    ghost state = { λ g. g.state };

    ghost row_of = { row };

    ghost Kept = { Kept };

    ghost kept = { λ g. g.kept };

    #[inline(always)]
    fn take_numbers(&mut self, values: Values, zeros: Zeros) -> Result<Progress<()>, AllocError> {
        let next = NextPlaces::new(0, zeros, 0);
        let (state, reached) = take_part(self.state, &mut self.parts.lists, values, next);
        self.state = state;
        match reached? {
            (to, Some(_)) => Ok((to, Some(()))),
            (to, None) => Ok((to, None)),
        }
    }

    #[inline(always)]
    fn take(&mut self, token: Token) -> Result<Taken<()>, Stop<TraceFault>> {
        self.state = take_at(self.state, &mut self.parts.lists, token)?;
        match self.state {
            State::After(_) => Ok(Taken::Done(())),
            _ => Ok(Taken::More),
        }
    }
}
