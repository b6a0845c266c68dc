//! Builds a formula from its tokens.

ghost use Rattle.std.specs.Prelude.{◌≡◌};
ghost use Rattle.qdimacs.specs.Reading.{AtP, Whole, IsWhole};

use crate::buffered_numbers::take_numbers;
use crate::fault::FormulaFault;
use crate::states::{Parts, State, take_at};
use dimacs_syntax::HeaderAt;
use lists::GrowingLists;
use qbf_core::{Formula, Prefix};
use qbf_text::{Grammar, Progress, Stop, Taken};
use qbf_tokens::Token;
use std::alloc::{AllocError, Global};
use std::marker::Model;
use window_numbers::{Values, Zeros};

/// A formula that is read into flat buffers.
///
/// Contracts see where the next token stands.
#[derive(Drop)]
pub(crate) struct FormulaGrammar {
    state: State,
    parts: Parts,
}

impl Model for FormulaGrammar {
    ghost use Rattle.qdimacs.specs.States.{state_at, IsSound};
    ghost use Rattle.qdimacs.specs.Reading.{State};

    ghost Value = { State };

    ghost view = { λ g. state_at g.parts g.state };

    ghost invariant = { λ g. IsSound g.state g.parts };
}

impl FormulaGrammar {
    /// At the beginning of a formula. It takes no memory.
    pub(crate) fn new(alloc: Global) -> FormulaGrammar
        ensures { result ≡ AtP }
    {
        FormulaGrammar {
            state: State::InHeader(HeaderAt::P),
            parts: Parts {
                max_var: 0,
                count: 0,
                prefix: Prefix::new(alloc),
                full: false,
                clauses: GrowingLists::new(alloc),
            },
        }
    }

    /// The formula that was read. It takes no memory.
    pub(crate) fn into_formula(self) -> Formula
        requires { IsWhole self }
        ensures { self ≡ Whole result }
    {
        match self.state {
            State::Whole => {
                let parts = self.parts;
                Formula::from_parts(parts.max_var, parts.prefix, parts.clauses)
            }
            _ => unreachable!(),
        }
    }
}

impl Grammar for FormulaGrammar {
    ghost use Rattle.qdimacs.specs.Reading.{State, row};

    type Output = ();

    type Fault = FormulaFault;

    ghost State = { State };

    ghost state = { λ g. g };

    ghost row_of = { row };

    ghost Kept = { Unit {0} };

    ghost kept = { λ _. tt };

    #[inline(always)]
    fn take_numbers(&mut self, values: Values, zeros: Zeros) -> Result<Progress<()>, AllocError> {
        let (state, reached) = take_numbers(self.state, &mut self.parts, values, zeros);
        self.state = state;
        Ok((reached?, None))
    }

    #[inline(always)]
    fn take(&mut self, token: Token) -> Result<Taken<()>, Stop<FormulaFault>> {
        self.state = take_at(self.state, &mut self.parts, token)?;
        match self.state {
            State::Whole => Ok(Taken::Done(())),
            _ => Ok(Taken::More),
        }
    }
}
