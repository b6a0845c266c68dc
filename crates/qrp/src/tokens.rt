//! The meaning of one token at its place in a trace.

ghost use Rattle.std.specs.Prelude.{◌≡◌, ◌<◌, ◌^◌, true, IfOk, IfSome};
ghost use Rattle.trace_items.specs.Inferences.{IsNumber};
ghost use Rattle.qrp.specs.Reading.{decode_antecedent, decode_item_start, decode_outcome};

use crate::fault::TraceFault;
use dimacs_syntax::{Faults, HeaderForm};
use qbf_core::Quantifier;
use qbf_tokens::{Token, Word};
use trace_items::Outcome;

/// The faults that tokens of a trace can be.
pub const FAULTS: Faults<TraceFault> = Faults {
    header: TraceFault::P2,
    stray: TraceFault::P3,
    range: TraceFault::P4,
    minus_zero: TraceFault::P4,
    end: TraceFault::P7,
};

/// The header of a trace: the word `qrp`, and the numbers of variables and of steps.
pub const FORM: HeaderForm<TraceFault> = HeaderForm {
    format: Word::Qrp,
    last: None,
    faults: FAULTS,
};

/// A part of a trace that begins between lists.
#[derive(Clone, Copy)]
pub enum ItemStart {
    Set(Quantifier),
    Step(u64),
    Result,
}

/// The part that a token begins between lists. No set begins once there are steps.
///
/// # Errors
/// P3, P4 or P7: the fault of the token at its place.
pub fn decode_item_start(has_steps: bool, token: Token) -> Result<ItemStart, TraceFault>
    ensures { result ≡ decode_item_start has_steps token }
{
    match token {
        Token::Word(Word::A) if !has_steps => Ok(ItemStart::Set(Quantifier::All)),
        Token::Word(Word::E) if !has_steps => Ok(ItemStart::Set(Quantifier::Exists)),
        Token::Word(Word::R) => Ok(ItemStart::Result),
        Token::Number {
            negative: false,
            value,
        } if 1 <= value => Ok(ItemStart::Step(value)),
        Token::Number { .. } | Token::Big => Err(TraceFault::P4),
        Token::End => Err(TraceFault::P7),
        Token::Word(_) | Token::Bad => Err(TraceFault::P3),
    }
}

/// The result that a token says after `r`.
///
/// # Errors
/// P7 at the end of the text, P8 for any other token.
pub fn decode_outcome(token: Token) -> Result<Outcome, TraceFault>
    ensures { result ≡ decode_outcome token }
{
    match token {
        Token::Word(Word::Sat) => Ok(Outcome::Sat),
        Token::Word(Word::Unsat) => Ok(Outcome::Unsat),
        Token::End => Err(TraceFault::P7),
        _ => Err(TraceFault::P8),
    }
}

/// The antecedent that a token says in a step, or `None` if it closes the step.
///
/// # Errors
/// P3, P4, P6 or P7: the fault of the token at its place. P6 is a number for which there is no
/// `room`.
pub fn decode_antecedent(room: bool, token: Token) -> Result<Option<u64>, TraceFault>
    ensures says { result ≡ decode_antecedent room token }
    ensures range { IfOk result (λ o. IfSome o IsNumber) }
    ensures fit { IfOk result (λ o. IfSome o (λ n. n < 2 ^ 64)) }
    ensures room { IfOk result (λ o. IfSome o (λ _. room ≡ true)) }
{
    match token {
        Token::Number { negative, value } if !negative && value == 0 => Ok(None),
        Token::Number { negative, value } if !negative && room => Ok(Some(value)),
        Token::Number { .. } | Token::Big if !room => Err(TraceFault::P6),
        Token::Number { .. } | Token::Big => Err(TraceFault::P4),
        Token::End => Err(TraceFault::P7),
        Token::Word(_) | Token::Bad => Err(TraceFault::P3),
    }
}
