//! The header of a text, token by token.

ghost use Rattle.std.specs.Prelude.{◌≡◌, ◌-◌, ◌^◌, IfSome, IfOk};
ghost use Rattle.dimacs_syntax.specs.Headers.{header_fault, is_allowed, header_word};
ghost use Rattle.dimacs_syntax.specs.Headers.{header_number, header_move, IsUpTo, LeadsUpTo};

use crate::decode::Faults;
use qbf_tokens::{Token, Word};

/// How the header of a format is spelled: `p`, its word and two numbers. With this come the faults
/// of the format that a token can be.
#[derive(Clone, Copy)]
pub struct HeaderForm<F> {
    /// The word of the format.
    pub format: Word,
    /// The greatest number, if there is one.
    pub last: Option<u64>,
    /// The faults that other tokens are.
    pub faults: Faults<F>,
}

/// Where a token stands in a header.
#[derive(Clone, Copy)]
pub enum HeaderAt {
    /// At the word `p`.
    P,
    /// At the word of the format.
    Format,
    /// At the first number.
    First,
    /// At the second number, after the first.
    Second(u64),
}

/// The effect of a token of a header.
#[derive(Clone, Copy)]
pub enum HeaderMove {
    /// It leads to this place.
    Next(HeaderAt),
    /// It ends the header, which says these two numbers.
    Done(u64, u64),
}

/// The fault of a token that a header does not accept.
fn header_fault<F: Copy>(faults: Faults<F>, token: Token) -> F
    ensures { result ≡ header_fault faults token }
{
    match token {
        Token::End => faults.end,
        _ => faults.header,
    }
}

/// Whether a header may have this number.
fn is_allowed(last: Option<u64>, number: u64) -> bool
    ensures { result ≡ is_allowed last number }
{
    match last {
        Some(last) => number <= last,
        None => true,
    }
}

/// Takes a word of a header.
fn header_word<F: Copy>(faults: Faults<F>, word: Word, token: Token) -> Result<(), F>
    ensures { result ≡ header_word faults word token }
{
    if token == Token::Word(word) {
        return Ok(());
    }
    Err(header_fault(faults, token))
}

/// The number that a token says in a header.
fn header_number<F: Copy>(form: HeaderForm<F>, token: Token) -> Result<u64, F>
    ensures { result ≡ header_number form token }
{
    match token {
        Token::Number {
            negative: false,
            value,
        } if is_allowed(form.last, value) => Ok(value),
        _ => Err(header_fault(form.faults, token)),
    }
}

/// The effect of a token at its place in a header.
///
/// # Errors
/// The fault of the token at its place.
pub fn header_move<F: Copy>(
    form: HeaderForm<F>,
    here: HeaderAt,
    token: Token,
) -> Result<HeaderMove, F>
    ensures says { result ≡ header_move form here token }
    ensures last { IfSome form.last (λ n. IsUpTo n here → IfOk result (LeadsUpTo n)) }
    ensures fit { IfOk result (LeadsUpTo (2 ^ 64 - 1)) }
{
    match here {
        HeaderAt::P => {
            header_word(form.faults, Word::P, token)?;
            Ok(HeaderMove::Next(HeaderAt::Format))
        }
        HeaderAt::Format => {
            header_word(form.faults, form.format, token)?;
            Ok(HeaderMove::Next(HeaderAt::First))
        }
        HeaderAt::First => {
            let first = header_number(form, token)?;
            Ok(HeaderMove::Next(HeaderAt::Second(first)))
        }
        HeaderAt::Second(first) => Ok(HeaderMove::Done(first, header_number(form, token)?)),
    }
}
