//! The meaning of one token at its place.

ghost use Rattle.std.specs.Prelude.{◌≡◌, ◌≤◌, IfSome, IfOk};
ghost use Rattle.qbf_core.specs.Blocks.{IsVariable};
ghost use Rattle.dimacs_syntax.specs.Decode.{decode_quantifier, decode_member, decode_literal};
ghost use Rattle.qbf_core.specs.declared.literal.TheConstants.{LAST_VARIABLE};

use qbf_core::{Lit, Quantifier, Var};
use qbf_tokens::{Token, Word};

/// The faults of a format that a token can be.
#[derive(Clone, Copy)]
pub struct Faults<F> {
    /// A token that a header does not accept.
    pub header: F,
    /// A token that is not allowed in a list.
    pub stray: F,
    /// A number out of range.
    pub range: F,
    /// `-0` where a literal is expected.
    pub minus_zero: F,
    /// The end of the text.
    pub end: F,
}

/// The quantifier whose letter a token is.
pub fn decode_quantifier(token: Token) -> Option<Quantifier>
    ensures { result ≡ decode_quantifier token }
{
    match token {
        Token::Word(Word::A) => Some(Quantifier::All),
        Token::Word(Word::E) => Some(Quantifier::Exists),
        _ => None,
    }
}

/// The variable that a token says in a set, at most `last`, or `None` if it closes the set.
///
/// # Errors
/// The fault of the token at its place.
#[inline(always)]
pub fn decode_member<F: Copy>(faults: Faults<F>, last: u32, token: Token) -> Result<Option<Var>, F>
    requires { last ≤ LAST_VARIABLE }
    ensures says { result ≡ decode_member faults last token }
    ensures range { IfOk result (λ o. IfSome o IsVariable) }
    ensures top { IfOk result (λ o. IfSome o (λ v. v ≤ last)) }
{
    match token {
        Token::Number { negative: true, .. } | Token::Big => Err(faults.range),
        Token::Number { value: 0, .. } => Ok(None),
        Token::Number { value, .. } => match Var::up_to(last, value) {
            Some(var) => Ok(Some(var)),
            None => Err(faults.range),
        },
        Token::End => Err(faults.end),
        Token::Word(_) | Token::Bad => Err(faults.stray),
    }
}

/// The literal that a token says, its variable at most `last`, or `None` if it closes the
/// literals.
///
/// # Errors
/// The fault of the token at its place.
#[inline(always)]
pub fn decode_literal<F: Copy>(faults: Faults<F>, last: u32, token: Token) -> Result<Option<Lit>, F>
    requires { last ≤ LAST_VARIABLE }
    ensures says { result ≡ decode_literal faults last token }
    ensures range { IfOk result (λ o. IfSome o (λ l. IsVariable l.var)) }
{
    match token {
        Token::Number { negative, value: 0 } => match negative {
            false => Ok(None),
            true => Err(faults.minus_zero),
        },
        Token::Number { negative, value } => match Var::up_to(last, value) {
            Some(var) => Ok(Some(Lit::new(var, negative))),
            None => Err(faults.range),
        },
        Token::Big => Err(faults.range),
        Token::End => Err(faults.end),
        Token::Word(_) | Token::Bad => Err(faults.stray),
    }
}
