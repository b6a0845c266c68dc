//! The meaning of one token at its place.

ghost use Rattle.std.specs.Prelude.{◌≡◌, ◌≤◌, true, IfSome, IfOk};
ghost use Rattle.qbf_core.specs.Blocks.{pairs, IsBound};
ghost use Rattle.qdimacs.specs.Reading.{decode_bound_literal, decode_clause_or_end, IsFull};
ghost use Rattle.qbf_core.specs.declared.literal.TheConstants.{LAST_VARIABLE};

use crate::fault::FormulaFault;
use dimacs_syntax::{Faults, HeaderForm, decode_literal};
use qbf_core::{LAST_VARIABLE, Lit, Prefix};
use qbf_tokens::{Token, Word};

/// The faults that tokens of a formula can be.
pub(crate) const FAULTS: Faults<FormulaFault> = Faults {
    header: FormulaFault::F2,
    stray: FormulaFault::F3,
    range: FormulaFault::F4,
    minus_zero: FormulaFault::F3,
    end: FormulaFault::F7,
};

/// The header of a formula: the word `cnf`, and the numbers of variables and of clauses.
pub(crate) const FORM: HeaderForm<FormulaFault> = HeaderForm {
    format: Word::Cnf,
    last: Some(LAST_VARIABLE as u64),
    faults: FAULTS,
};

/// The literal that a token says in a clause, or `None` if it closes the clause.
///
/// If the prefix is `full`, no variable is looked up.
///
/// # Errors
/// F3, F4, F6 or F7: the fault of the token at its place.
#[inline(always)]
pub(crate) fn decode_bound_literal(
    prefix: &Prefix,
    max_var: u32,
    full: bool,
    token: Token,
) -> Result<Option<Lit>, FormulaFault>
    requires number { max_var ≤ LAST_VARIABLE }
    requires full { full ≡ true → IsFull max_var (pairs prefix.now) }
    ensures says { result ≡ decode_bound_literal max_var (pairs prefix.now) token }
    ensures bound { IfOk result (λ o. IfSome o (λ l. IsBound prefix.now l.var)) }
{
    match decode_literal(FAULTS, max_var, token)? {
        None => Ok(None),
        Some(lit) if full || prefix.is_bound(lit.var()) => Ok(Some(lit)),
        Some(_) => Err(FormulaFault::F6),
    }
}

/// Whether a token that begins no set begins a clause. If it does not, all is read.
///
/// # Errors
/// F3, F4 or F8: the fault of the token at its place.
#[inline(always)]
pub(crate) fn decode_clause_or_end(more: bool, token: Token) -> Result<bool, FormulaFault>
    ensures { result ≡ decode_clause_or_end more token }
{
    match token {
        Token::Number { .. } if more => Ok(true),
        Token::Big if more => Err(FormulaFault::F4),
        Token::End if !more => Ok(false),
        Token::Number { .. } | Token::Big | Token::End => Err(FormulaFault::F8),
        Token::Word(_) | Token::Bad => Err(FormulaFault::F3),
    }
}
