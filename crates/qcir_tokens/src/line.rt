//! The tokens of a line, one after the other.

ghost use Rattle.std.specs.Prelude.{◌≡◌, true, false, [], ◌∷◌, IfSome, IfNone, IsTrue, ◌↔◌};
ghost use Rattle.qcir_tokens.specs.Tokens.{tokens, Word, Sign, BeginsWithNoWord, BeginsWithout};

use crate::bytes::{after_blanks, word_len};
use crate::mark::{Mark, is_mark};
use std::marker::Model;

/// What is left of a line.
///
/// Contracts see its tokens.
#[derive(Drop)]
pub struct Line<'a> {
    rest: &'a [u8],
}

impl<'a> Model for Line<'a> {
    ghost use Rattle.std.specs.Prelude.{List};
    ghost use Rattle.qcir_tokens.specs.Tokens.{Token, tokens};
    ghost use Rattle.qcir_tokens.specs.Front.{BeginsWithNoBlank};

    ghost Value = { List Token };

    ghost view = { λ l. tokens l.rest.now };

    ghost invariant = { λ l. BeginsWithNoBlank l.rest.now };
}

impl<'a> Line<'a> {
    /// The tokens of a line, from its first one on.
    pub fn new(bytes: &'a [u8]) -> Line<'a>
        ensures { result ≡ tokens bytes.now }
    {
        Line {
            rest: after_blanks(bytes),
        }
    }

    /// Whether no token is left.
    pub fn is_done(&self) -> bool
        ensures done { result ≡ true → self.now ≡ [] }
        ensures more { result ≡ false → self.now ≡ [] → ⊥ }
    {
        self.rest.is_empty()
    }

    /// Takes the next token if it is a word, and returns the word. Else nothing is taken.
    pub fn word(&mut self) -> Option<&'a [u8]>
        ensures some { IfSome result (λ w. self.old ≡ Word w.now ∷ self.new) }
        ensures none { IfNone result (self.new ≡ self.old) }
        ensures other { IfNone result (BeginsWithNoWord self.old) }
    {
        let rest = self.rest;
        let len = word_len(rest);
        if len == 0 {
            return None;
        }
        self.rest = after_blanks(&rest[len..]);
        Some(&rest[..len])
    }

    /// Takes the next token if it is this mark. Else nothing is taken.
    #[inline(always)]
    pub fn take(&mut self, mark: Mark) -> bool
        ensures taken { result ≡ true → self.old ≡ Sign mark ∷ self.new }
        ensures left { result ≡ false → self.new ≡ self.old }
        ensures other { result ≡ false → BeginsWithout mark self.old }
    {
        let rest = self.rest;
        match rest {
            [] => false,
            [first, more @ ..] => {
                if !is_mark(*first, mark) {
                    return false;
                }
                self.rest = after_blanks(more);
                true
            }
        }
    }
}
