//! Literals that are read one by one, wherever they lie.

ghost use Rattle.std.specs.Prelude.{◌≡◌, [], ◌∷◌, ◌++◌, IfNone, IfSome};
ghost use Rattle.qbf_core.specs.Packed.{fours, ones, twos, unpacked, AreLiterals};

use crate::literal::Lit;
use crate::literal_bytes::{of_four, of_one, of_two};
use lists::see_all;
use std::marker::Model;

/// Where literals lie.
#[derive(Clone, Copy)]
enum Kept<'a> {
    /// In a list of literals.
    Lits(&'a [Lit]),
    /// In one byte each.
    Ones(&'a [u8]),
    /// In two bytes each.
    Twos(&'a [u8]),
    /// In four bytes each.
    Fours(&'a [u8]),
}

/// Literals of a list that are left to be read. Contracts see the list of them.
#[derive(Drop)]
pub struct LitsLeft<'a> {
    kept: Kept<'a>,
}

impl<'a> Model for LitsLeft<'a> {
    ghost use Rattle.std.specs.Prelude.{List};
    ghost use Rattle.qbf_core.specs.Literal.{Literal};
    ghost use Rattle.qbf_core.specs.LitsLeft.{lits_in};
    ghost use Rattle.qbf_core.specs.Packed.{AreLiterals};

    ghost Value = { List Literal };

    ghost view = { λ l. lits_in l.kept };

    ghost invariant = { λ l. AreLiterals (lits_in l.kept) };
}

/// The first of two bytes each, and the others.
#[inline(always)]
#[tactic(auto, using(crate::proofs::Packing::no_two))]
fn next_two(bytes: &[u8]) -> Option<(Lit, &[u8])>
    requires { AreLiterals (twos bytes.now) }
    ensures some { IfSome result (λ r. twos bytes.now ≡ r.0 ∷ twos r.1.now) }
    ensures none { IfNone result (twos bytes.now ≡ []) }
{
    let [a, b, rest @ ..] = bytes else {
        return None;
    };
    Some((of_two(*a, *b), rest))
}

/// The first of four bytes each, and the others.
#[inline(always)]
#[tactic(auto, using(crate::proofs::Packing::no_four))]
fn next_four(bytes: &[u8]) -> Option<(Lit, &[u8])>
    requires { AreLiterals (fours bytes.now) }
    ensures some { IfSome result (λ r. fours bytes.now ≡ r.0 ∷ fours r.1.now) }
    ensures none { IfNone result (fours bytes.now ≡ []) }
{
    let [a, b, c, d, rest @ ..] = bytes else {
        return None;
    };
    Some((of_four([*a, *b, *c, *d]), rest))
}

impl<'a> LitsLeft<'a> {
    /// All literals of a list.
    #[inline(always)]
    pub fn of_lits(lits: &'a [Lit]) -> LitsLeft<'a>
        ensures { result ≡ lits.now }
    {
        see_all(lits);
        LitsLeft {
            kept: Kept::Lits(lits),
        }
    }

    /// All literals of a list of bytes.
    #[inline(always)]
    pub(crate) fn of_bytes(bytes: &'a [u8]) -> LitsLeft<'a>
        requires { AreLiterals (unpacked bytes.now) }
        ensures { result ≡ unpacked bytes.now }
    {
        let kept = match bytes {
            [] => Kept::Ones(bytes),
            [1, rest @ ..] => Kept::Ones(rest),
            [2, rest @ ..] => Kept::Twos(rest),
            [_, rest @ ..] => Kept::Fours(rest),
        };
        LitsLeft { kept }
    }

    /// The next four literals, which are no longer left, if they lie in one byte each. If they do
    /// not, or are fewer, none is taken.
    #[inline(always)]
    pub fn next_four(&mut self) -> Option<[Lit; 4]>
        ensures some { IfSome result (λ four. self.old ≡ four ++ self.new) }
        ensures none { IfNone result (self.new ≡ self.old) }
    {
        match self.kept {
            Kept::Ones([a, b, c, d, rest @ ..]) => {
                self.kept = Kept::Ones(rest);
                Some([of_one(*a), of_one(*b), of_one(*c), of_one(*d)])
            }
            _ => None,
        }
    }

    /// The next literal, which is no longer left.
    #[inline(always)]
    pub fn next(&mut self) -> Option<Lit>
        ensures some { IfSome result (λ lit. self.old ≡ lit ∷ self.new) }
        ensures none { IfNone result (self.old ≡ []) }
    {
        let (lit, kept) = match self.kept {
            Kept::Lits(lits) => {
                let [lit, rest @ ..] = lits else {
                    return None;
                };
                (*lit, Kept::Lits(rest))
            }
            Kept::Ones(bytes) => {
                let [a, rest @ ..] = bytes else {
                    return None;
                };
                (of_one(*a), Kept::Ones(rest))
            }
            Kept::Twos(bytes) => {
                let Some((lit, rest)) = next_two(bytes) else {
                    return None;
                };
                (lit, Kept::Twos(rest))
            }
            Kept::Fours(bytes) => {
                let Some((lit, rest)) = next_four(bytes) else {
                    return None;
                };
                (lit, Kept::Fours(rest))
            }
        };
        self.kept = kept;
        Some(lit)
    }
}
