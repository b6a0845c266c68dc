//! The place of a variable in a prefix, and the same in four bytes.

ghost use Rattle.std.specs.Prelude.{◌≡◌, ◌<◌, IfSome};
ghost use Rattle.qbf_core.specs.Places.{reach_of};
ghost use Rattle.qbf_core.specs.declared.literal.TheConstants.{LAST_VARIABLE};

use crate::quantifier::Quantifier;
use std::marker::Model;

/// A variable's quantifier and the number of its block. There are fewer variables than 2^31, so 32
/// bits are enough for a block.
#[derive(Clone, Copy)]
pub struct Place {
    pub quantifier: Quantifier,
    pub block: u32,
}

/// A place, or none, in four bytes.
#[derive(Clone, Copy)]
pub struct Entry {
    /// 0 for none. For a place, twice the block and 1 more for `All`, or 2 more for `Exists`.
    packed: u32,
}

impl Model for Entry {
    ghost use Rattle.std.specs.Prelude.{Option};
    ghost use Rattle.qbf_core.specs.Places.{as_number, as_place};
    ghost use Rattle.qbf_core.specs.declared.place.Place.{Place};

    ghost Value = { Option Place };

    ghost view = { λ e. as_place e.packed };

    ghost inverse = { λ p. record { packed = as_number p } };
}

impl Entry {
    /// Packs a place. The number of its block is below `LAST_VARIABLE`.
    #[inline(always)]
    pub fn new(place: Option<Place>) -> Entry
        requires { IfSome place (λ p. p.block < LAST_VARIABLE) }
        ensures { result ≡ place }
    {
        Entry {
            packed: match place {
                Some(Place { quantifier, block }) => match quantifier {
                    Quantifier::All => 2 * block + 1,
                    Quantifier::Exists => 2 * block + 2,
                },
                None => 0,
            },
        }
    }

    /// The place, or `None` if there is none.
    #[inline(always)]
    pub fn place(self) -> Option<Place>
        ensures { result ≡ self }
    {
        let number = self.packed.checked_sub(1)?;
        let quantifier = if number % 2 == 0 {
            Quantifier::All
        } else {
            Quantifier::Exists
        };
        Some(Place {
            quantifier,
            block: number / 2,
        })
    }

    /// One more than the number of the block if the place has this quantifier, else 0.
    #[inline(always)]
    pub fn reach(self, quantifier: Quantifier) -> u32
        ensures { result ≡ reach_of quantifier self }
    {
        // The packed number is odd for `All`, and even for `Exists` and for none.
        let odd = match quantifier {
            Quantifier::All => 1,
            Quantifier::Exists => 0,
        };
        if self.packed % 2 == odd {
            self.packed / 2 + odd
        } else {
            0
        }
    }
}
