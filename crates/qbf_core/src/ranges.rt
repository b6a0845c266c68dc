//! The ranges of variables and of literals.

ghost use Rattle.qbf_core.specs.Blocks.{IsVariable};

use crate::literal::{Lit, Var};
use lists::InRange;

impl InRange for Var {
    ghost range = { IsVariable };

    #[inline(always)]
    fn see(self) {}
}

impl InRange for Lit {
    ghost range = { λ l. IsVariable l.var };

    #[inline(always)]
    fn see(self) {}
}
