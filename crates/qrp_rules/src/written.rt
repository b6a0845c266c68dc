//! Literals as they are written: whether they stand in order, and whether one is among them.

ghost use Rattle.std.specs.Prelude.{◌↔◌, IsTrue};
ghost use Rattle.qbf_core.specs.Members.{◌∈◌};
ghost use Rattle.qbf_core.specs.Sets.{IsOrdered};

use qbf_core::Lit;

/// Whether literals stand in the order of their variables, and no variable twice.
pub fn is_ordered(lits: &[Lit]) -> bool
    ensures { IsTrue result ↔ IsOrdered lits.now }
{
    let mut last = 0;
    for lit in lits {
        let number = lit.var().number();
        if number <= last {
            return false;
        }
        last = number;
    }
    true
}

/// Whether a clause as written has this literal.
#[tactic(auto, using(std::proofs::lemmas::List::Elements::contains_decides, qbf_core::proofs::Members::lit_decides, qbf_core::proofs::Order::contains_in, qbf_core::proofs::Order::in_contains))]
pub fn is_among(clause: &[Lit], lit: Lit) -> bool
    ensures { IsTrue result ↔ lit ∈ clause.now }
{
    clause.contains(&lit)
}
