//! Sets of literals.

ghost use Rattle.std.specs.Prelude.{◌≡◌, ◌↔◌, ◌⊎◌, OnOk};
ghost use Rattle.qbf_core.specs.Literal.{Literal};
ghost use Rattle.written_steps.specs.Seen.{Has};
ghost use Rattle.proof_decisions.specs.Removing.{HasJust};

use qbf_core::Lit;
use std::alloc::AllocError;
use written_steps::SeenLits;

/// Puts a literal into a set.
#[tactic(auto, using(crate::proofs::RemovedLiterals::put_in))]
pub(crate) fn put(seen: &mut SeenLits, lit: Lit) -> Result<(), AllocError>
    ensures { OnOk result ((l : Literal) → Has seen.new l ↔ (Has seen.old l ⊎ (l ≡ lit))) }
{
    seen.put(lit)
}

/// Makes a set that of the literals of a list.
pub(crate) fn set_all(seen: &mut SeenLits, lits: &[Lit]) -> Result<(), AllocError>
    ensures { OnOk result (HasJust lits.now seen.new) }
{
    seen.clear();
    for lit in lits {
        put(seen, *lit)?;
    }
    Ok(())
}
