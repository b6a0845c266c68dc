//! The literals of a step, each once, if it was seen to repeat one.

ghost use Rattle.std.specs.Prelude.{◌≡◌, ◌⊎◌, IsTrue, IfOk, OnOk};
ghost use Rattle.qbf_core.specs.Literal.{Literal};
ghost use Rattle.qbf_core.specs.Members.{◌∈◌, ◌⊆◌};
ghost use Rattle.qbf_core.specs.Sets.{HasMembersOf};
ghost use Rattle.written_steps.specs.Seen.{AreAmong};

use crate::seen::SeenLits;
use lists::GrowingLists;
use qbf_core::Lit;
use std::alloc::AllocError;

/// Adds a literal to the unfinished list, unless it was seen there.
fn push_new(seen: &mut SeenLits, lit: Lit, lists: &mut GrowingLists<Lit>) -> Result<(), AllocError>
    ensures whole { lists.new.whole ≡ lists.old.whole }
    ensures within { (l : Literal) → l ∈ lists.new.unfinished
        → (l ∈ lists.old.unfinished) ⊎ (l ≡ lit) }
    ensures kept { OnOk result (lists.old.unfinished ⊆ lists.new.unfinished) }
    ensures seen { OnOk result (AreAmong seen.old lists.old.unfinished
        → (lit ∈ lists.new.unfinished) × AreAmong seen.new lists.new.unfinished) }
{
    if !seen.is_new(lit)? {
        return Ok(());
    }
    lists.push(lit)
}

/// Makes the unfinished list that of the literals of another one, each once.
#[cold]
#[inline(never)]
fn push_each_once(
    seen: &mut SeenLits,
    lits: &[Lit],
    lists: &mut GrowingLists<Lit>,
) -> Result<(), AllocError>
    ensures whole { lists.new.whole ≡ lists.old.whole }
    ensures members { OnOk result (HasMembersOf lists.new.unfinished lits.now) }
{
    lists.begin();
    seen.clear();
    for lit in lits {
        push_new(seen, *lit, lists)?;
    }
    Ok(())
}

/// Makes the unfinished list that of the literals of a step, each once, if the test that accepted
/// the step saw one of them twice. Otherwise returns `false`, and nothing is known of that list.
///
/// # Errors
/// If an allocation fails.
#[inline(always)]
pub fn push_distinct(
    seen: &mut SeenLits,
    lits: &[Lit],
    lists: &mut GrowingLists<Lit>,
) -> Result<bool, AllocError>
    ensures whole { lists.new.whole ≡ lists.old.whole }
    ensures members { IfOk result
        (λ is. IsTrue is → HasMembersOf lists.new.unfinished lits.now) }
{
    if !seen.has_repeated() {
        return Ok(false);
    }
    push_each_once(seen, lits, lists)?;
    Ok(lists.unfinished_len() < lits.len())
}
