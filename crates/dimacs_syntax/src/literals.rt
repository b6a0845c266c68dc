//! Literals among numbers that are known.

ghost use Rattle.std.specs.Prelude.{◌≡◌, ◌≤◌, ◌++◌, false, length, map, slice_range, IfOk, IsTrue};
ghost use Rattle.std.specs.Prelude.{OnErr};
ghost use Rattle.std.specs.List.{AllByRecursion};
ghost use Rattle.qbf_core.specs.WrittenLiterals.{literal_of, IsWritten};
ghost use Rattle.qbf_core.specs.declared.literal.TheConstants.{LAST_VARIABLE};
ghost use Rattle.window_numbers.specs.Values.{numbers_of};

use lists::GrowingLists;
use qbf_core::{LAST_VARIABLE, Lit, extend_written};
use std::alloc::AllocError;
use window_numbers::Values;

/// Adds the literals that the numbers between two places are, of variables up to `last`, at the end
/// of the unfinished list. `false` if nothing was added, since one of them is not such a literal.
///
/// # Errors
/// Out of memory. Nothing is changed then.
#[inline(always)]
pub fn extend_literals(
    lits: &mut GrowingLists<Lit>,
    values: Values,
    between: (usize, usize),
    last: u32,
) -> Result<bool, AllocError>
    requires last { last ≤ LAST_VARIABLE }
    requires places { (between.0 ≤ between.1) × (between.1 ≤ length (numbers_of values)) }
    ensures extended { IfOk result (λ b. IsTrue b → lits.new ≡ record lits.old {
      unfinished = lits.old.unfinished
          ++ map literal_of (slice_range (numbers_of values.entry) between.0 between.1);
    }) }
    ensures written { IfOk result (λ b. IsTrue b → AllByRecursion (IsWritten last)
        (slice_range (numbers_of values.entry) between.0 between.1)) }
    ensures none { IfOk result (λ b. b ≡ false → lits.new ≡ lits.old) }
    ensures err { OnErr result (lits.new ≡ lits.old) }
{
    let (from, to) = between;
    let is_added = extend_written(lits, values.short(from, to), last)?;
    Ok(is_added)
}
