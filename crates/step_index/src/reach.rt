//! Tables that grow to reach an index.

ghost use Rattle.std.specs.Prelude.{◌≡◌, ◌+◌, ◌⊎◌, ◌^◌, ◌<◌, ℕ, OnOk, OnErr, get_or, length};

use std::alloc::AllocError;

/// Makes a table reach an index by empty entries. An `Err` means that an allocation failed, and
/// changes nothing.
#[inline(always)]
pub(crate) fn reach<T: Copy + Drop>(
    table: &mut Vec<T>,
    index: usize,
    empty: T,
) -> Result<(), AllocError>
    requires { index < 2 ^ 37 }
    ensures reached { OnOk result (index < length table.new.items) }
    ensures few { OnOk result ((length table.new.items ≡ length table.old.items)
        ⊎ (length table.new.items ≡ index + 1)) }
    ensures kept { ((n : ℕ) → get_or table.new.items n empty ≡ get_or table.old.items n empty)
        × OnErr result (table.new.items ≡ table.old.items) }
{
    if index < table.len() {
        return Ok(());
    }
    table.resize(index + 1, empty)
}
