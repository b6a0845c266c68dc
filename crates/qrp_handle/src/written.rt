//! Literals that are written as numbers, and steps of them.

ghost use Rattle.std.specs.Prelude.{◌≡◌, ℤ, List, map, Option, IfSome, IfNone, IfOk, IfErr};
ghost use Rattle.std.specs.List.{AllByRecursion};
ghost use Rattle.qrp_handle.specs.Adding.{IsReadFault};
ghost use Rattle.qbf_core.specs.WrittenLiterals.{IsWritten, literal_of};

use crate::fault::AddFault;
use qbf_core::{Lit, Var};
use std::alloc::Global;

/// A step as it is handed over.
#[derive(Clone, Copy)]
pub struct WrittenStep<'a> {
    /// Its number.
    pub number: u64,
    /// The numbers that write its literals.
    pub lits: &'a [i32],
    /// The numbers of its antecedents.
    pub ants: &'a [u64],
}

/// The literal that this number writes, or `None` if it is 0 or the least of 32 bits.
fn literal_of(written: i32) -> Option<Lit>
    ensures some { IfSome result (λ lit. (lit ≡ literal_of written) × IsWritten 2147483647 written) }
    ensures none { IfNone result (IsWritten 2147483647 written → ⊥) }
{
    let var = Var::new(written.unsigned_abs())?;
    Some(Lit::new(var, written < 0))
}

/// The literals that these numbers write.
///
/// # Errors
/// `Range` if one of them writes none, and `NoMemory` only if an allocation failed.
pub fn literals_of(alloc: Global, written: &[i32]) -> Result<Vec<Lit>, AddFault>
    ensures read { IfOk result (λ lits. (lits.items ≡ map literal_of written.now)
        × AllByRecursion (IsWritten 2147483647) written.now) }
    ensures refused { IfErr result (IsReadFault written.now) }
{
    let mut lits = Vec::<Lit>::with_capacity(alloc, written.len())?;
    for number in written {
        match literal_of(*number) {
            Some(lit) => lits.push(lit)?,
            None => return Err(AddFault::Range),
        }
    }
    Ok(lits)
}
