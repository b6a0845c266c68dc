//! The statuses that a caller in C gets.

ghost use Rattle.std.specs.Prelude.{◌≡◌, ◌↔◌, ◌≢◌, IsOk, Err, pos};
ghost use Rattle.qrp_handle.specs.Statuses.{code_of};
ghost use Rattle.qrp_handle.specs.declared.fault.AddFault.{AddFault};

use crate::fault::AddFault;

/// The status if the struct holds no proof.
pub const NOTHING: i32 = 11;

/// The status of an addition: 0 if it was done, else that of its fault.
pub fn status_of(added: Result<(), AddFault>) -> i32
    ensures done { result ≡ pos 0 ↔ IsOk added }
    ensures fault { (e : AddFault) → result ≡ pos (code_of e) → added ≡ Err e }
    ensures other { result ≢ pos 11 }
{
    match added {
        Ok(()) => 0,
        Err(AddFault::NoMemory) => 4,
        Err(AddFault::Range) => 5,
        Err(AddFault::Bound) => 6,
        Err(AddFault::Unbound) => 7,
        Err(AddFault::Full) => 8,
        Err(AddFault::Used) => 9,
        Err(AddFault::Many) => 10,
    }
}
