//! The struct that a caller in C keeps.

ghost use Rattle.std.specs.Prelude.{◌≡◌, None, Some, IsSome, ◌↔◌, ◌<◌};
ghost use Rattle.std.specs.Option.{option_map};

use crate::held::Held;
use crate::loose::Loose;
use crate::proof::Proof;
use std::alloc::Global;
use std::mem;

/// The struct that a caller in C keeps: `struct qrp_proof`, 16 bytes. All zeros are one that holds
/// nothing.
#[repr(C)]
pub struct QrpProof {
    /// The proof that it holds, or nothing.
    pub held: Held,
    present: u32,
    ghost present_is: { (0 < present) ↔ IsSome held.value },
}

impl QrpProof {
    /// One that holds nothing. It takes no memory.
    pub fn none(alloc: Global) -> QrpProof
        ensures { result.held.value ≡ None }
    {
        QrpProof {
            held: Held::none(alloc),
            present: 0,
        }
    }

    /// One that holds this proof.
    pub fn of(proof: Box<Proof>) -> QrpProof
        ensures { result.held.value ≡ Some proof.value }
    {
        QrpProof {
            held: Held::of_loose(Loose::of(proof)),
            present: 1,
        }
    }

    /// The proof that it holds, if there is one.
    pub fn into_box(self) -> Option<Box<Proof>>
        ensures { self.held.value ≡ option_map (λ proof. proof.value) result }
    {
        let QrpProof { held, present } = self;
        if present == 0 {
            return None;
        }
        Some(held.into_loose().into_box())
    }

    /// Takes out the proof that it holds, if there is one. It holds nothing from then on.
    pub fn take(&mut self, alloc: Global) -> Option<Box<Proof>>
        ensures taken { self.old.held.value ≡ option_map (λ proof. proof.value) result }
        ensures left { self.new.held.value ≡ None }
    {
        mem::replace(self, QrpProof::none(alloc)).into_box()
    }
}

impl Drop for QrpProof {
    fn drop(self) {
        drop(self.into_box());
    }
}
