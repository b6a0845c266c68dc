//! The content of the struct of a caller in C: nothing, or a box as a pointer to bytes.

ghost use Rattle.std.specs.Prelude.{◌≡◌, Option, None, Some, IsSome};
ghost use Rattle.qrp_handle.specs.Owned.{held_owns, held_coded};
ghost use Rattle.qrp_handle.specs.declared.proof.Proof.{Proof};

use crate::loose::Loose;
use crate::proof::Proof;
use std::alloc::Global;
use std::marker::Model;
use std::ptr::null_mut;

/// Nothing, or a box as a pointer to bytes. It does not say which.
#[repr(C)]
#[derive(Drop)]
pub struct Held {
    at: *mut u8,
    alloc: Global,
    pub ghost value: { Option Proof } by { held_coded },
}

impl Model for Held {
    ghost also_owns = { λ h. held_owns h.alloc h.at h.value };
}

impl Held {
    pub(crate) fn none(alloc: Global) -> Held
        ensures { result.value ≡ None }
    {
        Held {
            at: null_mut(),
            alloc,
        }
    }

    pub(crate) fn of_loose(loose: Loose<Proof, Global>) -> Held
        ensures { result.value ≡ Some loose.value }
    {
        let Loose { at, alloc } = loose;
        Held {
            at: at as *mut u8,
            alloc,
        }
    }

    pub(crate) fn into_loose(self) -> Loose<Proof, Global>
        requires { IsSome self.value }
        ensures { self.value ≡ Some result.value }
    {
        let Held { at, alloc } = self;
        Loose {
            at: at as *mut Proof,
            alloc,
        }
    }
}
