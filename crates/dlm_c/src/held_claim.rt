ghost use Rattle.std.specs.Prelude.{◌≡◌, Option, Some, None, IsSome};
ghost use Rattle.session.specs.declared.claim.Claim.{Claim};

use crate::parts::Parts;
use session::Claim;
use std::alloc::{Allocator, Global};
use std::marker::Model;

/// A claim that C keeps between calls, or none.
#[repr(C)]
#[derive(Drop)]
pub struct HeldClaim {
    at: *mut u8,
    alloc: Global,
    pub ghost value: { Option Claim },
}

impl Model for HeldClaim {
    ghost use Rattle.dlm_c.specs.Held.{may_own};
    ghost use Rattle.session.specs.contracts.claim.Claim.{the_row};

    ghost also_owns = { λ h. may_own (⟦<Global as Allocator>⟧.dealloc_token h.alloc) the_row h.at h.value };
}

impl HeldClaim {
    /// None.
    pub fn none(alloc: Global) -> HeldClaim
        ensures { result.value ≡ None }
    {
        HeldClaim {
            at: std::ptr::null_mut(),
            alloc,
        }
    }

    pub fn of(parts: Parts<Claim, Global>) -> HeldClaim
        ensures { result.value ≡ Some parts.value }
    {
        let Parts { ptr, alloc } = parts;
        HeldClaim {
            at: ptr as *mut u8,
            alloc,
        }
    }

    pub fn into_parts(self) -> Parts<Claim, Global>
        requires { IsSome self.value }
        ensures { self.value ≡ Some result.value }
    {
        let HeldClaim { at, alloc } = self;
        Parts {
            ptr: at as *mut Claim,
            alloc,
        }
    }
}
