ghost use Rattle.std.specs.Prelude.{◌≡◌, Option, Some, None, IsSome};
ghost use Rattle.c_epochs.specs.declared.open_epochs.OpenEpochs.{OpenEpochs};

use crate::parts::Parts;
use c_epochs::OpenEpochs;
use std::alloc::{Allocator, Global};
use std::marker::Model;

/// A host over all epochs that C keeps between calls, or none.
#[repr(C)]
#[derive(Drop)]
pub struct HeldEpochs {
    at: *mut u8,
    alloc: Global,
    pub ghost value: { Option OpenEpochs },
}

impl Model for HeldEpochs {
    ghost use Rattle.dlm_c.specs.Held.{may_own};
    ghost use Rattle.c_epochs.specs.contracts.open_epochs.OpenEpochs.{the_row};

    ghost also_owns = { λ h. may_own (⟦<Global as Allocator>⟧.dealloc_token h.alloc) the_row h.at h.value };
}

impl HeldEpochs {
    /// None.
    pub fn none(alloc: Global) -> HeldEpochs
        ensures { result.value ≡ None }
    {
        HeldEpochs {
            at: std::ptr::null_mut(),
            alloc,
        }
    }

    pub fn of(parts: Parts<OpenEpochs, Global>) -> HeldEpochs
        ensures { result.value ≡ Some parts.value }
    {
        let Parts { ptr, alloc } = parts;
        HeldEpochs {
            at: ptr as *mut u8,
            alloc,
        }
    }

    pub fn into_parts(self) -> Parts<OpenEpochs, Global>
        requires { IsSome self.value }
        ensures { self.value ≡ Some result.value }
    {
        let HeldEpochs { at, alloc } = self;
        Parts {
            ptr: at as *mut OpenEpochs,
            alloc,
        }
    }
}
