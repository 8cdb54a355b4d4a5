ghost use Rattle.std.specs.Prelude.{◌≡◌, Option, Some, None, IsSome};
ghost use Rattle.c_host.specs.declared.open_host.OpenHost.{OpenHost};

use crate::parts::Parts;
use c_host::OpenHost;
use std::alloc::{Allocator, Global};
use std::marker::Model;

/// A value that C keeps between calls, or none.
#[repr(C)]
#[derive(Drop)]
pub struct Held {
    at: *mut u8,
    alloc: Global,
    pub ghost value: { Option OpenHost },
}

impl Model for Held {
    ghost use Rattle.dlm_c.specs.Held.{may_own};
    ghost use Rattle.c_host.specs.contracts.open_host.OpenHost.{the_row};

    ghost also_owns = { λ h. may_own (⟦<Global as Allocator>⟧.dealloc_token h.alloc) the_row h.at h.value };
}

impl Held {
    /// None.
    pub fn none(alloc: Global) -> Held
        ensures { result.value ≡ None }
    {
        Held {
            at: std::ptr::null_mut(),
            alloc,
        }
    }

    pub fn of(parts: Parts<OpenHost, Global>) -> Held
        ensures { result.value ≡ Some parts.value }
    {
        let Parts { ptr, alloc } = parts;
        Held {
            at: ptr as *mut u8,
            alloc,
        }
    }

    pub fn into_parts(self) -> Parts<OpenHost, Global>
        requires { IsSome self.value }
        ensures { self.value ≡ Some result.value }
    {
        let Held { at, alloc } = self;
        Parts {
            ptr: at as *mut OpenHost,
            alloc,
        }
    }
}
