ghost use Rattle.std.specs.Prelude.{◌≡◌, Some, None, IfSome, is_some};

use crate::held::Held;
use crate::parts::Parts;
use c_host::OpenHost;
use std::alloc::Global;
use std::mem;

/// What C keeps between calls: a host, or none. All zeros is none.
#[repr(C)]
#[derive(Drop)]
pub struct Handle {
    is_open: bool,
    pub held: Held,
    ghost open_held: { is_open ≡ is_some held.value },
}

impl Handle {
    /// None.
    pub fn closed(alloc: Global) -> Handle
        ensures { result.held.value ≡ None }
    {
        Handle {
            is_open: false,
            held: Held::none(alloc),
        }
    }

    /// A host that is kept.
    pub fn opened(host: Box<OpenHost>) -> Handle
        ensures { result.held.value ≡ Some host.value }
    {
        Handle {
            is_open: true,
            held: Held::of(Parts::of(host)),
        }
    }

    /// Takes the host that is kept, and leaves none.
    pub fn take(&mut self, alloc: Global) -> Option<Box<OpenHost>>
        ensures some { IfSome result (λ host. self.old.held.value ≡ Some host.value) }
        ensures none { result ≡ None → self.old.held.value ≡ None }
        ensures left { self.new.held.value ≡ None }
    {
        let Handle { is_open, held } = mem::replace(self, Handle::closed(alloc));
        if is_open {
            Some(held.into_parts().into_box())
        } else {
            mem::forget(held);
            None
        }
    }

    /// Keeps a host where there is none.
    pub fn keep(&mut self, host: Box<OpenHost>)
        requires { self.old.held.value ≡ None }
        ensures { self.new.held.value ≡ Some host.value }
    {
        mem::forget(mem::replace(self, Handle::opened(host)));
    }
}
