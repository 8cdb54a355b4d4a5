ghost use Rattle.std.specs.Prelude.{◌≡◌, Some, None, IfSome, is_some};

use crate::held_epochs::HeldEpochs;
use crate::parts::Parts;
use c_epochs::OpenEpochs;
use std::alloc::Global;
use std::mem;

/// What C keeps between calls: a host over all epochs, or none. All zeros is none.
#[repr(C)]
#[derive(Drop)]
pub struct EpochHandle {
    is_open: bool,
    pub held: HeldEpochs,
    ghost open_held: { is_open ≡ is_some held.value },
}

impl EpochHandle {
    /// None.
    pub fn closed(alloc: Global) -> EpochHandle
        ensures { result.held.value ≡ None }
    {
        EpochHandle {
            is_open: false,
            held: HeldEpochs::none(alloc),
        }
    }

    /// A host that is kept.
    pub fn opened(host: Box<OpenEpochs>) -> EpochHandle
        ensures { result.held.value ≡ Some host.value }
    {
        EpochHandle {
            is_open: true,
            held: HeldEpochs::of(Parts::of(host)),
        }
    }

    /// Takes the host that is kept, and leaves none.
    pub fn take(&mut self, alloc: Global) -> Option<Box<OpenEpochs>>
        ensures some { IfSome result (λ host. self.old.held.value ≡ Some host.value) }
        ensures none { result ≡ None → self.old.held.value ≡ None }
        ensures left { self.new.held.value ≡ None }
    {
        let EpochHandle { is_open, held } = mem::replace(self, EpochHandle::closed(alloc));
        if is_open {
            Some(held.into_parts().into_box())
        } else {
            mem::forget(held);
            None
        }
    }

    /// Keeps a host where there is none.
    pub fn keep(&mut self, host: Box<OpenEpochs>)
        requires { self.old.held.value ≡ None }
        ensures { self.new.held.value ≡ Some host.value }
    {
        mem::forget(mem::replace(self, EpochHandle::opened(host)));
    }
}
