ghost use Rattle.std.specs.Prelude.{◌≡◌, Some, None, IfSome, is_some};

use crate::held_claim::HeldClaim;
use crate::parts::Parts;
use session::Claim;
use std::alloc::Global;
use std::mem;

/// What C keeps between calls: a claim, or none. All zeros is none.
#[repr(C)]
#[derive(Drop)]
pub struct ClaimHandle {
    is_open: bool,
    pub held: HeldClaim,
    ghost open_held: { is_open ≡ is_some held.value },
}

impl ClaimHandle {
    /// None.
    pub fn closed(alloc: Global) -> ClaimHandle
        ensures { result.held.value ≡ None }
    {
        ClaimHandle {
            is_open: false,
            held: HeldClaim::none(alloc),
        }
    }

    /// A claim that is kept.
    pub fn opened(claim: Box<Claim>) -> ClaimHandle
        ensures { result.held.value ≡ Some claim.value }
    {
        ClaimHandle {
            is_open: true,
            held: HeldClaim::of(Parts::of(claim)),
        }
    }

    /// Takes the claim that is kept, and leaves none.
    pub fn take(&mut self, alloc: Global) -> Option<Box<Claim>>
        ensures some { IfSome result (λ claim. self.old.held.value ≡ Some claim.value) }
        ensures none { result ≡ None → self.old.held.value ≡ None }
        ensures left { self.new.held.value ≡ None }
    {
        let ClaimHandle { is_open, held } = mem::replace(self, ClaimHandle::closed(alloc));
        if is_open {
            Some(held.into_parts().into_box())
        } else {
            mem::forget(held);
            None
        }
    }

    /// Keeps a claim where there is none.
    pub fn keep(&mut self, claim: Box<Claim>)
        requires { self.old.held.value ≡ None }
        ensures { self.new.held.value ≡ Some claim.value }
    {
        mem::forget(mem::replace(self, ClaimHandle::opened(claim)));
    }
}
