//! The names of signs of life, which C makes and locks.
ghost use Rattle.std.specs.Prelude.{◌≡◌, None};
ghost use Rattle.dlm_c.specs.Handles.{InHandle};
ghost use Rattle.dlm_c.specs.Claims.{NamesSign};

use crate::handle::Handle;
use crate::number_of;
use c_claims::name_sign;
use c_host::CLOSED;
use std::alloc::Global;

/// Puts the name of a lock's sign of life into a buffer, and a zero behind it. It is that of the lock of this number which was enqueued through
/// the host of this number, in the table of the images that are open.
#[unsafe(no_mangle)]
pub extern "C" fn dlm_c_sign_name(
    alloc: Global,
    handle: &mut Handle,
    number: u32,
    lock: u32,
    into: &mut [u8],
) -> i32
    ensures names { InHandle (λ old new. (new ≡ old) × NamesSign old.cluster number lock into.old into.new result)
        handle.old.held.value handle.new.held.value result }
    ensures none { handle.old.held.value ≡ None → into.new ≡ into.old }
{
    let Some(host) = handle.take(alloc) else {
        return CLOSED;
    };
    let outcome = name_sign(alloc, host.cluster, number, lock, into);
    handle.keep(host);
    number_of(outcome)
}
