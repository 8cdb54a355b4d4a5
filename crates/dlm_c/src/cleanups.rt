//! Cleanups for C: the locks of a host's sessions that are to be released, and the purge of a host whose processes are gone.
ghost use Rattle.std.specs.Prelude.{◌≡◌, None};
ghost use Rattle.c_claims.specs.Cleanups.{SettlesOrNot, passed};
ghost use Rattle.c_claims.specs.Ending.{SubmitsPurge, TellsNextLeft, TellsNextPurge};
ghost use Rattle.dlm_c.specs.Handles.{InHandle};

use crate::claim_handle::ClaimHandle;
use crate::handle::Handle;
use c_claims::{CleanupNumbers, ending, settle};
use c_host::{CLOSED, LockView};
use std::alloc::Global;

/// Shows the next lock that is to be looked at, which is none of ours. Once all are passed nothing is due.
#[unsafe(no_mangle)]
pub extern "C" fn dlm_c_next_left(
    alloc: Global,
    handle: &mut Handle,
    numbers: &CleanupNumbers,
    ours: &[u32],
    into: &mut LockView,
) -> i32
    ensures tells { InHandle (λ old new. (new ≡ old) × TellsNextLeft numbers.now ours.now old into.old into.new result)
        handle.old.held.value handle.new.held.value result }
    ensures none { handle.old.held.value ≡ None → into.new ≡ into.old }
{
    let Some(host) = handle.take(alloc) else {
        return CLOSED;
    };
    let status = ending::next_left(alloc, &host, numbers, ours, into);
    handle.keep(host);
    status
}

/// Somebody has the lock, or nobody has its sign of life and the host is to be purged.
#[unsafe(no_mangle)]
pub extern "C" fn dlm_c_pass_left(numbers: &mut CleanupNumbers, lock: u32)
    ensures { numbers.new ≡ passed numbers.old lock }
{
    numbers.pass(lock);
}

/// Counts the claim's lock, which its operation was to release.
#[unsafe(no_mangle)]
pub extern "C" fn dlm_c_settle_left(
    alloc: Global,
    handle: &mut ClaimHandle,
    numbers: &mut CleanupNumbers,
) -> i32
    ensures settles { InHandle (λ old new. (new ≡ old) × SettlesOrNot old numbers.old numbers.new result) handle.old.held.value handle.new.held.value result }
    ensures none { handle.old.held.value ≡ None → numbers.new ≡ numbers.old }
{
    let Some(claim) = handle.take(alloc) else {
        return CLOSED;
    };
    let status = settle(&claim, numbers);
    handle.keep(claim);
    status
}

/// Tells what is to be done for a purge: this lock's sign of life is to be looked at; or the purge is to be submitted; or nothing is due, since the host has no
/// locks any more. Where no sign is to be looked at, the lock is 0.
#[unsafe(no_mangle)]
pub extern "C" fn dlm_c_next_purge(
    alloc: Global,
    handle: &mut Handle,
    numbers: &CleanupNumbers,
    lock: &mut u32,
) -> i32
    ensures tells { InHandle (λ old new. (new ≡ old) × TellsNextPurge numbers.now old lock.new result)
        handle.old.held.value handle.new.held.value result }
    ensures none { handle.old.held.value ≡ None → lock.new ≡ 0 }
{
    *lock = 0;
    let Some(host) = handle.take(alloc) else {
        return CLOSED;
    };
    let status = ending::next_purge(alloc, &host, numbers, lock);
    handle.keep(host);
    status
}

/// Begins to put the purge into the log that is to be submitted. It may be outrun once.
#[unsafe(no_mangle)]
pub extern "C" fn dlm_c_submit_purge(
    alloc: Global,
    handle: &mut Handle,
    numbers: &CleanupNumbers,
) -> i32
    ensures { InHandle (λ old new. SubmitsPurge numbers.now old new result) handle.old.held.value handle.new.held.value result }
{
    let Some(mut host) = handle.take(alloc) else {
        return CLOSED;
    };
    let status = ending::submit_purge(alloc, &mut host, numbers);
    handle.keep(host);
    status
}
