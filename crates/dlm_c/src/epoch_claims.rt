//! What C calls for claims and cleanups over a log without an end.
ghost use Rattle.std.specs.Prelude.{◌≡◌, None, Some};
ghost use Rattle.c_host.specs.Numbers.{closed, done};
ghost use Rattle.c_epochs.specs.declared.open_epochs.OpenEpochs.{OpenEpochs};
ghost use Rattle.c_claims.specs.Epochs.{Hears, SubmitsOrder, SubmitsPurge, TellsNextLeft, TellsNextPurge};
ghost use Rattle.c_claims.specs.Hearing.{Closes};
ghost use Rattle.dlm_c.specs.Claims.{NamesSign};
ghost use Rattle.dlm_c.specs.Handles.{InHandle};

use crate::claim_handle::ClaimHandle;
use crate::epoch_handle::EpochHandle;
use crate::number_of;
use c_claims::{CleanupNumbers, epochs, name_sign};
use c_host::{CLOSED, LockView};
use session::{Claim, Failure};
use std::alloc::Global;

/// Begins to put the command into the log that is to be submitted. It may be outrun once. If memory is refused, the task is given up.
#[unsafe(no_mangle)]
pub extern "C" fn dlm_c_epochs_submit_order(
    alloc: Global,
    handle: &mut ClaimHandle,
    host: &mut EpochHandle,
) -> i32
    ensures submits { InHandle (λ old new. (new ≡ old)
        × InHandle (λ before after. SubmitsOrder old before after result) host.old.held.value host.new.held.value result)
        handle.old.held.value handle.new.held.value result }
    ensures none { handle.old.held.value ≡ None → host.new.held.value ≡ host.old.held.value }
{
    let Some(claim) = handle.take(alloc) else {
        return CLOSED;
    };
    let status = submit_in(alloc, &claim, host);
    handle.keep(claim);
    status
}

fn submit_in(alloc: Global, claim: &Claim, host: &mut EpochHandle) -> i32
    ensures { InHandle (λ old new. SubmitsOrder claim.now old new result) host.old.held.value host.new.held.value result }
{
    let Some(mut opened) = host.take(alloc) else {
        return CLOSED;
    };
    let status = epochs::submit_order(claim, &mut opened);
    host.keep(opened);
    status
}

/// Hears what came of the order, from a host over the folder: 1 the folder is open, 2 so much is learned, 3 the command was carried out or refused, as the
/// host says itself, 4 the order was refused, 5 the sign of life is this session's, 6 it is somebody else's, 7 it is given up. `left_over`: whether a process
/// that is gone holds the name.
#[unsafe(no_mangle)]
pub extern "C" fn dlm_c_epochs_hear(
    alloc: Global,
    handle: &mut ClaimHandle,
    host: &mut EpochHandle,
    event: u32,
    status: i32,
    left_over: bool,
) -> i32
    ensures heard { (opened : OpenEpochs) → host.old.held.value ≡ Some opened →
        InHandle (λ old new. (result ≡ done) × Hears event status left_over opened old new)
        handle.old.held.value handle.new.held.value result }
    // The claim is told that nothing can be heard.
    ensures none { host.old.held.value ≡ None →
        InHandle (λ old new. (result ≡ closed) × Closes Failure.Broken old new) handle.old.held.value handle.new.held.value result }
    ensures same { host.new.held.value ≡ host.old.held.value }
{
    let Some(mut claim) = handle.take(alloc) else {
        return CLOSED;
    };
    let told = hear_in(alloc, &mut claim, host, event, status, left_over);
    handle.keep(claim);
    told
}

fn hear_in(
    alloc: Global,
    claim: &mut Claim,
    host: &mut EpochHandle,
    event: u32,
    status: i32,
    left_over: bool,
) -> i32
    ensures heard { (opened : OpenEpochs) → host.old.held.value ≡ Some opened →
        (result ≡ done) × Hears event status left_over opened claim.old claim.new }
    ensures none { host.old.held.value ≡ None → (result ≡ closed) × Closes Failure.Broken claim.old claim.new }
    ensures same { host.new.held.value ≡ host.old.held.value }
{
    let Some(opened) = host.take(alloc) else {
        claim.closed(Failure::Broken);
        return CLOSED;
    };
    epochs::hear(alloc, claim, &opened, event, status, left_over);
    host.keep(opened);
    0
}

/// Shows the next lock that is to be looked at, which is none of ours. Once all are passed nothing is due.
#[unsafe(no_mangle)]
pub extern "C" fn dlm_c_epochs_next_left(
    alloc: Global,
    handle: &mut EpochHandle,
    numbers: &CleanupNumbers,
    ours: &[u32],
    into: &mut LockView,
) -> i32
    ensures tells { InHandle (λ old new. (new ≡ old) × TellsNextLeft numbers.now ours.now old into.old into.new result)
        handle.old.held.value handle.new.held.value result }
    ensures none { handle.old.held.value ≡ None → into.new ≡ into.old }
{
    let Some(host) = handle.take(alloc) else {
        return CLOSED;
    };
    let status = epochs::next_left(alloc, &host, numbers, ours, into);
    handle.keep(host);
    status
}

/// Tells what is to be done for a purge: this lock's sign of life is to be looked at; or the purge is to be submitted; or nothing is due, since the host has no
/// locks any more. Where no sign is to be looked at, the lock is 0.
#[unsafe(no_mangle)]
pub extern "C" fn dlm_c_epochs_next_purge(
    alloc: Global,
    handle: &mut EpochHandle,
    numbers: &CleanupNumbers,
    lock: &mut u32,
) -> i32
    ensures tells { InHandle (λ old new. (new ≡ old) × TellsNextPurge numbers.now old lock.new result)
        handle.old.held.value handle.new.held.value result }
    ensures none { handle.old.held.value ≡ None → lock.new ≡ 0 }
{
    *lock = 0;
    let Some(host) = handle.take(alloc) else {
        return CLOSED;
    };
    let status = epochs::next_purge(alloc, &host, numbers, lock);
    handle.keep(host);
    status
}

/// Begins to put the purge into the log that is to be submitted. It may be outrun once. If memory is refused, the task is given up.
#[unsafe(no_mangle)]
pub extern "C" fn dlm_c_epochs_submit_purge(
    alloc: Global,
    handle: &mut EpochHandle,
    numbers: &CleanupNumbers,
) -> i32
    ensures { InHandle (λ old new. SubmitsPurge numbers.now old new result) handle.old.held.value handle.new.held.value result }
{
    let Some(mut host) = handle.take(alloc) else {
        return CLOSED;
    };
    let status = epochs::submit_purge(alloc, &mut host, numbers);
    handle.keep(host);
    status
}

/// Puts the name of a lock's sign of life into a buffer, and a zero behind it. It is that of the lock of this number which was enqueued through
/// the host of this number, in the table of the images that are open.
#[unsafe(no_mangle)]
pub extern "C" fn dlm_c_epochs_sign_name(
    alloc: Global,
    handle: &mut EpochHandle,
    number: u32,
    lock: u32,
    into: &mut [u8],
) -> i32
    ensures names { InHandle (λ old new. (new ≡ old) × NamesSign old.cluster number lock into.old into.new result)
        handle.old.held.value handle.new.held.value result }
    ensures none { handle.old.held.value ≡ None → into.new ≡ into.old }
{
    let Some(host) = handle.take(alloc) else {
        return CLOSED;
    };
    let outcome = name_sign(alloc, host.cluster, number, lock, into);
    handle.keep(host);
    number_of(outcome)
}
