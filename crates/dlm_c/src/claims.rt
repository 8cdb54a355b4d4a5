//! Claims in handles: what C calls to have a lock of a session.
ghost use Rattle.std.specs.Prelude.{◌≡◌, ◌⊎◌, None, Some};
ghost use Rattle.session.specs.Orders.{order_of};
ghost use Rattle.c_host.specs.Numbers.{closed, done, no_memory};
ghost use Rattle.c_host.specs.declared.open_host.OpenHost.{OpenHost};
ghost use Rattle.c_claims.specs.Asking.{BeginsGoalOr, Stops};
ghost use Rattle.c_claims.specs.Claims.{ShowsClaim, told_order};
ghost use Rattle.c_claims.specs.Ending.{Hears, SubmitsOrder};
ghost use Rattle.c_claims.specs.Hearing.{Closes, HearsAlone};
ghost use Rattle.dlm_c.specs.Claims.{KeepsLeft, KeepsNew};
ghost use Rattle.dlm_c.specs.Handles.{InHandle, InKept};

use crate::claim_handle::ClaimHandle;
use crate::handle::Handle;
use c_claims::{
    AskerNumbers, ClaimView, DueOrder, ValueNumbers, begin, ending, hear_alone, left, stop, take,
};
use c_host::{BAD_ARGUMENT, CLOSED};
use session::{Claim, Failure};
use std::alloc::Global;

/// A lock on a name is to be taken: waited for, or at once. A claim that is kept goes.
#[unsafe(no_mangle)]
pub extern "C" fn dlm_c_take(
    alloc: Global,
    handle: &mut ClaimHandle,
    asker: &AskerNumbers,
    name: &[u8],
    mode: u32,
    waits: bool,
) -> i32
    ensures { KeepsNew asker.now name.now mode waits handle.old.held.value handle.new.held.value result }
{
    let Some(claim) = take(asker, name, mode, waits) else {
        return BAD_ARGUMENT;
    };
    keep(alloc, handle, claim)
}

/// A claim to a lock that a former run left.
#[unsafe(no_mangle)]
pub extern "C" fn dlm_c_left(
    alloc: Global,
    handle: &mut ClaimHandle,
    asker: &AskerNumbers,
    lock: u32,
    name: &[u8],
    mode: u32,
) -> i32
    ensures { KeepsLeft asker.now lock name.now mode handle.old.held.value handle.new.held.value result }
{
    let Some(claim) = left(asker, lock, name, mode) else {
        return BAD_ARGUMENT;
    };
    keep(alloc, handle, claim)
}

fn keep(alloc: Global, handle: &mut ClaimHandle, claim: Claim) -> i32
    ensures { ((result ≡ done) × (handle.new.held.value ≡ Some claim)) ⊎ ((result ≡ no_memory) × (handle.new.held.value ≡ None)) }
{
    let _last = handle.take(alloc);
    match Box::new(alloc, claim) {
        Ok(claim) => {
            handle.keep(claim);
            0
        }
        Err(_) => 21,
    }
}

/// Lets the claim go that is kept, if one is.
#[unsafe(no_mangle)]
pub extern "C" fn dlm_c_forget(alloc: Global, handle: &mut ClaimHandle)
    ensures { handle.new.held.value ≡ None }
{
    let _claim = handle.take(alloc);
}

/// An operation on the claim begins: 1 to take, and wait for, a lock that a former run left, 2 to take it at once, 3 to look whether the lock is still
/// there, 4 to give it back, 5 to give it back with a value, 6 to release it as one that was given up.
#[unsafe(no_mangle)]
pub extern "C" fn dlm_c_begin(
    alloc: Global,
    handle: &mut ClaimHandle,
    asker: &AskerNumbers,
    goal: u32,
    value: &ValueNumbers,
) -> i32
    ensures { InHandle (λ old new. BeginsGoalOr asker.now goal value.now.bytes old new result)
        handle.old.held.value handle.new.held.value result }
{
    let Some(mut claim) = handle.take(alloc) else {
        return CLOSED;
    };
    let status = begin(&mut claim, asker, goal, value);
    handle.keep(claim);
    status
}

/// The operation on the claim is to end soon: the caller's time is over, or it was told to stop.
#[unsafe(no_mangle)]
pub extern "C" fn dlm_c_stop(alloc: Global, handle: &mut ClaimHandle, told: bool)
    ensures { InKept (Stops told) handle.old.held.value handle.new.held.value }
{
    if let Some(mut claim) = handle.take(alloc) {
        stop(&mut claim, told);
        handle.keep(claim);
    }
}

/// Tells what is to be done next.
#[unsafe(no_mangle)]
pub extern "C" fn dlm_c_order(alloc: Global, handle: &mut ClaimHandle, into: &mut DueOrder) -> i32
    ensures tells { InHandle (λ old new. (new ≡ old) × (result ≡ done) × (into.new ≡ told_order (order_of old.step old.pace.outrun)))
        handle.old.held.value handle.new.held.value result }
    ensures none { handle.old.held.value ≡ None → into.new ≡ into.old }
{
    let Some(claim) = handle.take(alloc) else {
        return CLOSED;
    };
    *into = DueOrder::of(&claim.next());
    handle.keep(claim);
    0
}

/// Begins to put the command into the log that is to be submitted. It may be outrun once.
#[unsafe(no_mangle)]
pub extern "C" fn dlm_c_submit_order(
    alloc: Global,
    handle: &mut ClaimHandle,
    host: &mut Handle,
) -> i32
    ensures submits { InHandle (λ old new. (new ≡ old)
        × InHandle (λ before after. SubmitsOrder old before after result) host.old.held.value host.new.held.value result)
        handle.old.held.value handle.new.held.value result }
    ensures none { handle.old.held.value ≡ None → host.new.held.value ≡ host.old.held.value }
{
    let Some(claim) = handle.take(alloc) else {
        return CLOSED;
    };
    let status = submit_in(alloc, &claim, host);
    handle.keep(claim);
    status
}

fn submit_in(alloc: Global, claim: &Claim, host: &mut Handle) -> i32
    ensures { InHandle (λ old new. SubmitsOrder claim.now old new result) host.old.held.value host.new.held.value result }
{
    let Some(mut opened) = host.take(alloc) else {
        return CLOSED;
    };
    let status = ending::submit_order(claim, &mut opened);
    host.keep(opened);
    status
}

/// Hears what came of the order, from a host over the folder: 1 the folder is open, 2 so much is learned, 3 the command was carried out or refused, as the
/// host says itself, 4 the order was refused, 5 the sign of life is this session's, 6 it is somebody else's, 7 it is given up. `left_over`: whether a process
/// that is gone holds the name.
#[unsafe(no_mangle)]
pub extern "C" fn dlm_c_hear(
    alloc: Global,
    handle: &mut ClaimHandle,
    host: &mut Handle,
    event: u32,
    status: i32,
    left_over: bool,
) -> i32
    ensures heard { (opened : OpenHost) → host.old.held.value ≡ Some opened →
        InHandle (λ old new. (result ≡ done) × Hears event status left_over opened old new)
        handle.old.held.value handle.new.held.value result }
    // The claim is told that nothing can be heard.
    ensures none { host.old.held.value ≡ None →
        InHandle (λ old new. (result ≡ closed) × Closes Failure.Broken old new) handle.old.held.value handle.new.held.value result }
    ensures same { host.new.held.value ≡ host.old.held.value }
{
    let Some(mut claim) = handle.take(alloc) else {
        return CLOSED;
    };
    let told = hear_in(alloc, &mut claim, host, event, status, left_over);
    handle.keep(claim);
    told
}

fn hear_in(
    alloc: Global,
    claim: &mut Claim,
    host: &mut Handle,
    event: u32,
    status: i32,
    left_over: bool,
) -> i32
    ensures heard { (opened : OpenHost) → host.old.held.value ≡ Some opened →
        (result ≡ done) × Hears event status left_over opened claim.old claim.new }
    ensures none { host.old.held.value ≡ None → (result ≡ closed) × Closes Failure.Broken claim.old claim.new }
    ensures same { host.new.held.value ≡ host.old.held.value }
{
    let Some(opened) = host.take(alloc) else {
        claim.closed(Failure::Broken);
        return CLOSED;
    };
    ending::hear(alloc, claim, &opened, event, status, left_over);
    host.keep(opened);
    0
}

/// Hears what came of the order, where no host is open: 1 the folder could not be opened, for this status, 2 the pause is over, 3 the sign of life cannot be
/// made or locked.
#[unsafe(no_mangle)]
pub extern "C" fn dlm_c_hear_alone(
    alloc: Global,
    handle: &mut ClaimHandle,
    event: u32,
    status: i32,
) -> i32
    ensures { InHandle (λ old new. (result ≡ done) × HearsAlone event status old new) handle.old.held.value handle.new.held.value result }
{
    let Some(mut claim) = handle.take(alloc) else {
        return CLOSED;
    };
    hear_alone(&mut claim, event, status);
    handle.keep(claim);
    0
}

/// Shows the claim.
#[unsafe(no_mangle)]
pub extern "C" fn dlm_c_show(alloc: Global, handle: &mut ClaimHandle, into: &mut ClaimView) -> i32
    ensures shows { InHandle (λ old new. (new ≡ old) × (result ≡ done) × ShowsClaim into.new old) handle.old.held.value handle.new.held.value result }
    ensures none { handle.old.held.value ≡ None → into.new ≡ into.old }
{
    let Some(claim) = handle.take(alloc) else {
        return CLOSED;
    };
    *into = ClaimView::of(&claim);
    handle.keep(claim);
    0
}
