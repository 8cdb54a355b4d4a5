//! What C calls: a host over a folder of images, kept between calls in a handle. The host names the device calls; C makes them and
//! passes on their answers. `capi/` has the header, and the C code that meets the requirements stated here.
#![tactic(auto)]

ghost use Rattle.std.specs.Prelude.{◌≡◌, ◌↔◌, None, IfOk, IfErr, IsTrue};
ghost use Rattle.paxos_block.specs.Headers.{IsFormatted};
ghost use Rattle.c_host.specs.Calls.{no_call};
ghost use Rattle.c_host.specs.Headers.{LaysOut};
ghost use Rattle.c_host.specs.Images.{MayRefuse};
ghost use Rattle.c_host.specs.Numbers.{done, closed, fault_number};
ghost use Rattle.c_host.specs.Steps.{Submits, Recovers, Looks, Marks, CallsNext, GoesOn, TellsNoCall};
ghost use Rattle.c_host.specs.Told.{answer_told, status_told};
ghost use Rattle.c_host.specs.Views.{ShowsHost, ShowsLocks, ShowsClients, ShowsText};
ghost use Rattle.dlm_c.specs.Handles.{InHandle};
ghost use Rattle.dlm_c.specs.Opening.{IsOpenedIn, OpensIn};
ghost use Rattle.dlm_c.specs.Showing.{ShowsNothing, TellsLock, TellsValue, Tells};

mod claim_handle;
mod claims;
mod cleanups;
mod device;
mod devices;
mod epoch_claims;
mod epoch_handle;
mod epochs;
mod handle;
mod held;
mod held_claim;
mod held_epochs;
mod marking;
mod owner;
mod parts;
mod signs;

use c_host::{
    Answer, CLOSED, ClientView, DueCall, Fault, HeaderBytes, HostView, Images, LockView, OpenHost,
    Opened, Request, Row, ToldAnswer, ValueView, Written, lay_out,
};
use handle::Handle;
use paxos_block::is_formatted;
use std::alloc::Global;

/// Tells the size and the first bytes of an image that is to be made.
#[unsafe(no_mangle)]
pub extern "C" fn dlm_c_header(
    disks: u32,
    slots: u32,
    cluster: u64,
    disk: u32,
    into: &mut HeaderBytes,
) -> i32
    ensures { LaysOut disks slots cluster disk into.old into.new result }
{
    lay_out(disks, slots, cluster, disk, into)
}

/// Tells whether an image with these first bytes was formatted to the end.
#[unsafe(no_mangle)]
pub extern "C" fn dlm_c_is_formatted(header: &HeaderBytes) -> bool
    ensures { IsTrue result ↔ IsFormatted header.now.bytes }
{
    is_formatted(&header.bytes)
}

/// Opens images for a host, and keeps it in the handle. `disk` becomes the image that is at fault, -1 where none is.
#[unsafe(no_mangle)]
pub extern "C" fn dlm_c_open(
    alloc: Global,
    images: &Images,
    number: u32,
    handle: &mut Handle,
    told: &mut Opened,
    disk: &mut i32,
) -> i32
    ensures { OpensIn images.now number handle.old.held.value handle.new.held.value told.old told.new result disk.new }
{
    *disk = -1;
    match open(alloc, images, number, handle, told) {
        Ok(()) => 0,
        Err(fault) => {
            *disk = fault.disk();
            fault.number()
        }
    }
}

fn open(
    alloc: Global,
    images: &Images,
    number: u32,
    handle: &mut Handle,
    told: &mut Opened,
) -> Result<(), Fault>
    ensures opened { IfOk result (λ _. (handle.old.held.value ≡ None) × IsOpenedIn images.now number handle.new.held.value told.new) }
    ensures refused { IfErr result (MayRefuse images.now number handle.old.held.value) }
    ensures unchanged { IfErr result (λ _. (handle.new.held.value ≡ handle.old.held.value) × (told.new ≡ told.old)) }
{
    if let Some(host) = handle.take(alloc) {
        handle.keep(host);
        return Err(Fault::Open);
    }
    let (host, opened) = OpenHost::open(alloc, images, number)?;
    match Box::new(alloc, host) {
        Ok(host) => {
            handle.keep(host);
            *told = opened;
            Ok(())
        }
        Err(_) => Err(Fault::NoMemory),
    }
}

/// Lets the host go that the handle keeps, if it keeps one.
#[unsafe(no_mangle)]
pub extern "C" fn dlm_c_close(alloc: Global, handle: &mut Handle)
    ensures { handle.new.held.value ≡ None }
{
    let _host = handle.take(alloc);
}

/// Begins to put a command of the host into the log.
#[unsafe(no_mangle)]
pub extern "C" fn dlm_c_submit(
    alloc: Global,
    handle: &mut Handle,
    request: &Request,
    name: &[u8],
    tries: u32,
) -> i32
    ensures { InHandle (λ old new. Submits request.now name.now tries old new result) handle.old.held.value handle.new.held.value result }
{
    let Some(mut host) = handle.take(alloc) else {
        return CLOSED;
    };
    let status = host.submit(request, name, tries);
    handle.keep(host);
    status
}

/// Begins to learn all that is in the log.
#[unsafe(no_mangle)]
pub extern "C" fn dlm_c_recover(alloc: Global, handle: &mut Handle, tries: u32) -> i32
    ensures { InHandle (λ old new. Recovers tries old new result) handle.old.held.value handle.new.held.value result }
{
    let Some(mut host) = handle.take(alloc) else {
        return CLOSED;
    };
    let status = host.recover(tries);
    handle.keep(host);
    status
}

/// Begins to learn what marks tell.
#[unsafe(no_mangle)]
pub extern "C" fn dlm_c_look(alloc: Global, handle: &mut Handle) -> i32
    ensures { InHandle (λ old new. Looks old new result) handle.old.held.value handle.new.held.value result }
{
    let Some(mut host) = handle.take(alloc) else {
        return CLOSED;
    };
    let status = host.look();
    handle.keep(host);
    status
}

/// Begins to mark a slot.
#[unsafe(no_mangle)]
pub extern "C" fn dlm_c_mark(alloc: Global, handle: &mut Handle, slot: u32) -> i32
    ensures { InHandle (λ old new. Marks slot old new result) handle.old.held.value handle.new.held.value result }
{
    let Some(mut host) = handle.take(alloc) else {
        return CLOSED;
    };
    let status = host.mark(slot);
    handle.keep(host);
    status
}

/// Gives the device call that is due. An attach never reaches C: it is answered here, with this boot number for every disk.
#[unsafe(no_mangle)]
pub extern "C" fn dlm_c_call(
    alloc: Global,
    handle: &mut Handle,
    boot: u64,
    call: &mut DueCall,
    written: &mut Written,
) -> i32
    ensures next { InHandle (λ old new. CallsNext boot old new call.new written.old.bytes written.new.bytes result) handle.old.held.value handle.new.held.value result }
    ensures none { handle.old.held.value ≡ None → TellsNoCall call.new written.old.bytes written.new.bytes }
{
    let Some(mut host) = handle.take(alloc) else {
        return no_host(call);
    };
    let status = host.call(boot, call, written);
    handle.keep(host);
    status
}

/// Hears what the device call that is due was answered, and tells the next. The row is looked at where that was a read.
#[unsafe(no_mangle)]
pub extern "C" fn dlm_c_next(
    alloc: Global,
    handle: &mut Handle,
    told: &ToldAnswer,
    row: &Row,
    call: &mut DueCall,
    written: &mut Written,
) -> i32
    ensures next { InHandle (λ old new. GoesOn told.now row.now.bytes old new call.new written.old.bytes written.new.bytes result)
        handle.old.held.value handle.new.held.value result }
    ensures none { handle.old.held.value ≡ None → TellsNoCall call.new written.old.bytes written.new.bytes }
{
    let Some(mut host) = handle.take(alloc) else {
        return no_host(call);
    };
    let status = host.next(told, row, call, written);
    handle.keep(host);
    status
}

// No host is kept, so no call is due.
fn no_host(call: &mut DueCall) -> i32
    ensures call { call.new ≡ no_call }
    ensures status { result ≡ closed }
{
    *call = DueCall::none();
    CLOSED
}

/// Tells how the last operation ended.
#[unsafe(no_mangle)]
pub extern "C" fn dlm_c_answer(alloc: Global, handle: &mut Handle, answer: &mut Answer) -> i32
    ensures answers { InHandle (λ old new. (new ≡ old) × (answer.new ≡ answer_told old.core.said) × (result ≡ status_told old.core.said))
        handle.old.held.value handle.new.held.value result }
    ensures none { handle.old.held.value ≡ None → answer.new ≡ answer.old }
{
    let Some(host) = handle.take(alloc) else {
        return CLOSED;
    };
    let status = host.answer(answer);
    handle.keep(host);
    status
}

/// Shows the host.
#[unsafe(no_mangle)]
pub extern "C" fn dlm_c_host(alloc: Global, handle: &mut Handle, into: &mut HostView) -> i32
    ensures shows { InHandle (λ old new. (new ≡ old) × (result ≡ done) × ShowsHost into.new old) handle.old.held.value handle.new.held.value result }
    ensures none { handle.old.held.value ≡ None → into.new ≡ into.old }
{
    let Some(host) = handle.take(alloc) else {
        return CLOSED;
    };
    *into = host.view();
    handle.keep(host);
    0
}

/// Shows the lock of this number.
#[unsafe(no_mangle)]
pub extern "C" fn dlm_c_lock(
    alloc: Global,
    handle: &mut Handle,
    lock: u32,
    into: &mut LockView,
) -> i32
    ensures tells { InHandle (λ old new. (new ≡ old) × TellsLock old.core.prefix lock into.old into.new result)
        handle.old.held.value handle.new.held.value result }
    ensures none { handle.old.held.value ≡ None → into.new ≡ into.old }
{
    let Some(host) = handle.take(alloc) else {
        return CLOSED;
    };
    let outcome = host.lock(alloc, lock, into);
    handle.keep(host);
    number_of(outcome)
}

/// Shows the value of the name of the lock of this number.
#[unsafe(no_mangle)]
pub extern "C" fn dlm_c_value(
    alloc: Global,
    handle: &mut Handle,
    lock: u32,
    into: &mut ValueView,
) -> i32
    ensures tells { InHandle (λ old new. (new ≡ old) × TellsValue old.core.prefix lock into.old into.new result)
        handle.old.held.value handle.new.held.value result }
    ensures none { handle.old.held.value ≡ None → into.new ≡ into.old }
{
    let Some(host) = handle.take(alloc) else {
        return CLOSED;
    };
    let outcome = host.value(alloc, lock, into);
    handle.keep(host);
    number_of(outcome)
}

/// Shows the locks of the table, as many as there is room for, and tells how many there are.
#[unsafe(no_mangle)]
pub extern "C" fn dlm_c_locks(
    alloc: Global,
    handle: &mut Handle,
    into: &mut [LockView],
    count: &mut usize,
) -> i32
    ensures tells { InHandle (λ old new. (new ≡ old) × Tells (ShowsLocks old.core.prefix into.old into.new count.new) (ShowsNothing into.old into.new count.new) result)
        handle.old.held.value handle.new.held.value result }
    ensures none { handle.old.held.value ≡ None → ShowsNothing into.old into.new count.new }
{
    *count = 0;
    let Some(host) = handle.take(alloc) else {
        return CLOSED;
    };
    let outcome = host.locks(alloc, into, count);
    handle.keep(host);
    number_of(outcome)
}

/// Shows the clients that are known, as many as there is room for, and tells how many there are.
#[unsafe(no_mangle)]
pub extern "C" fn dlm_c_clients(
    alloc: Global,
    handle: &mut Handle,
    into: &mut [ClientView],
    count: &mut usize,
) -> i32
    ensures tells { InHandle (λ old new. (new ≡ old) × Tells (ShowsClients old.core.prefix into.old into.new count.new) (ShowsNothing into.old into.new count.new) result)
        handle.old.held.value handle.new.held.value result }
    ensures none { handle.old.held.value ≡ None → ShowsNothing into.old into.new count.new }
{
    *count = 0;
    let Some(host) = handle.take(alloc) else {
        return CLOSED;
    };
    let outcome = host.clients(alloc, into, count);
    handle.keep(host);
    number_of(outcome)
}

/// Puts the table's text into a buffer, as much as there is room for, and tells how long it is.
#[unsafe(no_mangle)]
pub extern "C" fn dlm_c_text(
    alloc: Global,
    handle: &mut Handle,
    into: &mut [u8],
    length: &mut usize,
) -> i32
    ensures tells { InHandle (λ old new. (new ≡ old) × Tells (ShowsText old.core.prefix into.old into.new length.new) (ShowsNothing into.old into.new length.new) result)
        handle.old.held.value handle.new.held.value result }
    ensures none { handle.old.held.value ≡ None → ShowsNothing into.old into.new length.new }
{
    *length = 0;
    let Some(host) = handle.take(alloc) else {
        return CLOSED;
    };
    let outcome = host.text(alloc, into, length);
    handle.keep(host);
    number_of(outcome)
}

/// 0 where the call was carried out, else the number of the fault.
fn number_of(outcome: Result<(), Fault>) -> i32
    ensures ok { IfOk outcome (λ _. result ≡ done) }
    ensures err { IfErr outcome (λ fault. result ≡ fault_number fault) }
{
    match outcome {
        Ok(()) => 0,
        Err(fault) => fault.number(),
    }
}
