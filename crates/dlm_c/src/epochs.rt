ghost use Rattle.std.specs.Prelude.{◌≡◌, None, Ok, IfOk, IfErr, true, false};
ghost use Rattle.c_host.specs.Numbers.{done};
ghost use Rattle.c_host.specs.Steps.{TellsNoCall};
ghost use Rattle.c_host.specs.Views.{FindsLock, FindsValue, ShowsClients, ShowsLocks, ShowsText};
ghost use Rattle.c_epochs.specs.Calls.{LiesWithin, ReadsOnly};
ghost use Rattle.c_epochs.specs.Images.{IsOfEndingLog};
ghost use Rattle.c_epochs.specs.Numbers.{show_number};
ghost use Rattle.c_epochs.specs.Steps.{CallsNext, GoesOn, Looks, Marks, Recovers, Submits};
ghost use Rattle.c_epochs.specs.Told.{answer_told, status_told};
ghost use Rattle.c_epochs.specs.Views.{KnowsTable, LacksTable, MayLack, ShowsHost};
ghost use Rattle.dlm_c.specs.Epochs.{IsOpenedIn, MayRefuseIn, OpensIn, ShowsOr};
ghost use Rattle.dlm_c.specs.Handles.{InHandle};
ghost use Rattle.dlm_c.specs.Showing.{ShowsNothing};

use crate::epoch_handle::EpochHandle;
use crate::no_host;
use c_epochs::{EpochsView, OpenEpochs, PlacedAnswer, ShowFault, WrittenBlock};
use c_host::{
    CLOSED, ClientView, DueCall, Fault, Images, LockView, Opened, Request, Row, ToldAnswer,
    ValueView,
};
use std::alloc::Global;

/// The images are of a log that ends.
const ENDS: i32 = -11;

/// Opens images of a log without an end for a host, and keeps it in the handle. If they are of a log that ends none is kept, and that is told. `disk`
/// becomes the image that is at fault, -1 where none is.
#[unsafe(no_mangle)]
pub extern "C" fn dlm_c_epochs_open(
    alloc: Global,
    images: &Images,
    number: u32,
    handle: &mut EpochHandle,
    told: &mut Opened,
    disk: &mut i32,
) -> i32
    ensures { OpensIn images.now number false handle.old.held.value handle.new.held.value told.old told.new result disk.new }
{
    open(alloc, images, number, false, handle, told, disk)
}

/// The same for a host that only looks: no call of it writes or syncs.
#[unsafe(no_mangle)]
pub extern "C" fn dlm_c_epochs_open_to_look(
    alloc: Global,
    images: &Images,
    handle: &mut EpochHandle,
    told: &mut Opened,
    disk: &mut i32,
) -> i32
    ensures { OpensIn images.now 0 true handle.old.held.value handle.new.held.value told.old told.new result disk.new }
{
    open(alloc, images, 0, true, handle, told, disk)
}

fn open(
    alloc: Global,
    images: &Images,
    number: u32,
    only_looks: bool,
    handle: &mut EpochHandle,
    told: &mut Opened,
    disk: &mut i32,
) -> i32
    ensures { OpensIn images.now number only_looks handle.old.held.value handle.new.held.value told.old told.new result disk.new }
{
    *disk = -1;
    match keep_opened(alloc, images, number, only_looks, handle, told) {
        Ok(true) => 0,
        Ok(false) => ENDS,
        Err(fault) => {
            *disk = fault.disk();
            fault.number()
        }
    }
}

/// Whether the log has no end, so that a host is kept.
fn keep_opened(
    alloc: Global,
    images: &Images,
    number: u32,
    only_looks: bool,
    handle: &mut EpochHandle,
    told: &mut Opened,
) -> Result<bool, Fault>
    ensures opened { result ≡ Ok true → (handle.old.held.value ≡ None) × IsOpenedIn images.now number only_looks handle.new.held.value told.new }
    ensures ends { result ≡ Ok false → IsOfEndingLog images.now }
    ensures refused { IfErr result (MayRefuseIn images.now number handle.old.held.value) }
    ensures unchanged { (result ≡ Ok true → ⊥) → (handle.new.held.value ≡ handle.old.held.value) × (told.new ≡ told.old) }
{
    if let Some(host) = handle.take(alloc) {
        handle.keep(host);
        return Err(Fault::Open);
    }
    let Some((host, opened)) = OpenEpochs::open(alloc, images, number, only_looks)? else {
        return Ok(false);
    };
    match Box::new(alloc, host) {
        Ok(host) => {
            handle.keep(host);
            *told = opened;
            Ok(true)
        }
        Err(_) => Err(Fault::NoMemory),
    }
}

/// Lets the host go that the handle keeps, if it keeps one.
#[unsafe(no_mangle)]
pub extern "C" fn dlm_c_epochs_close(alloc: Global, handle: &mut EpochHandle)
    ensures { handle.new.held.value ≡ None }
{
    let _host = handle.take(alloc);
}

/// Begins to put a command of the host into the log.
#[unsafe(no_mangle)]
pub extern "C" fn dlm_c_epochs_submit(
    alloc: Global,
    handle: &mut EpochHandle,
    request: &Request,
    name: &[u8],
    tries: u32,
) -> i32
    ensures { InHandle (λ old new. Submits request.now name.now tries old new result) handle.old.held.value handle.new.held.value result }
{
    let Some(mut host) = handle.take(alloc) else {
        return CLOSED;
    };
    let status = host.submit(request, name, tries);
    handle.keep(host);
    status
}

/// Begins to learn all that is in the log.
#[unsafe(no_mangle)]
pub extern "C" fn dlm_c_epochs_recover(alloc: Global, handle: &mut EpochHandle, tries: u32) -> i32
    ensures { InHandle (λ old new. Recovers tries old new result) handle.old.held.value handle.new.held.value result }
{
    let Some(mut host) = handle.take(alloc) else {
        return CLOSED;
    };
    let status = host.recover(tries);
    handle.keep(host);
    status
}

/// Begins to learn what marks tell.
#[unsafe(no_mangle)]
pub extern "C" fn dlm_c_epochs_look(alloc: Global, handle: &mut EpochHandle) -> i32
    ensures { InHandle (λ old new. Looks old new result) handle.old.held.value handle.new.held.value result }
{
    let Some(mut host) = handle.take(alloc) else {
        return CLOSED;
    };
    let status = host.look();
    handle.keep(host);
    status
}

/// Begins to mark a place.
#[unsafe(no_mangle)]
pub extern "C" fn dlm_c_epochs_mark(alloc: Global, handle: &mut EpochHandle, place: u64) -> i32
    ensures { InHandle (λ old new. Marks place old new result) handle.old.held.value handle.new.held.value result }
{
    let Some(mut host) = handle.take(alloc) else {
        return CLOSED;
    };
    let status = host.mark(place);
    handle.keep(host);
    status
}

/// Gives the device call that is due, at its place in the whole image. An attach never reaches C: it is answered here, with this boot number for every
/// disk. Of a disk that takes no part yet in the epoch where the host is, the kind is 5: no call is to be made, and any answer will do.
#[unsafe(no_mangle)]
pub extern "C" fn dlm_c_epochs_call(
    alloc: Global,
    handle: &mut EpochHandle,
    boot: u64,
    call: &mut DueCall,
    written: &mut WrittenBlock,
) -> i32
    ensures next { InHandle (λ old new. CallsNext boot old new call.new written.old.bytes written.new.bytes result) handle.old.held.value handle.new.held.value result }
    ensures within { InHandle (λ old new. result ≡ done → LiesWithin new.host.config call.new) handle.old.held.value handle.new.held.value result }
    ensures reads { InHandle (λ old new. old.host.only_looks ≡ true → result ≡ done → ReadsOnly call.new) handle.old.held.value handle.new.held.value result }
    ensures none { handle.old.held.value ≡ None → TellsNoCall call.new written.old.bytes written.new.bytes }
{
    let Some(mut host) = handle.take(alloc) else {
        return no_host(call);
    };
    let status = host.call(boot, call, written);
    handle.keep(host);
    status
}

/// Hears what the device call that is due was answered, and tells the next. The row is looked at where that was a read.
#[unsafe(no_mangle)]
pub extern "C" fn dlm_c_epochs_next(
    alloc: Global,
    handle: &mut EpochHandle,
    told: &ToldAnswer,
    row: &Row,
    call: &mut DueCall,
    written: &mut WrittenBlock,
) -> i32
    ensures next { InHandle (λ old new. GoesOn told.now row.now.bytes old new call.new written.old.bytes written.new.bytes result)
        handle.old.held.value handle.new.held.value result }
    ensures within { InHandle (λ old new. result ≡ done → LiesWithin new.host.config call.new) handle.old.held.value handle.new.held.value result }
    ensures reads { InHandle (λ old new. old.host.only_looks ≡ true → result ≡ done → ReadsOnly call.new) handle.old.held.value handle.new.held.value result }
    ensures none { handle.old.held.value ≡ None → TellsNoCall call.new written.old.bytes written.new.bytes }
{
    let Some(mut host) = handle.take(alloc) else {
        return no_host(call);
    };
    let status = host.next(told, row, call, written);
    handle.keep(host);
    status
}

/// Tells how the last task ended.
#[unsafe(no_mangle)]
pub extern "C" fn dlm_c_epochs_answer(
    alloc: Global,
    handle: &mut EpochHandle,
    answer: &mut PlacedAnswer,
) -> i32
    ensures answers { InHandle (λ old new. (new ≡ old) × (answer.new ≡ answer_told old.host.said) × (result ≡ status_told old.host.said))
        handle.old.held.value handle.new.held.value result }
    ensures none { handle.old.held.value ≡ None → answer.new ≡ answer.old }
{
    let Some(host) = handle.take(alloc) else {
        return CLOSED;
    };
    let status = host.answer(answer);
    handle.keep(host);
    status
}

/// Shows the host.
#[unsafe(no_mangle)]
pub extern "C" fn dlm_c_epochs_host(
    alloc: Global,
    handle: &mut EpochHandle,
    into: &mut EpochsView,
) -> i32
    ensures shows { InHandle (λ old new. (new ≡ old) × (result ≡ done) × ShowsHost into.new old) handle.old.held.value handle.new.held.value result }
    ensures none { handle.old.held.value ≡ None → into.new ≡ into.old }
{
    let Some(host) = handle.take(alloc) else {
        return CLOSED;
    };
    *into = host.view();
    handle.keep(host);
    0
}

/// Shows the lock of this number.
#[unsafe(no_mangle)]
pub extern "C" fn dlm_c_epochs_lock(
    alloc: Global,
    handle: &mut EpochHandle,
    lock: u32,
    into: &mut LockView,
) -> i32
    ensures tells { InHandle (λ old new. (new ≡ old) ×
        ShowsOr (KnowsTable old.host (λ learned. FindsLock learned lock into.new)) (MayLack old.host lock) (into.new ≡ into.old) result)
        handle.old.held.value handle.new.held.value result }
    ensures none { handle.old.held.value ≡ None → into.new ≡ into.old }
{
    let Some(host) = handle.take(alloc) else {
        return CLOSED;
    };
    let outcome = host.lock(alloc, lock, into);
    handle.keep(host);
    number_of(outcome)
}

/// Shows the value of the name of the lock of this number.
#[unsafe(no_mangle)]
pub extern "C" fn dlm_c_epochs_value(
    alloc: Global,
    handle: &mut EpochHandle,
    lock: u32,
    into: &mut ValueView,
) -> i32
    ensures tells { InHandle (λ old new. (new ≡ old) ×
        ShowsOr (KnowsTable old.host (λ learned. FindsValue learned lock into.new)) (MayLack old.host lock) (into.new ≡ into.old) result)
        handle.old.held.value handle.new.held.value result }
    ensures none { handle.old.held.value ≡ None → into.new ≡ into.old }
{
    let Some(host) = handle.take(alloc) else {
        return CLOSED;
    };
    let outcome = host.value(alloc, lock, into);
    handle.keep(host);
    number_of(outcome)
}

/// Shows the locks of the table, as many as there is room for, and tells how many there are.
#[unsafe(no_mangle)]
pub extern "C" fn dlm_c_epochs_locks(
    alloc: Global,
    handle: &mut EpochHandle,
    into: &mut [LockView],
    count: &mut usize,
) -> i32
    ensures tells { InHandle (λ old new. (new ≡ old) ×
        ShowsOr (KnowsTable old.host (λ learned. ShowsLocks learned into.old into.new count.new)) (LacksTable old.host) (ShowsNothing into.old into.new count.new) result)
        handle.old.held.value handle.new.held.value result }
    ensures none { handle.old.held.value ≡ None → ShowsNothing into.old into.new count.new }
{
    *count = 0;
    let Some(host) = handle.take(alloc) else {
        return CLOSED;
    };
    let outcome = host.locks(alloc, into, count);
    handle.keep(host);
    number_of(outcome)
}

/// Shows the clients that are known, as many as there is room for, and tells how many there are.
#[unsafe(no_mangle)]
pub extern "C" fn dlm_c_epochs_clients(
    alloc: Global,
    handle: &mut EpochHandle,
    into: &mut [ClientView],
    count: &mut usize,
) -> i32
    ensures tells { InHandle (λ old new. (new ≡ old) ×
        ShowsOr (KnowsTable old.host (λ learned. ShowsClients learned into.old into.new count.new)) (LacksTable old.host) (ShowsNothing into.old into.new count.new) result)
        handle.old.held.value handle.new.held.value result }
    ensures none { handle.old.held.value ≡ None → ShowsNothing into.old into.new count.new }
{
    *count = 0;
    let Some(host) = handle.take(alloc) else {
        return CLOSED;
    };
    let outcome = host.clients(alloc, into, count);
    handle.keep(host);
    number_of(outcome)
}

/// Puts the table's text into a buffer, as much as there is room for, and tells how long it is.
#[unsafe(no_mangle)]
pub extern "C" fn dlm_c_epochs_text(
    alloc: Global,
    handle: &mut EpochHandle,
    into: &mut [u8],
    length: &mut usize,
) -> i32
    ensures tells { InHandle (λ old new. (new ≡ old) ×
        ShowsOr (KnowsTable old.host (λ learned. ShowsText learned into.old into.new length.new)) (LacksTable old.host) (ShowsNothing into.old into.new length.new) result)
        handle.old.held.value handle.new.held.value result }
    ensures none { handle.old.held.value ≡ None → ShowsNothing into.old into.new length.new }
{
    *length = 0;
    let Some(host) = handle.take(alloc) else {
        return CLOSED;
    };
    let outcome = host.text(alloc, into, length);
    handle.keep(host);
    number_of(outcome)
}

/// 0 where that was shown, else the number of the fault.
fn number_of(outcome: Result<(), ShowFault>) -> i32
    ensures ok { IfOk outcome (λ _. result ≡ done) }
    ensures err { IfErr outcome (λ fault. result ≡ show_number fault) }
{
    match outcome {
        Ok(()) => 0,
        Err(fault) => fault.number(),
    }
}
