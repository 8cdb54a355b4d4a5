//! What C asks of claims and cleanups over a host of a log without an end.
ghost use Rattle.std.specs.Prelude.{◌≡◌, IfErr, IfOk, None, true};
ghost use Rattle.lock_command.specs.Command.{is_submittable};
ghost use Rattle.c_epochs.specs.Steps.{Begins, IsSameFolder, TellsStand};
ghost use Rattle.c_claims.specs.Epochs.{Hears, IsLearnedBy, IsSaid, IsTableOf, MayLack, SubmitsOrder, SubmitsPurge, TellsNextLeft, TellsNextPurge, unread_as};

use crate::cleanups;
use crate::cleanups::{CleanupNumbers, due_purge};
use crate::event::Event;
use crate::failures::failure_of;
use crate::hearing::{hear_by, hear_unread};
use crate::orders::{TRIES, due_command};
use c_epochs::{OpenEpochs, ShowFault};
use c_host::{BAD_ARGUMENT, BUSY, Fault, LockView, NOTHING_DUE, operation_number};
use epoch_host::{EpochAnswer, EpochTask};
use lock_command::Command;
use lock_table::{Picture, Reply};
use session::{Claim, Failure, Learned};
use std::alloc::Global;

/// Begins to put the command into the log that is to be submitted. It may be outrun once. If memory is refused, the task is given up.
pub fn submit_order(claim: &Claim, host: &mut OpenEpochs) -> i32
    ensures { SubmitsOrder claim.now host.old host.new result }
{
    if !host.host.idle() {
        return BUSY;
    }
    let Some(command) = due_command(claim, host.host.host()) else {
        return NOTHING_DUE;
    };
    submit(host, command)
}

/// Begins to put the command into the log.
fn submit(host: &mut OpenEpochs, command: Command) -> i32
    requires idle { host.old.host.task ≡ None }
    requires own { command.host ≡ host.old.host.host }
    requires asked { is_submittable command ≡ true }
    ensures begins { Begins (EpochTask.Submit command 1) host.old.host host.new.host }
    ensures told { TellsStand host.new.host result }
    ensures same { IsSameFolder host.old host.new }
{
    let task = EpochTask::Submit {
        command,
        tries: TRIES,
    };
    match host.host.begin(task) {
        Ok(()) => 0,
        Err(_) => Fault::NoMemory.number(),
    }
}

/// Hears what came of the order. `left_over`: whether a process that is gone holds the name.
pub fn hear(
    alloc: Global,
    claim: &mut Claim,
    host: &OpenEpochs,
    event: u32,
    status: i32,
    left_over: bool,
)
    ensures { Hears event status left_over host.now claim.old claim.new }
{
    let event = Event::of(event, status, said(host.host.answer()));
    match picture(alloc, host) {
        Ok(table) => hear_by(claim, event, &learned_of(host, &table, left_over)),
        Err(fault) => hear_unread(claim, event, unread(fault)),
    }
}

/// What the host says of the command that was submitted.
fn said(answer: Option<EpochAnswer>) -> Result<Reply, Failure>
    ensures { IsSaid answer result }
{
    match answer {
        Some(EpochAnswer::Ack { reply, .. }) => Ok(reply),
        Some(EpochAnswer::Refused(refusal)) => Err(failure_of(operation_number(refusal))),
        _ => Err(Failure::Broken),
    }
}

/// As which failure a claim hears it that the table cannot be read.
fn unread(fault: ShowFault) -> Failure
    ensures { result ≡ unread_as fault }
{
    match fault {
        ShowFault::NoMemory => Failure::NoMemory,
        ShowFault::NoTable | ShowFault::NoSuchLock => Failure::Broken,
    }
}

fn picture(alloc: Global, host: &OpenEpochs) -> Result<Picture, ShowFault>
    ensures shown { IfOk result (IsTableOf host.now) }
    ensures lacks { IfErr result (MayLack host.now) }
{
    match host.host.table() {
        Some(table) => Ok(table.picture(alloc)?),
        None => Err(ShowFault::NoTable),
    }
}

/// What the host has learned, whose lock table this is.
fn learned_of<'a>(host: &'a OpenEpochs, table: &'a Picture, left_over: bool) -> Learned<'a>
    requires { IsTableOf host.now table.now }
    ensures learned { IsLearnedBy host.now result }
    ensures told { result.left_over ≡ left_over }
{
    let before = host.host.before();
    let log = host.host.prefix();
    let upto = host.host.length().unwrap_or(0);
    Learned {
        first: upto
            .saturating_sub(log.len() as u64)
            .saturating_sub(before.len() as u64),
        before,
        log,
        slots: None,
        table,
        left_over,
    }
}

/// Shows the next lock that is to be looked at, which is none of ours. Once all are passed nothing is due.
pub fn next_left(
    alloc: Global,
    host: &OpenEpochs,
    numbers: &CleanupNumbers,
    ours: &[u32],
    into: &mut LockView,
) -> i32
    ensures { TellsNextLeft numbers.now ours.now host.now into.old into.new result }
{
    let Some(cleanup) = numbers.cleanup() else {
        return BAD_ARGUMENT;
    };
    match picture(alloc, host) {
        Ok(table) => cleanups::next_left(&cleanup, &table, ours, into),
        Err(fault) => fault.number(),
    }
}

/// Tells what is to be done for a purge: this lock's sign of life is to be looked at; or the purge is to be submitted; or nothing is due, since the host has no
/// locks any more. Where no sign is to be looked at, the lock is 0.
pub fn next_purge(alloc: Global, host: &OpenEpochs, numbers: &CleanupNumbers, lock: &mut u32) -> i32
    ensures { TellsNextPurge numbers.now host.now lock.new result }
{
    *lock = 0;
    let Some(purging) = numbers.purging() else {
        return BAD_ARGUMENT;
    };
    match picture(alloc, host) {
        Ok(table) => cleanups::next_purge(&purging, &table, lock),
        Err(fault) => fault.number(),
    }
}

/// Begins to put the purge into the log that is to be submitted. It may be outrun once. If memory is refused, the task is given up.
pub fn submit_purge(alloc: Global, host: &mut OpenEpochs, numbers: &CleanupNumbers) -> i32
    ensures { SubmitsPurge numbers.now host.old host.new result }
{
    if !host.host.idle() {
        return BUSY;
    }
    let Some(purging) = numbers.purging() else {
        return BAD_ARGUMENT;
    };
    if purging.host != host.host.host() {
        return NOTHING_DUE;
    }
    let table = match picture(alloc, host) {
        Ok(table) => table,
        Err(fault) => return fault.number(),
    };
    let Some(command) = due_purge(&purging, &table) else {
        return NOTHING_DUE;
    };
    submit(host, command)
}
