//! What C asks of claims and cleanups over a host of a log that ends.
ghost use Rattle.std.specs.Prelude.{◌≡◌};
ghost use Rattle.c_claims.specs.Ending.{Hears, IsLearnedBy, IsSaid, IsTableOf, SubmitsOrder, SubmitsPurge, TellsNextLeft, TellsNextPurge};

use crate::cleanups;
use crate::cleanups::{CleanupNumbers, due_purge};
use crate::event::Event;
use crate::failures::failure_of;
use crate::hearing::{hear_by, hear_unread};
use crate::orders::{TRIES, due_command};
use c_host::{BAD_ARGUMENT, BUSY, Fault, LockView, NOTHING_DUE, OpenHost, operation_number};
use host::HostAnswer;
use lock_table::{Picture, Reply};
use session::{Claim, Failure, Learned};
use std::alloc::Global;

/// Begins to put the command into the log that is to be submitted. It may be outrun once.
pub fn submit_order(claim: &Claim, host: &mut OpenHost) -> i32
    ensures { SubmitsOrder claim.now host.old host.new result }
{
    if !host.core.idle() {
        return BUSY;
    }
    let Some(command) = due_command(claim, host.core.host()) else {
        return NOTHING_DUE;
    };
    host.core.submit(command, TRIES);
    0
}

/// Hears what came of the order. `left_over`: whether a process that is gone holds the name.
pub fn hear(
    alloc: Global,
    claim: &mut Claim,
    host: &OpenHost,
    event: u32,
    status: i32,
    left_over: bool,
)
    ensures { Hears event status left_over host.now claim.old claim.new }
{
    let event = Event::of(event, status, said(host.core.answer()));
    match host.core.table().picture(alloc) {
        Ok(table) => hear_by(claim, event, &learned_of(host, &table, left_over)),
        Err(_) => hear_unread(claim, event, Failure::NoMemory),
    }
}

/// What the host says of the command that was submitted.
fn said(answer: Option<HostAnswer>) -> Result<Reply, Failure>
    ensures { IsSaid answer result }
{
    match answer {
        Some(HostAnswer::Ack { reply, .. }) => Ok(reply),
        Some(HostAnswer::Refused(refusal)) => Err(failure_of(operation_number(refusal))),
        _ => Err(Failure::Broken),
    }
}

/// What the host has learned, whose lock table this is.
fn learned_of<'a>(host: &'a OpenHost, table: &'a Picture, left_over: bool) -> Learned<'a>
    requires { IsTableOf host.now table.now }
    ensures learned { IsLearnedBy host.now result }
    ensures told { result.left_over ≡ left_over }
{
    Learned {
        first: 0,
        before: &[],
        log: host.core.prefix(),
        slots: Some(u64::from(host.config.slots())),
        table,
        left_over,
    }
}

/// Shows the next lock that is to be looked at, which is none of ours. Once all are passed nothing is due.
pub fn next_left(
    alloc: Global,
    host: &OpenHost,
    numbers: &CleanupNumbers,
    ours: &[u32],
    into: &mut LockView,
) -> i32
    ensures { TellsNextLeft numbers.now ours.now host.now into.old into.new result }
{
    let Some(cleanup) = numbers.cleanup() else {
        return BAD_ARGUMENT;
    };
    let Ok(table) = host.core.table().picture(alloc) else {
        return Fault::NoMemory.number();
    };
    cleanups::next_left(&cleanup, &table, ours, into)
}

/// Tells what is to be done for a purge: this lock's sign of life is to be looked at; or the purge is to be submitted; or nothing is due, since the host has no
/// locks any more. Where no sign is to be looked at, the lock is 0.
pub fn next_purge(alloc: Global, host: &OpenHost, numbers: &CleanupNumbers, lock: &mut u32) -> i32
    ensures { TellsNextPurge numbers.now host.now lock.new result }
{
    *lock = 0;
    let Some(purging) = numbers.purging() else {
        return BAD_ARGUMENT;
    };
    let Ok(table) = host.core.table().picture(alloc) else {
        return Fault::NoMemory.number();
    };
    cleanups::next_purge(&purging, &table, lock)
}

/// Begins to put the purge into the log that is to be submitted. It may be outrun once.
pub fn submit_purge(alloc: Global, host: &mut OpenHost, numbers: &CleanupNumbers) -> i32
    ensures { SubmitsPurge numbers.now host.old host.new result }
{
    if !host.core.idle() {
        return BUSY;
    }
    let Some(purging) = numbers.purging() else {
        return BAD_ARGUMENT;
    };
    if purging.host != host.core.host() {
        return NOTHING_DUE;
    }
    let Ok(table) = host.core.table().picture(alloc) else {
        return Fault::NoMemory.number();
    };
    let Some(command) = due_purge(&purging, &table) else {
        return NOTHING_DUE;
    };
    host.core.submit(command, TRIES);
    0
}
