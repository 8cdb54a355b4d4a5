//! Cleanups: the locks of a host's sessions that are to be released, and the purge of a host whose processes are gone.
ghost use Rattle.std.specs.Prelude.{◌≡◌, IfSome, None};
ghost use Rattle.lock_command.specs.declared.command.Command.{Command};
ghost use Rattle.cleanup.specs.Purges.{PurgesHost};
ghost use Rattle.cleanup.specs.declared.whose.Kind.{Kind};
ghost use Rattle.c_claims.specs.Cleanups.{IsCleanupOf, IsNoCleanup, IsNoPurging, IsPurgingOf, NoneIsDue, SettlesOrNot, TellsLeft, TellsPurge, kind_number, passed};

use crate::failures::status_of;
use c_host::{BAD_ARGUMENT, LockView, NOTHING_DUE, host_of};
use cleanup::{Cleanup, Kind, PurgeOrder, Purging};
use lock_command::Command;
use lock_table::Picture;
use session::{Claim, Order, Why};

/// A cleanup, or a purge, as C keeps it between calls.
#[repr(C)]
#[derive(Clone, Copy, Drop)]
pub struct CleanupNumbers {
    /// The last request of the session, or 0.
    pub request: u64,
    /// Through which host a purge is submitted.
    pub host: u32,
    /// Whose locks they are.
    pub whose: u32,
    /// 0 all, 1 those of sessions that share the host number, 2 those of a session that has it to itself.
    pub kind: u32,
    /// The lowest lock number that is not passed yet.
    pub from: u32,
    pub released: u32,
    pub stay: u32,
    /// Why one of those that stay does, 0 where none does.
    pub status: i32,
    pub unused: u32,
}

impl CleanupNumbers {
    pub(crate) fn cleanup(&self) -> Option<Cleanup>
        ensures some { IfSome result (IsCleanupOf self.now) }
        ensures none { result ≡ None → IsNoCleanup self.now }
    {
        Some(Cleanup {
            host: host_of(self.whose)?,
            kind: kind_of(self.kind)?,
            from: self.from,
            released: self.released,
            stay: self.stay,
        })
    }

    /// The same numbers of a cleanup that went on.
    fn keep(&mut self, cleanup: &Cleanup)
        ensures kept { self.new ≡ record self.old { from = cleanup.now.from; released = cleanup.now.released; stay = cleanup.now.stay } }
    {
        self.from = cleanup.from;
        self.released = cleanup.released;
        self.stay = cleanup.stay;
    }

    pub(crate) fn purging(&self) -> Option<Purging>
        ensures some { IfSome result (IsPurgingOf self.now) }
        ensures none { result ≡ None → IsNoPurging self.now }
    {
        Some(Purging {
            host: host_of(self.host)?,
            victim: host_of(self.whose)?,
            request: self.request,
            from: self.from,
        })
    }

    /// Somebody has the lock, or nobody has its sign of life and the host is to be purged.
    pub fn pass(&mut self, lock: u32)
        ensures { self.new ≡ passed self.old lock }
    {
        self.from = lock.saturating_add(1);
    }
}

fn kind_of(number: u32) -> Option<Kind>
    ensures some { IfSome result (λ kind. kind_number kind ≡ number) }
    ensures none { result ≡ None → (kind : Kind) → kind_number kind ≡ number → ⊥ }
{
    match number {
        0 => Some(Kind::All),
        1 => Some(Kind::Shared),
        2 => Some(Kind::Alone),
        _ => None,
    }
}

/// Shows the next lock that is to be looked at, which is none of ours. Once all are passed nothing is due.
pub fn next_left(cleanup: &Cleanup, table: &Picture, ours: &[u32], into: &mut LockView) -> i32
    ensures { TellsLeft cleanup.now table.now ours.now into.old into.new result }
{
    match cleanup.next(table, ours) {
        Some(lock) => {
            *into = LockView::of(&lock);
            0
        }
        None => NOTHING_DUE,
    }
}

/// Counts the claim's lock, which its operation was to release.
pub fn settle(claim: &Claim, numbers: &mut CleanupNumbers) -> i32
    ensures { SettlesOrNot claim.now numbers.old numbers.new result }
{
    let (Some(mut cleanup), Order::Done(outcome)) = (numbers.cleanup(), claim.next()) else {
        return BAD_ARGUMENT;
    };
    let why = cleanup.settle(claim.lock, outcome);
    numbers.keep(&cleanup);
    if let Some(why) = why {
        numbers.status = status_of(why);
    }
    0
}

/// Tells what is to be done for a purge: this lock's sign of life is to be looked at; or the purge is to be submitted; or nothing is due, since the host has no
/// locks any more. Where no sign is to be looked at, the lock is 0.
pub fn next_purge(purging: &Purging, table: &Picture, lock: &mut u32) -> i32
    ensures { TellsPurge purging.now table.now lock.new result }
{
    *lock = 0;
    match purging.next(table) {
        PurgeOrder::TrySign(tried) => {
            *lock = u32::from(tried.get());
            0
        }
        PurgeOrder::Submit(_) => 0,
        PurgeOrder::Done => NOTHING_DUE,
        PurgeOrder::NoNumber => status_of(Why::NoNumber),
    }
}

/// The command that purges the host, if that is due.
pub fn due_purge(purging: &Purging, table: &Picture) -> Option<Command>
    ensures some { IfSome result (PurgesHost purging.now table.now) }
    ensures none { result ≡ None → NoneIsDue purging.now table.now }
{
    match purging.next(table) {
        PurgeOrder::Submit(command) => Some(command),
        PurgeOrder::TrySign(_) | PurgeOrder::Done | PurgeOrder::NoNumber => None,
    }
}
