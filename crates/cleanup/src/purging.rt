ghost use Rattle.std.specs.Prelude.{◌≡◌, ◌+◌, IsTrue, IfSome, None, false};
ghost use Rattle.cleanup.specs.Purges.{HasLock, HasNoLocks, IsTried, HasNoRequest, IsLastRequest, IsPurgeDue, PurgesHost};

use crate::whose::{Kind, first_from};
use lock_command::{Action, Command, HostNumber, LockNumber, RequestNumber};
use lock_table::Picture;
use session::{client_of, last_request};

/// A host whose processes are gone is purged, once its sessions' locks were gone over by rising number, and each was nobody's.
#[derive(Clone, Copy, Debug, PartialEq, Eq)]
pub struct Purging {
    /// Through which host the session works.
    pub host: HostNumber,
    pub victim: HostNumber,
    /// The last request of the session, or 0.
    pub request: u64,
    /// The lowest lock number that is not passed yet.
    pub from: u32,
}

/// What is to be done next.
#[derive(Clone, Copy, Debug)]
pub enum PurgeOrder {
    /// Look whether the sign of life of this lock number is nobody's. Then `pass`. Else the purge is off.
    TrySign(LockNumber),
    /// Put this command into the log.
    Submit(Command),
    /// Nothing: the host has no locks any more.
    Done,
    /// No request number is left to the client.
    NoNumber,
}

impl Purging {
    /// What is to be done, by this table.
    pub fn next(&self, table: &Picture) -> PurgeOrder
        ensures tries { (lock : LockNumber) → result ≡ PurgeOrder.TrySign lock → IsTried self.now table.now lock }
        ensures submits { (command : Command) → result ≡ PurgeOrder.Submit command → PurgesHost self.now table.now command }
        ensures done { result ≡ PurgeOrder.Done → HasNoLocks table.now self.now.victim }
        ensures number { result ≡ PurgeOrder.NoNumber → HasNoRequest self.now table.now }
    {
        match first_from(table, self.victim, Kind::All, &[], self.from) {
            Some(lock) => PurgeOrder::TrySign(lock.lock),
            None if !has_locks(table, self.victim) => PurgeOrder::Done,
            None => match self.purge(table) {
                Some(command) => PurgeOrder::Submit(command),
                None => PurgeOrder::NoNumber,
            },
        }
    }

    /// Nobody has the lock.
    pub fn pass(&mut self, lock: LockNumber)
        ensures { self.new ≡ record self.old { from = lock + 1 } }
    {
        self.from = u32::from(lock.get()) + 1;
    }

    /// The command, by the next request.
    fn purge(&self, table: &Picture) -> Option<Command>
        requires { IsPurgeDue self.now table.now }
        ensures command { IfSome result (PurgesHost self.now table.now) }
        ensures none { result ≡ None → HasNoRequest self.now table.now }
    {
        let last = self.last_request(table);
        Some(Command {
            host: self.host,
            client: client_of(self.host),
            request: RequestNumber::new(last.saturating_add(1))?,
            action: Action::Purge(self.victim),
        })
    }

    /// The last request of the session's client that is known.
    fn last_request(&self, table: &Picture) -> u64
        ensures { IsLastRequest self.now table.now result }
    {
        last_request(table, client_of(self.host)).max(self.request)
    }
}

/// Whether a lock of the table was taken through the host.
fn has_locks(table: &Picture, host: HostNumber) -> bool
    ensures some { IsTrue result → HasLock table.now host }
    ensures none { result ≡ false → HasNoLocks table.now host }
{
    let locks = table.locks();
    for at in 0..locks.len() {
        if locks[at].host == host {
            return true;
        }
    }
    false
}
