ghost use Rattle.std.specs.Prelude.{◌≡◌, ◌+◌, IfSome, None};
ghost use Rattle.cleanup.specs.Left.{AllPassed, IsFirstFrom, counted, left_by};

use crate::whose::{Kind, first_from};
use lock_command::{HostNumber, LockNumber};
use lock_table::{LockRecord, Picture};
use session::{Failure, Outcome, Why};

/// The locks of a host's sessions are gone over by rising number, and those are released that are nobody's any more.
#[derive(Clone, Copy, Debug, PartialEq, Eq)]
pub struct Cleanup {
    /// Whose locks they are.
    pub host: HostNumber,
    pub kind: Kind,
    /// The lowest number that is not passed yet.
    pub from: u32,
    /// How many were released.
    pub released: u32,
    /// How many were to be released, and may still be in the table.
    pub stay: u32,
}

impl Cleanup {
    /// None is passed yet.
    pub fn new(host: HostNumber, kind: Kind) -> Cleanup
        ensures { result ≡ record { host = host; kind = kind; from = 0; released = 0; stay = 0 } }
    {
        Cleanup {
            host,
            kind,
            from: 0,
            released: 0,
            stay: 0,
        }
    }

    /// The lock that is to be looked at now: none of those that this session has. If nobody has its sign of life, it is to be released.
    pub fn next(&self, table: &Picture, ours: &[u32]) -> Option<LockRecord>
        ensures next { IfSome result (IsFirstFrom table.now self.now.host self.now.kind ours.now self.now.from) }
        ensures none { result ≡ None → AllPassed table.now self.now.host self.now.kind ours.now self.now.from }
    {
        first_from(table, self.host, self.kind, ours, self.from)
    }

    /// Somebody has the lock.
    pub fn pass(&mut self, lock: LockNumber)
        ensures { self.new ≡ record self.old { from = lock + 1 } }
    {
        self.from = u32::from(lock.get()) + 1;
    }

    /// The operation that was to release the lock has ended so. Tells why the lock stays, if it does.
    pub fn settle(&mut self, lock: LockNumber, outcome: Outcome) -> Option<Why>
        ensures told { result ≡ left_by outcome }
        ensures counted { self.new ≡ counted self.old lock result }
    {
        self.pass(lock);
        let why = match outcome {
            Outcome::NotHeld(_) | Outcome::Given { .. } => None,
            Outcome::InDoubt(why) | Outcome::Failed(why) => Some(why),
            Outcome::Held => Some(Why::Failed(Failure::Broken)),
        };
        match why {
            None => self.released = self.released.saturating_add(1),
            Some(_) => self.stay = self.stay.saturating_add(1),
        }
        why
    }
}
