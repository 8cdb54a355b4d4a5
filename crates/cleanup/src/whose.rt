ghost use Rattle.std.specs.Prelude.{◌≡◌, ◌↔◌, IfSome, IsTrue, None};
ghost use Rattle.lock_command.specs.declared.record.LockRecord.{LockRecord};
ghost use Rattle.cleanup.specs.Left as left;
ghost use Rattle.cleanup.specs.Left.{AllPassed, IsFirstFrom, IsBelow, IsDue, IsOfKind, IsOfSessions};

use lock_command::{HostNumber, LockNumber};
use lock_table::{LockRecord, Picture};
use session::{FIRST_LOCK, LOCKS_OF_A_HOST, client_of};

/// Which locks of a host's sessions.
#[derive(Clone, Copy, Debug, PartialEq, Eq)]
pub enum Kind {
    All,
    /// Those of sessions that share the host number.
    Shared,
    /// Those of a session that has the host number to itself.
    Alone,
}

/// The lock of the lowest number, from this one on, that a session of the host has, and that is none of ours.
pub fn first_from(
    table: &Picture,
    host: HostNumber,
    kind: Kind,
    ours: &[u32],
    from: u32,
) -> Option<LockRecord>
    ensures first { IfSome result (IsFirstFrom table.now host kind ours.now from) }
    ensures none { result ≡ None → AllPassed table.now host kind ours.now from }
{
    let locks = table.locks();
    let mut best: Option<LockRecord> = None;
    for at in 0..locks.len() {
        let lock = locks[at];
        if is_due(&lock, host, kind, ours, from) && is_below(lock.lock, &best) {
            best = Some(lock);
        }
    }
    best
}

/// Whether the number is lower than that of the lock, if there is one.
fn is_below(number: LockNumber, best: &Option<LockRecord>) -> bool
    ensures { IsTrue result ↔ IsBelow number best.now }
{
    match best {
        Some(best) => number.get() < best.lock.get(),
        None => true,
    }
}

/// Whether it is one of those, none of ours, and has this number or a higher one.
fn is_due(lock: &LockRecord, host: HostNumber, kind: Kind, ours: &[u32], from: u32) -> bool
    ensures { IsTrue result ↔ IsDue host kind ours.now from lock.now }
{
    let number = u32::from(lock.lock.get());
    number >= from && is_of_sessions(lock, host) && is_of_kind(lock, kind) && !is_in(ours, number)
}

fn is_in(numbers: &[u32], number: u32) -> bool
    ensures { result ≡ left.is_in numbers.now number }
{
    numbers.iter().any(|one| *one == number)
}

/// Whether a session of the host has the lock.
fn is_of_sessions(lock: &LockRecord, host: HostNumber) -> bool
    ensures { IsTrue result ↔ IsOfSessions host lock.now }
{
    let first = FIRST_LOCK + LOCKS_OF_A_HOST * u16::from(host.get());
    let number = lock.lock.get();
    lock.client == client_of(host)
        && lock.host == host
        && number >= first
        && number - first < LOCKS_OF_A_HOST
}

fn is_of_kind(lock: &LockRecord, kind: Kind) -> bool
    ensures { IsTrue result ↔ IsOfKind kind lock.now.lock }
{
    match kind {
        Kind::All => true,
        Kind::Shared => lock.lock.get() % 2 == 1,
        Kind::Alone => lock.lock.get() % 2 == 0,
    }
}
