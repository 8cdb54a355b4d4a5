ghost use Rattle.std.specs.Prelude.{◌≡◌};

use crate::name::LockName;
use crate::number::{ClientNumber, HostNumber, LockNumber};
use crate::state::LockState;

/// The most locks that there may be.
pub const LOCKS: usize = 256;

/// A lock of the table.
#[derive(Clone, Copy, Debug)]
pub struct LockRecord {
    pub lock: LockNumber,
    pub client: ClientNumber,
    /// The host through which the lock was enqueued.
    pub host: HostNumber,
    pub name: LockName,
    pub state: LockState,
}

impl LockRecord {
    ghost use Rattle.lock_command.specs.Locks.{in_state};

    /// The record of the same lock in another state.
    pub fn with_state(&self, state: LockState) -> LockRecord
        ensures { result ≡ in_state self.now state }
    {
        LockRecord {
            lock: self.lock,
            client: self.client,
            host: self.host,
            name: self.name,
            state,
        }
    }
}
