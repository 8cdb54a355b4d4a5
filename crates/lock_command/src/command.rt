use crate::mode::Mode;
use crate::name::LockName;
use crate::number::{ClientNumber, HostNumber, LockNumber, RequestNumber};
use crate::reply::{LockValue, Reply};
use crate::state::LockState;
use crate::value::ValueBytes;

/// What a client asks of the lock table, and through which host.
#[derive(Clone, Copy, Debug)]
pub struct Command {
    pub host: HostNumber,
    pub client: ClientNumber,
    pub request: RequestNumber,
    pub action: Action,
}

impl Command {
    ghost use Rattle.std.specs.Prelude.{◌≡◌};
    ghost use Rattle.lock_command.specs.Command.{is_submittable};

    /// Whether a client may ask for it. Quiet purges, and what is carried over, stand only in a log that was written as a whole.
    pub fn is_submittable(&self) -> bool
        ensures { result ≡ is_submittable self.now }
    {
        !matches!(
            &self.action,
            Action::QuietPurge(_) | Action::CarryLock { .. } | Action::CarryClient(_)
        )
    }
}

/// What is asked. With `no_queue` a lock that cannot be granted at once is refused in place of queued.
#[derive(Clone, Copy, Debug)]
pub enum Action {
    /// Takes a lock of a new number on a name.
    Enqueue {
        lock: LockNumber,
        name: LockName,
        mode: Mode,
        no_queue: bool,
    },
    /// Changes the mode that a lock holds. A given value is stored where that is downward.
    Convert {
        lock: LockNumber,
        mode: Mode,
        no_queue: bool,
        value: Option<ValueBytes>,
    },
    /// Gives a lock up, in whatever state it is. A given value is stored where the lock writes alone.
    Release {
        lock: LockNumber,
        value: Option<ValueBytes>,
    },
    /// Takes back what a lock wants and has not got.
    Cancel(LockNumber),
    /// Asks what any client's lock holds and wants.
    Status(LockNumber),
    /// Takes away all locks that were enqueued through the host. The value of each name that loses a lock holding PW or EX is invalid then.
    Purge(HostNumber),
    /// The same, and values stay valid. So a purge of the first layout, which has no values, stands in a log that was moved. No client asks for it.
    QuietPurge(HostNumber),
    /// Forgets the client's last request and reply, unless the client has a lock.
    Forget(ClientNumber),
    /// A lock as it stands: the command's client has it, and it was enqueued through the command's host. With it, the value of its
    /// name. So a log that was renewed begins. No client asks for it.
    CarryLock {
        lock: LockNumber,
        name: LockName,
        state: LockState,
        value: LockValue,
    },
    /// The reply to the last request of the command's client. That request's number is the command's. No client asks for it.
    CarryClient(Reply),
}
