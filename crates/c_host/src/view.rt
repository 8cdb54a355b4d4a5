ghost use Rattle.std.specs.Prelude.{◌≡◌};
ghost use Rattle.c_host.specs.Numbers.{value_of};
ghost use Rattle.c_host.specs.Views.{ShowsLock, ShowsClient};

use crate::answer::{reply_number, status_of};
use crate::mode_number::modes_of;
use lock_command::{LOCK_VALUE_LENGTH, LockName};
use lock_table::{KnownClient, LockRecord, LockValue};

/// The bytes of the longest name, and a zero behind it.
pub const NAME_ROOM: usize = LockName::LONGEST + 1;

/// A host, as C is shown it.
#[repr(C)]
#[derive(Clone, Copy, Drop)]
pub struct HostView {
    pub cluster: u64,
    /// How many commands of the log are learned.
    pub learned: u64,
    pub host: u32,
    pub disks: u32,
    pub slots: u32,
    pub unused: u32,
}

/// A lock of the table, as C is shown it.
#[repr(C)]
#[derive(Clone, Copy, Drop)]
pub struct LockView {
    pub lock: u32,
    pub client: u32,
    /// The host through which the lock was enqueued.
    pub host: u32,
    /// The mode that the lock holds, and the one that it wants, -1 for none.
    pub held: i32,
    pub wanted: i32,
    /// The bytes of the name, zeros behind them.
    pub name: [u8; NAME_ROOM],
}

impl LockView {
    pub fn of(lock: &LockRecord) -> LockView
        ensures { ShowsLock result lock.now }
    {
        let (held, wanted) = modes_of(lock.state);
        let bytes = lock.name.as_bytes();
        let mut name = [0; NAME_ROOM];
        name[..bytes.len()].copy_from_slice(bytes);
        LockView {
            lock: u32::from(lock.lock.get()),
            client: u32::from(lock.client.get()),
            host: u32::from(lock.host.get()),
            held,
            wanted,
            name,
        }
    }
}

/// A client that the table knows, with its last request, as C is shown it.
#[repr(C)]
#[derive(Clone, Copy, Drop)]
pub struct ClientView {
    pub request: u64,
    pub client: u32,
    /// The reply that is kept, by its number, and why it refuses, 0 where it does not.
    pub reply: i32,
    pub refusal: i32,
    pub unused: i32,
}

impl ClientView {
    pub fn of(known: &KnownClient) -> ClientView
        ensures { ShowsClient result known.now }
    {
        ClientView {
            request: known.request.get(),
            client: u32::from(known.client.get()),
            reply: reply_number(known.reply),
            refusal: status_of(known.reply),
            unused: 0,
        }
    }
}

/// What is stored under a name, as C is shown it.
#[repr(C)]
#[derive(Clone, Copy, Drop)]
pub struct ValueView {
    pub bytes: [u8; LOCK_VALUE_LENGTH],
    /// 1 where it is valid, else 0.
    pub flags: u32,
}

impl ValueView {
    pub fn of(value: LockValue) -> ValueView
        ensures { result ≡ value_of value }
    {
        let bytes = value.bytes;
        ValueView {
            bytes,
            flags: u32::from(value.valid),
        }
    }
}
