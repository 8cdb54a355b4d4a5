use lock_command::Refusal as TableRefusal;

/// How an operation on a lock ended.
#[derive(Clone, Copy, Debug, PartialEq, Eq)]
pub enum Outcome {
    /// The lock is held.
    Held,
    /// The lock is not in the table, and does not come into it any more.
    NotHeld(Why),
    /// The lock was given back by the command at this slot.
    Given { slot: u64 },
    /// A command of this session whose outcome is not known may put the lock into the table, or take it away. The session keeps the lock.
    InDoubt(Why),
    /// Nothing was found out, and nothing was changed.
    Failed(Why),
}

/// Why an operation ended without what it was begun for.
#[derive(Clone, Copy, Debug, PartialEq, Eq)]
pub enum Why {
    /// The caller's time was over.
    TimeOver,
    /// The caller told it to stop.
    Stopped,
    /// Others have the name, and the caller does not wait.
    Taken,
    /// The lock was taken away.
    Gone,
    /// The lock still waits.
    Waits,
    /// The lock table refused the command.
    Refused(TableRefusal),
    /// No command could be put into the log, or nothing learned of it.
    Failed(Failure),
    /// All lock numbers of the host are in use.
    NoNumber,
}

/// Why a folder, the log or a sign of life did not serve.
#[derive(Clone, Copy, Debug, PartialEq, Eq)]
pub enum Failure {
    /// Another host's ballot was greater.
    Outrun,
    /// No majority of the disks answers.
    NoMajority,
    /// No ballot is left to this host.
    BallotsSpent,
    /// All slots of the log are taken.
    LogFull,
    /// A chosen value is no command.
    NotACommand,
    NoMemory,
    /// An image was not formatted to the end.
    NotFormatted,
    /// An image's header is wrong.
    WrongHeader,
    /// An image, or the folder, cannot be opened or read.
    Unreadable,
    /// The images have the layout before this one.
    OldLayout,
    /// Somebody else has the host number.
    HostInUse,
    /// The host number, or a sign of life, cannot be locked.
    NoLock,
    /// The library is in no state that it should be in.
    Broken,
}
