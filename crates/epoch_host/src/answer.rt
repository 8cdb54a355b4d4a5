use attempt::Refusal;
use lock_table::Reply;

/// How a task ended. Places are slots of all epochs, counted through.
#[derive(Clone, Copy, Debug, PartialEq, Eq)]
pub enum EpochAnswer {
    /// The command is in the log, at this place, and the lock table there replies so.
    Ack { place: u64, reply: Reply },
    /// All places below this one are learned, and they were all.
    Recovered { length: u64 },
    /// All places below this one are learned, and no mark told the command there when it was looked at.
    Looked { length: u64 },
    /// A beat ended well, and suggests this host.
    Beaten { host: u8 },
    /// A marking ended well: on so many disks that are left the host's block of the place is marked.
    Marked { count: u8 },
    Refused(Refusal),
}
