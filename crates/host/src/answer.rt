use attempt::Refusal;
use lock_table::Reply;
use slot_log::LogOutcome;

/// How an operation ended.
#[derive(Clone, Copy, Debug, PartialEq, Eq)]
pub enum HostAnswer {
    /// The command is in the log, at this slot, and the lock table there replies so.
    Ack { slot: u16, reply: Reply },
    /// So many commands are learned, and they were all.
    Recovered { length: u16 },
    /// So many commands are learned, and no mark told the next one when it was looked at.
    Looked { length: u16 },
    /// A beat ended well, and suggests this host.
    Beaten { host: u8 },
    /// A marking ended well: on so many disks that are left the host's block of the slot is marked.
    Marked { count: u8 },
    Refused(Refusal),
}

impl HostAnswer {
    ghost use Rattle.std.specs.Prelude.{◌≡◌};
    ghost use Rattle.host.specs.Kept.{answer_of};

    // What an outcome is for a host, with the reply to the command that was learned with it.
    pub(crate) fn of(outcome: Option<LogOutcome>, reply: Option<Reply>) -> Option<HostAnswer>
        ensures { result ≡ answer_of outcome reply }
    {
        match outcome? {
            LogOutcome::Placed { slot } => Some(HostAnswer::Ack {
                slot,
                reply: reply?,
            }),
            LogOutcome::Recovered { length } => Some(HostAnswer::Recovered { length }),
            LogOutcome::Refused(refusal) => Some(HostAnswer::Refused(refusal)),
        }
    }
}
