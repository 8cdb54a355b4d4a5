ghost use Rattle.std.specs.Prelude.{◌≡◌, IfOk};

use crate::fault_bytes::FaultBytes;
use lock_command::{Command, HostNumber};
use std::alloc::AllocError;

/// What happens to a cluster. An event that does not apply changes nothing.
#[derive(Debug, Drop)]
pub enum Event {
    /// A stopped host starts.
    Start(HostNumber),
    /// A running host stops.
    Stop(HostNumber),
    /// The command's host, where it is idle, begins to put it into the log. Up to `tries` attempts may be outrun.
    Submit { command: Command, tries: u8 },
    /// An idle host begins to learn all that is in the log.
    Recover { host: HostNumber, tries: u8 },
    /// An idle host begins to learn what marks tell, and writes nothing.
    Look(HostNumber),
    /// An idle host begins to write its next heartbeat and to read those of all hosts.
    Beat(HostNumber),
    /// An idle host begins to mark a slot of the log.
    Mark { host: HostNumber, slot: u16 },
    /// A busy host makes its next device call, which does not fail.
    Step(HostNumber),
    /// A busy host stops within its next call, if that is a write: its range takes the given bytes.
    Tear { host: HostNumber, given: FaultBytes },
    /// A busy host's next call fails; the range of a write takes the given bytes.
    FailCall { host: HostNumber, given: FaultBytes },
    /// A disk crashes, and its unsynced positions take the given bytes.
    DiskCrash { disk: u8, given: FaultBytes },
    /// A disk is lost for good.
    DiskGone(u8),
}

impl Event {
    /// A copy of this event.
    pub fn copy(&self) -> Result<Event, AllocError>
        ensures { IfOk result (λ copy. copy ≡ self.now) }
    {
        Ok(match self {
            Event::Start(host) => Event::Start(*host),
            Event::Stop(host) => Event::Stop(*host),
            Event::Submit { command, tries } => Event::Submit {
                command: *command,
                tries: *tries,
            },
            Event::Recover { host, tries } => Event::Recover {
                host: *host,
                tries: *tries,
            },
            Event::Look(host) => Event::Look(*host),
            Event::Beat(host) => Event::Beat(*host),
            Event::Mark { host, slot } => Event::Mark {
                host: *host,
                slot: *slot,
            },
            Event::Step(host) => Event::Step(*host),
            Event::Tear { host, given } => Event::Tear {
                host: *host,
                given: given.copy()?,
            },
            Event::FailCall { host, given } => Event::FailCall {
                host: *host,
                given: given.copy()?,
            },
            Event::DiskCrash { disk, given } => Event::DiskCrash {
                disk: *disk,
                given: given.copy()?,
            },
            Event::DiskGone(disk) => Event::DiskGone(*disk),
        })
    }
}
