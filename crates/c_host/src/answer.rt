ghost use Rattle.std.specs.Prelude.{◌≡◌, pos};
ghost use Rattle.c_host.specs.Numbers.{no_answer, answer_of, status_of};
ghost use Rattle.c_host.specs.Told.{counted, answer_told, status_told};

use crate::fault::{NOTHING_SAID, operation_number, table_number};
use crate::mode_number::{NO_MODE, modes_of};
use host::HostAnswer;
use lock_table::{Answer as TableAnswer, Reply};

/// What C is told of an operation.
#[repr(C)]
#[derive(Clone, Copy, Drop)]
pub struct Answer {
    /// Where the command stands in the log, -1 where it was not acknowledged.
    pub slot: i32,
    /// 0 none, 1 granted, 2 queued, 3 released, 4 cancelled, 5 purged, 6 state, 7 refused, 8 forgotten.
    pub reply: i32,
    /// How many locks were purged.
    pub purged: u32,
    /// The mode that the lock holds, and the one that it wants, -1 for none.
    pub held: i32,
    pub wanted: i32,
    /// Of a recovery and a look, how many commands are learned; of a marking, on how many disks the mark stands.
    pub count: u32,
}

impl Answer {
    /// That of a command that was not acknowledged.
    pub fn none() -> Answer
        ensures { result ≡ no_answer }
    {
        Answer {
            slot: -1,
            reply: 0,
            purged: 0,
            held: NO_MODE,
            wanted: NO_MODE,
            count: 0,
        }
    }

    /// That of an operation that ended so.
    pub fn told(said: Option<HostAnswer>) -> Answer
        ensures { result ≡ answer_told said }
    {
        match said {
            Some(HostAnswer::Ack { slot, reply }) => Answer::of(slot, reply),
            Some(HostAnswer::Recovered { length }) => Answer::counted(u32::from(length)),
            Some(HostAnswer::Looked { length }) => Answer::counted(u32::from(length)),
            Some(HostAnswer::Marked { count }) => Answer::counted(u32::from(count)),
            Some(HostAnswer::Beaten { .. }) | Some(HostAnswer::Refused(_)) | None => Answer::none(),
        }
    }

    fn counted(count: u32) -> Answer
        ensures { result ≡ counted count }
    {
        Answer {
            count,
            ..Answer::none()
        }
    }

    /// That of a command that is acknowledged at this slot.
    pub fn of(slot: u16, reply: Reply) -> Answer
        ensures { result ≡ answer_of slot reply }
    {
        let (held, wanted) = match reply.answer {
            TableAnswer::State(state) => modes_of(state),
            _ => (NO_MODE, NO_MODE),
        };
        let purged = match reply.answer {
            TableAnswer::Purged(count) => u32::from(count),
            _ => 0,
        };
        Answer {
            slot: i32::from(slot),
            reply: reply_number(reply),
            purged,
            held,
            wanted,
            count: 0,
        }
    }
}

/// The number of a reply.
pub fn reply_number(reply: Reply) -> i32
    ensures { result ≡ (answer_of 0 reply).reply }
{
    match reply.answer {
        TableAnswer::Granted => 1,
        TableAnswer::Queued => 2,
        TableAnswer::Released => 3,
        TableAnswer::Cancelled => 4,
        TableAnswer::Purged(_) => 5,
        TableAnswer::State(_) => 6,
        TableAnswer::Refused(_) => 7,
        TableAnswer::Forgotten => 8,
    }
}

/// Why a reply refuses, 0 where it does not.
pub fn status_of(reply: Reply) -> i32
    ensures { result ≡ status_of reply }
{
    match reply.answer {
        TableAnswer::Refused(refusal) => table_number(refusal),
        _ => 0,
    }
}

/// How an operation ended, as the number that C is given.
pub fn status_told(said: Option<HostAnswer>) -> i32
    ensures { result ≡ status_told said }
{
    match said {
        Some(HostAnswer::Ack { reply, .. }) => status_of(reply),
        Some(HostAnswer::Refused(refusal)) => operation_number(refusal),
        Some(
            HostAnswer::Recovered { .. } | HostAnswer::Looked { .. } | HostAnswer::Marked { .. },
        ) => 0,
        Some(HostAnswer::Beaten { .. }) | None => NOTHING_SAID,
    }
}
