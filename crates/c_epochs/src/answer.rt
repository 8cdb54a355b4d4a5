ghost use Rattle.std.specs.Prelude.{◌≡◌};
ghost use Rattle.c_host.specs.Numbers.{status_of};
ghost use Rattle.c_epochs.specs.Told.{answer_told, learned_upto, marked_on, nothing_told, placed, status_told};

use c_host::{Answer, NOTHING_SAID, operation_number, table_number};
use epoch_host::EpochAnswer;
use lock_table::{Answer as TableAnswer, Reply};

/// What C is told of a task. Places are slots of all epochs, counted through.
#[repr(C)]
#[derive(Clone, Copy, Drop)]
pub struct PlacedAnswer {
    /// Where the command stands in the log. It was not acknowledged where `reply` is 0; then this is 0, too.
    pub place: u64,
    /// Of a recovery and a look: all places below this one are learned. Else 0.
    pub learned: u64,
    /// 0 none, 1 granted, 2 queued, 3 released, 4 cancelled, 5 purged, 6 state, 7 refused.
    pub reply: i32,
    /// How many locks were purged.
    pub purged: u32,
    /// The mode that the lock holds, and the one that it wants, -1 for none.
    pub held: i32,
    pub wanted: i32,
    /// Of a marking, on how many disks the mark stands.
    pub marked: u32,
    pub unused: u32,
}

impl PlacedAnswer {
    /// That of a task that was not done.
    pub fn none() -> PlacedAnswer
        ensures { result ≡ nothing_told }
    {
        let none = Answer::none();
        PlacedAnswer {
            place: 0,
            learned: 0,
            reply: none.reply,
            purged: none.purged,
            held: none.held,
            wanted: none.wanted,
            marked: 0,
            unused: 0,
        }
    }

    /// That of a task that ended so.
    pub fn told(said: Option<EpochAnswer>) -> PlacedAnswer
        ensures { result ≡ answer_told said }
    {
        match said {
            Some(EpochAnswer::Ack { place, reply }) => PlacedAnswer::of(place, reply),
            Some(EpochAnswer::Recovered { length } | EpochAnswer::Looked { length }) => {
                PlacedAnswer::learned(length)
            }
            Some(EpochAnswer::Marked { count }) => PlacedAnswer::marked(count),
            Some(EpochAnswer::Beaten { .. } | EpochAnswer::Refused(_)) | None => {
                PlacedAnswer::none()
            }
        }
    }

    fn learned(length: u64) -> PlacedAnswer
        ensures { result ≡ learned_upto length }
    {
        PlacedAnswer {
            learned: length,
            ..PlacedAnswer::none()
        }
    }

    fn marked(count: u8) -> PlacedAnswer
        ensures { result ≡ marked_on count }
    {
        PlacedAnswer {
            marked: u32::from(count),
            ..PlacedAnswer::none()
        }
    }

    /// That of a command that is acknowledged at this place.
    pub fn of(place: u64, reply: Reply) -> PlacedAnswer
        ensures { result ≡ placed place reply }
    {
        let told = Answer::of(0, reply);
        PlacedAnswer {
            place,
            reply: told.reply,
            purged: told.purged,
            held: told.held,
            wanted: told.wanted,
            ..PlacedAnswer::none()
        }
    }
}

/// How a task ended, as the number that C is given.
pub fn status_told(said: Option<EpochAnswer>) -> i32
    ensures { result ≡ status_told said }
{
    match said {
        Some(EpochAnswer::Ack { reply, .. }) => status_of(reply),
        Some(EpochAnswer::Refused(refusal)) => operation_number(refusal),
        Some(
            EpochAnswer::Recovered { .. } | EpochAnswer::Looked { .. } | EpochAnswer::Marked { .. },
        ) => 0,
        Some(EpochAnswer::Beaten { .. }) | None => NOTHING_SAID,
    }
}

/// Why a reply refuses, 0 where it does not.
fn status_of(reply: Reply) -> i32
    ensures { result ≡ status_of reply }
{
    match reply.answer {
        TableAnswer::Refused(refusal) => table_number(refusal),
        _ => 0,
    }
}
