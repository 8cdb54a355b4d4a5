ghost use Rattle.c_claims.specs.Events.{IsEvent};

use crate::failures::failure_of;
use lock_table::Reply;
use session::Failure;

/// What came of an order, as C says it of a host over the folder.
#[derive(Clone, Copy, Debug)]
pub enum Event {
    /// The folder is open.
    Opened,
    /// What was ordered is done, and so much is learned.
    Learned,
    /// The command was carried out, and the lock table replied so.
    Replied(Reply),
    /// What was ordered could not be done.
    Refused(Failure),
    /// The sign of life is this session's.
    Signed,
    /// The sign of life is somebody else's.
    SignHeld,
    /// The sign of life is given up.
    SignDropped,
    /// C says what it never may.
    Unknown,
}

impl Event {
    /// What C says by this number: 1 the folder is open, 2 so much is learned, 3 the command was carried out or refused, as the host says itself, 4 the order
    /// was refused, for this status, 5 the sign of life is this session's, 6 it is somebody else's, 7 it is given up. `said`: what the host says of the command.
    pub fn of(number: u32, status: i32, said: Result<Reply, Failure>) -> Event
        ensures { IsEvent number status said result }
    {
        match number {
            1 => Event::Opened,
            2 => Event::Learned,
            3 => match said {
                Ok(reply) => Event::Replied(reply),
                Err(failure) => Event::Refused(failure),
            },
            4 => Event::Refused(failure_of(status)),
            5 => Event::Signed,
            6 => Event::SignHeld,
            7 => Event::SignDropped,
            _ => Event::Unknown,
        }
    }
}
