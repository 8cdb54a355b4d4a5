use crate::claim::Sign;
use crate::outcome::Outcome;
use lock_command::{Command, LockNumber};

/// What is to be done next.
#[derive(Clone, Copy, Debug)]
pub enum Order {
    /// Find where the folder leads to, and open it there under the host number, unless it is open. Then tell `opened`, or `closed`.
    Open,
    /// The same, but to look, for which the host number is not wanted.
    OpenToLook,
    /// Learn all that was acknowledged, and mark it. Then tell `learned`, or `refused`.
    Learn,
    /// Learn what marks tell. Then tell `learned`, or `refused`.
    Look,
    /// Release what processes that are gone have left, and what this session gave up. Then tell `learned`.
    Tidy,
    /// Make the sign of life of this lock number, and lock it. Then tell `signed`, `sign_is_held` or `sign_failed`.
    TakeSign(LockNumber),
    /// Give this sign of life up. Then tell `dropped`.
    DropSign(Sign),
    /// Put this command into the log. Then tell `replied`, or `refused`.
    Submit(Command),
    /// Pause so many milliseconds. Then tell `rested`.
    Rest(u16),
    /// Pause for a random time that grows with the number of times that the command was outrun. Then tell `rested`.
    Yield(u8),
    /// Nothing: the operation has ended so.
    Done(Outcome),
}
